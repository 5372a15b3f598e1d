// What remove decides.
ghost use Rattle.std.specs.Prelude.{◌≡◌};
ghost use Rattle.sides.specs.code.Places.{released};

use crate::{ChangeRefusal, wrong_size};

// Remove: Size, NoStream; else the place that is cleared. `found` is the place of the record in use with the SSRC, if there is one; past the table's end there is none.
pub fn release(size: usize, found: Option<usize>) -> Result<usize, ChangeRefusal>
    ensures { result ≡ released size found }
{
    if wrong_size(size) {
        return Err(ChangeRefusal::Size);
    }
    match found {
        Some(place) if place < size => Ok(place),
        _ => Err(ChangeRefusal::NoStream),
    }
}

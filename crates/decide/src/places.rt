// What add decides.
ghost use Rattle.std.specs.Prelude.{◌≡◌};
ghost use Rattle.decide.specs.code.Decide.{admission};

use sender::AddRefusal;
use sides::wrong_size;
use stream::{Limit, Stream};

// Add: Size, Limit, Duplicate, Full; else the place that the new stream takes. `found` is the place of the record in use with the SSRC, `vacant` that of the first
// record not in use; past the table's end there is none.
pub fn admit(
    started: Result<Stream, Limit>,
    size: usize,
    found: Option<usize>,
    vacant: Option<usize>,
) -> Result<(usize, Stream), AddRefusal>
    ensures { result ≡ admission started size found vacant }
{
    if wrong_size(size) {
        return Err(AddRefusal::Size);
    }
    let stream = started?;
    if found.is_some_and(|place| place < size) {
        return Err(AddRefusal::Duplicate);
    }
    match vacant {
        Some(place) if place < size => Ok((place, stream)),
        _ => Err(AddRefusal::Full),
    }
}

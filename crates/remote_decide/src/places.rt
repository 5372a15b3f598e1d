// What add decides.
ghost use Rattle.std.specs.Prelude.{◌≡◌};
ghost use Rattle.remote_decide.specs.code.Decide.{admission};

use receiver::AddRefusal;
use remote::Remote;
use sides::wrong_size;

// Add: Size, Duplicate, Full; else the place that the new stream takes. `found` is the place of the record in use with the SSRC, `vacant` that of the first record
// not in use; a place past the table is none.
// Stays: `decide` has the like with Limit between Size and Duplicate, where the order of document 01 has it.
pub fn admit(
    remote: Remote,
    size: usize,
    found: Option<usize>,
    vacant: Option<usize>,
) -> Result<(usize, Remote), AddRefusal>
    ensures { result ≡ admission remote size found vacant }
{
    if wrong_size(size) {
        return Err(AddRefusal::Size);
    }
    if found.is_some_and(|place| place < size) {
        return Err(AddRefusal::Duplicate);
    }
    match vacant {
        Some(place) if place < size => Ok((place, remote)),
        _ => Err(AddRefusal::Full),
    }
}

// The table of 1 to 64 streams, lent as the records themselves: the calls of the crate `table`, over `&mut [Stream]` (document 01, "The table").
#![tactic(auto)]

ghost use Rattle.std.specs.Prelude.{refl};

pub mod calls;

use decide::kept::Streams;
use records::Records;

// The records themselves are a way of keeping the records of streams.
pub(crate) struct StreamRecords;

impl Streams for StreamRecords {
    type Way = Records;

    ghost held = { refl };

    ghost used = { refl };

    ghost used_back = { λ old s. refl };

    ghost ssrc_back = { λ old s. refl };

    ghost same = { λ s. refl };
}

// The lent records: how one is read, stored and cleared. How one is found is `sides::keeps`.
#![tactic(auto)]

ghost use Rattle.sender.specs.Keeping.{records};
ghost use Rattle.sender.specs.Serve.{holds, streams};

use sides::keeps::Keeps;
use stream::Stream;

// A table of the records themselves.
pub struct Records;

impl Keeps for Records {
    type Record = Stream;

    type Kept = Stream;

    ghost keeping = { records };

    ghost held = { holds };

    ghost used = { streams.used };

    fn read(kept: &Stream) -> Stream {
        *kept
    }

    fn store(kept: &mut Stream, next: Stream) {
        *kept = next;
    }

    // "Remove clears "in use" and changes nothing else."
    fn clear(kept: &mut Stream) {
        kept.used = false;
    }

    // The SSRC is compared first: it is the test that mostly fails.
    fn holds(kept: &Stream, ssrc: u32) -> bool {
        kept.ssrc == ssrc && kept.used
    }

    fn is_used(kept: &Stream) -> bool {
        kept.used
    }
}

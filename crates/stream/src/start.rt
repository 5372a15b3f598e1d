// A new stream, with its hold-off from the round-trip time and the dither.
ghost use Rattle.std.specs.Prelude.{◌≡◌, ◌≤◌};
ghost use Rattle.stream.specs.Said.{started_said};
ghost use Rattle.stream.specs.Start.{most_milliseconds, holdoff_of, starting};

use crate::{Limit, State, Stream};
use counters::{PauseId, Seq};

// "RTT and dither are at most 60,000 each."
const MOST_MILLISECONDS: u32 = 60000;

fn holdoff(rtt: u32, dither: u32, nowait: bool) -> u32
    requires { (rtt ≤ most_milliseconds) × (dither ≤ most_milliseconds) }
    ensures { result ≡ holdoff_of rtt dither nowait }
{
    if nowait { 0 } else { 2 * rtt + dither }
}

impl Stream {
    // Limit is judged whichever way nowait stands.
    // Stays: the numbers of a new stream one by one, as `starting` and `add_call`, which the contracts of add cite, take them.
    pub fn start(
        ssrc: u32,
        id: PauseId,
        next: Seq,
        rtt: u32,
        dither: u32,
        nowait: bool,
    ) -> Result<Stream, Limit>
        ensures { started_said result ≡ starting ssrc id next rtt dither nowait }
    {
        if MOST_MILLISECONDS < rtt || MOST_MILLISECONDS < dither {
            return Err(Limit);
        }
        Ok(Stream {
            state: State::Playing,
            ssrc,
            holdoff: holdoff(rtt, dither, nowait),
            current: id,
            next,
            used: true,
            repeats: 0,
        })
    }
}

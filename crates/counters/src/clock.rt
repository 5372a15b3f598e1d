// The 32-bit count of milliseconds that runs over: when a deadline is, and when it is due.
ghost use Rattle.std.specs.Prelude.{◌≡◌};
ghost use Rattle.counters.specs.Clock.{deadline_of, is_due};

// Half a turn of the 32-bit clock.
const HALF_TURN: u32 = 2147483648;

// The time of the PAUSE plus the hold-off, modulo 2^32.
pub fn deadline(time: u32, holdoff: u32) -> u32
    ensures { result ≡ deadline_of time holdoff }
{
    time.wrapping_add(holdoff)
}

// A plain `deadline <= time` would be wrong where the clock runs over.
#[tactic(auto, unfolding(crate::specs::Width::less))]
pub fn due(time: u32, deadline: u32) -> bool
    ensures { result ≡ is_due time deadline }
{
    time.wrapping_sub(deadline) < HALF_TURN
}

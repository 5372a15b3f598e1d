// Which received entries do nothing, whatever the state.
ghost use Rattle.std.specs.Prelude.{◌≡◌};
ghost use Rattle.counters.specs.Counters.{judged};
ghost use Rattle.stream.specs.code.Passes.{asks, passes};

use counters::{Message, PauseId};

fn asks(message: Message) -> bool
    ensures { result ≡ asks message }
{
    matches!(message, Message::Pause | Message::Resume)
}

// Whether a received entry does nothing in any state: its PauseID is past, or it is neither PAUSE nor RESUME. So a host that knows the current PauseID need not
// look at the rest of the record.
pub fn passes(message: Message, id: PauseId, current: PauseId) -> bool
    ensures { result ≡ passes message (judged id current) }
{
    !asks(message) || id.is_past(current)
}

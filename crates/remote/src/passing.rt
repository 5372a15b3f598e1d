// Which received entries do nothing, whatever the state.
ghost use Rattle.std.specs.Prelude.{◌≡◌};
ghost use Rattle.remote.specs.code.Passes.{passes};

use counters::Message;

// Whether a received entry does nothing in any state: it is neither PAUSED nor REFUSED. So a host need not look at the record.
pub fn passes(message: Message) -> bool
    ensures { result ≡ passes message }
{
    matches!(
        message,
        Message::Pause | Message::Resume | Message::Reserved
    )
}

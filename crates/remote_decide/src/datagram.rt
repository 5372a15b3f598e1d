// What a datagram call decides: whether the datagram runs, and what one entry does.
ghost use Rattle.std.specs.Prelude.{◌≡◌};
ghost use Rattle.rtcp.specs.Datagram.{counted, reading};
ghost use Rattle.remote_decide.specs.code.Decide.{opened, taken};

use counters::{Message, PauseId};
use receiver::DatagramRefusal;
use remote::Remote;
use rtcp::Entry;
use rtcp::datagram::check;
use sides::wrong_size;

// Datagram call: Size, 1 to 9; else how many entries there are to run. There is no Room: nothing is written.
// Stays: `decide` has the like, at refusals of its own; one function for both would ask of a refusal that it can be Size, a trait for three lines.
pub fn open(size: usize, datagram: &[u8]) -> Result<usize, DatagramRefusal>
    ensures { result ≡ opened size (counted (reading datagram.now)) }
{
    if wrong_size(size) {
        return Err(DatagramRefusal::Size);
    }
    Ok(check(datagram)?)
}

// One entry of a datagram: the record that follows; none where nobody answers for its target.
pub fn take(holder: Option<Remote>, entry: Entry) -> Option<Remote>
    ensures { result ≡ taken holder entry }
{
    let remote = holder?;
    let outcome = remote.received(Message::from(entry.kind), PauseId(entry.id));
    Some(outcome.remote)
}

// The sender's side of the table (document 01, "The table" and "What can come back"): what its datagram call, send and add can come back with; what the others
// can, is of no side and stands in `sides`. What the calls do is in specs/; by-value code is the crate `decide`, and each form of the table has its own crates
// above it.
#![tactic(auto)]

mod numbers;
mod refused;

ghost use Rattle.std.specs.Prelude.{◌≡◌};
ghost use Rattle.sender.specs.Keeping.{blank};

use counters::{PauseId, Seq};
use rtcp::layout::{MOST_ENTRIES, PACKET};
use stream::{State, Stream};

// Room for the replies to any datagram, a packet for each entry: 3,720 bytes.
pub const MOST_REPLY: usize = PACKET * MOST_ENTRIES;

// What Done of the datagram call says: the reply's length, n (entries of every type) and u (entries whose target no used record has).
#[derive(Clone, Copy, PartialEq, Eq, Debug)]
pub struct Counts {
    pub length: usize,
    pub entries: usize,
    pub unknown: usize,
}

// What refuses a datagram.
#[derive(Clone, Copy, PartialEq, Eq, Debug)]
pub enum DatagramRefusal {
    Refused(rtcp::Refusal),
    Room,
    Size,
}

// What refuses a send; its Done carries the number of the packet.
#[derive(Clone, Copy, PartialEq, Eq, Debug)]
pub enum SendRefusal {
    Size,
    NoStream,
    Held,
}

// What refuses an add, whose Done carries nothing.
#[derive(Clone, Copy, PartialEq, Eq, Debug)]
pub enum AddRefusal {
    Size,
    Limit,
    Duplicate,
    Full,
}

// A record that is not in use, with every number 0: what a host fills its table with.
pub fn unused() -> Stream
    ensures { result ≡ blank }
{
    Stream {
        state: State::Playing,
        ssrc: 0,
        holdoff: 0,
        current: PauseId(0),
        next: Seq(0),
        used: false,
        repeats: 0,
    }
}

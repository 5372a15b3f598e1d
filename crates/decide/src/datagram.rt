// What a datagram call decides: whether the datagram runs, and what one entry does.
ghost use Rattle.std.specs.Prelude.{◌≡◌};
ghost use Rattle.rtcp.specs.Datagram.{counted, reading};
ghost use Rattle.decide.specs.code.Decide.{opened, roomed, taken};
ghost use Rattle.decide.specs.code.Turning.{tallied};

use crate::replies::length;
use crate::room::no_room;
use counters::{Message, PauseId};
use rtcp::Entry;
use rtcp::cursor::Cursor;
use rtcp::datagram::check;
use sender::DatagramRefusal;
use sides::wrong_size;
use stream::{Outcome, ReplyEntry, Stream};

// Datagram call: Size, 1 to 9; else how many entries there are to run.
pub fn open(size: usize, datagram: &[u8]) -> Result<usize, DatagramRefusal>
    ensures { result ≡ opened size (counted (reading datagram.now)) }
{
    if wrong_size(size) {
        return Err(DatagramRefusal::Size);
    }
    Ok(check(datagram)?)
}

// And last Room, judged on n. It is asked apart, since a side that replies nothing to a datagram has none.
pub fn with_room(
    opened: Result<usize, DatagramRefusal>,
    room: usize,
) -> Result<usize, DatagramRefusal>
    ensures { result ≡ roomed opened room }
{
    let n = opened?;
    if no_room(n, room) {
        return Err(DatagramRefusal::Room);
    }
    Ok(n)
}

// One entry of a datagram, at the datagram's time; none where nobody answers for its target.
pub fn take(holder: Option<Stream>, entry: Entry, time: u32) -> Option<Outcome>
    ensures { result ≡ taken holder entry time }
{
    Some(holder?.received(Message::from(entry.kind), PauseId(entry.id), time))
}

// Where the run stands: before which entry, how many bytes of the buffer are written, and u so far.
#[derive(Clone, Copy)]
pub struct Turning {
    pub cursor: Cursor,
    pub written: usize,
    pub unknown: usize,
}

// The sums wrap, so that this answers for every input; no datagram has so many entries.
pub fn after(at: Turning, next: Cursor, reply: Option<ReplyEntry>, unknown: usize) -> Turning
    ensures { result ≡ tallied at next reply unknown }
{
    Turning {
        cursor: next,
        written: at.written.wrapping_add(length(reply)),
        unknown: at.unknown.wrapping_add(unknown),
    }
}

// The run of a checked datagram's entries, in one pass with a cursor.
ghost use Rattle.std.specs.Prelude.{◌≡◌, length, take};
ghost use Rattle.rtcp.specs.code.Cursor.{step_of};
ghost use Rattle.rtcp.specs.Datagram.{reading};
ghost use Rattle.sides.specs.code.Counted.{entries_of};
ghost use Rattle.sender.specs.Serve.{turns, starts};
ghost use Rattle.decide.specs.code.Index.{Indexed};
ghost use Rattle.decide.specs.code.Passing.{passes_at};
ghost use Rattle.decide.specs.code.Turning.{Accepted, Through, entered, turned};

use crate::datagram::{Turning, after, take};
use crate::kept::index::{Index, SLOTS, find_by, make};
use crate::kept::{Kept, Streams, store};
use crate::replies::put_reply;
use counters::{Message, PauseId};
use rtcp::Entry;
use rtcp::cursor::Cursor;
use sides::keeps::holder;
use stream::passing::passes;

// Whether the entry does nothing to the record at a place: of the record only the current PauseID is looked at.
fn passes_at<W: Streams>(table: &[Kept<W>], found: Option<usize>, entry: Entry) -> bool
    ensures { result ≡ passes_at W.Way.keeping table.now found entry }
{
    match holder::<W::Way>(table, found) {
        Some(stream) => passes(Message::from(entry.kind), PauseId(entry.id), stream.current),
        None => false,
    }
}

// Stays: table and buffer come one by one, here and in all calls: a host lends each by itself, and `datagram_call` promises each by its own name.
// One entry: find the record, decide, store it, write the reply.
fn enter<W: Streams>(
    table: &mut [Kept<W>],
    buffer: &mut [u8],
    entry: Entry,
    next: Cursor,
    time: u32,
    at: Turning,
    index: &Index,
) -> Turning
    requires { Indexed W.Way.keeping table.old index.now }
    ensures { entered W.Way.keeping time (record { at = at; table = table.old; buffer = buffer.old }) entry next
        ≡ record { at = result; table = table.new; buffer = buffer.new } }
{
    let found = find_by::<W>(index, table, entry.target);
    if passes_at::<W>(table, found, entry) {
        return Turning { cursor: next, ..at };
    }
    match take(holder::<W::Way>(table, found), entry, time) {
        Some(outcome) => {
            store::<W>(table, found, outcome.stream);
            put_reply(buffer, at.written, outcome.reply);
            after(at, next, outcome.reply, 0)
        }
        None => after(at, next, None, 1),
    }
}

fn turn<W: Streams>(
    table: &mut [Kept<W>],
    buffer: &mut [u8],
    datagram: &[u8],
    time: u32,
    at: Turning,
    index: &Index,
) -> Turning
    requires { Indexed W.Way.keeping table.old index.now }
    ensures { turned W.Way.keeping time (record { at = at; table = table.old; buffer = buffer.old }) (step_of datagram.now at.cursor)
        ≡ record { at = result; table = table.new; buffer = buffer.new } }
{
    match at.cursor.step(datagram) {
        Some((entry, next)) => enter::<W>(table, buffer, entry, next, time, at, index),
        None => at,
    }
}

// All n entries of an accepted datagram, in order.
pub(crate) fn turns<W: Streams>(
    table: &mut [Kept<W>],
    buffer: &mut [u8],
    datagram: &[u8],
    time: u32,
    n: usize,
) -> Turning
    requires { Accepted datagram.now n (length buffer.old) }
    ensures { Through (turns W.Way.keeping time (starts table.old) (take n (entries_of (reading datagram.now)))) buffer.old result table.new buffer.new }
{
    let mut at = Turning {
        cursor: Cursor::start(),
        written: 0,
        unknown: 0,
    };
    let mut index = [0; SLOTS];
    make::<W>(&mut index, table, n);
    for _ in 0..n {
        at = turn::<W>(table, buffer, datagram, time, at, &index);
    }
    at
}

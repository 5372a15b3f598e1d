// Reading a datagram: a row of RTCP packets, each judged whole before the next.
ghost use Rattle.std.specs.Prelude.{◌≡◌, ◌+◌, ◌≤◌, length, Err};
ghost use Rattle.rtcp.specs.Datagram.{header, size_of, contents, padded, opened, entry_end, within, packets, reading, counted};
ghost use Rattle.rtcp.specs.Said.{checked_said, reading_said};
ghost use Rattle.rtcp.specs.code.Plain.{PassesPlain, is_plain};

use crate::cursor::Cursor;
use crate::layout::{
    ENTRY, FEEDBACK, HEADER, MOST_BYTES, PAUSE_RESUME, SOURCES, VERSION, WORD, WORDS_AT,
};
use crate::number::{read_four, read_two};
use crate::{Fault, Refusal};

// A packet that is not refused: passed over to the next, or a cursor at its first entry.
#[derive(Clone, Copy)]
pub(crate) enum Opened {
    Over(usize),
    Within(Cursor),
}

// How many entries were passed, and where the next would start.
#[derive(Clone, Copy)]
struct Passed {
    place: usize,
    entries: usize,
}

fn packet_size(datagram: &[u8], at: usize) -> usize
    requires { at + header ≤ length datagram.now }
    ensures { result ≡ size_of datagram.now at }
{
    WORD * (usize::from(read_two(datagram, at + 2)) + 1)
}

fn refused<T: Copy>(fault: Fault, place: usize) -> Result<T, Refusal>
    ensures { result ≡ Err (record { fault = fault; place = place }) }
{
    Err(Refusal { fault, place })
}

// What stands after the header of a packet of `size` bytes, `padding` of them padding.
#[tactic(auto, unfolding(crate::specs::Datagram::contents, crate::specs::Datagram::refuse_if, crate::specs::Pick::pick))]
fn open_contents(datagram: &[u8], at: usize, size: usize, padding: usize) -> Result<Opened, Refusal>
    requires { (header + padding ≤ size) × (at + size ≤ length datagram.now) }
    ensures { result ≡ contents datagram.now at size padding }
{
    let next = at + size;
    if datagram[at + 1] != FEEDBACK || datagram[at] & 31 != PAUSE_RESUME {
        return Ok(Opened::Over(next));
    }
    let room = size - HEADER - padding;
    if room < SOURCES {
        return refused(Fault::NoHead, at);
    }
    if room == SOURCES {
        return refused(Fault::NoEntry, at);
    }
    Ok(Opened::Within(Cursor {
        place: at + HEADER + SOURCES,
        end: next - padding,
        next,
        sender: read_four(datagram, at + HEADER),
    }))
}

// A packet of `size` bytes with the padding flag.
#[tactic(auto, unfolding(crate::specs::Datagram::padded, crate::specs::Datagram::refuse_if, crate::specs::Pick::pick))]
fn open_padded(datagram: &[u8], at: usize, size: usize) -> Result<Opened, Refusal>
    requires { (header ≤ size) × (at + size ≤ length datagram.now) }
    ensures { result ≡ padded datagram.now at size }
{
    if size < datagram.len() - at {
        return refused(Fault::PadPlace, at);
    }
    let count = usize::from(datagram[at + size - 1]);
    if count == 0 || count % WORD != 0 || size - HEADER < count {
        return refused(Fault::PadCount, at);
    }
    open_contents(datagram, at, size, count)
}

// Cases 2 to 8 of one packet. "Padding may stand only in the last packet", whatever its type.
#[tactic(auto, unfolding(crate::specs::Datagram::opened, crate::specs::Datagram::refuse_if, crate::specs::Pick::pick))]
pub(crate) fn open_packet(datagram: &[u8], at: usize) -> Result<Opened, Refusal>
    requires { at ≤ length datagram.now }
    ensures { result ≡ opened datagram.now at }
{
    let left = datagram.len() - at;
    if left < HEADER {
        return refused(Fault::Short, at);
    }
    let first = datagram[at];
    if first >> 6 != VERSION {
        return refused(Fault::Version, at);
    }
    let size = packet_size(datagram, at);
    if left < size {
        return refused(Fault::Overrun, at);
    }
    if (first >> 5) & 1 == 0 {
        return open_contents(datagram, at, size, 0);
    }
    open_padded(datagram, at, size)
}

// Every type of entry is passed over by its length. None: the packet has no room for the entry.
#[tactic(auto, unfolding(crate::specs::Datagram::entry_end, crate::specs::Pick::pick))]
pub(crate) fn entry_end(datagram: &[u8], place: usize, end: usize) -> Option<usize>
    requires { (place ≤ end) × (end ≤ length datagram.now) }
    ensures { result ≡ entry_end datagram.now place end }
{
    let left = end - place;
    if left < ENTRY {
        return None;
    }
    let size = ENTRY + WORD * usize::from(datagram[place + WORDS_AT]);
    if left < size {
        return None;
    }
    Some(place + size)
}

// An entry with no parameters.
fn is_plain(datagram: &[u8], place: usize, end: usize) -> bool
    requires { end ≤ length datagram.now }
    ensures { result ≡ is_plain datagram.now place end }
{
    ENTRY <= end && place <= end - ENTRY && datagram[place + WORDS_AT] == 0
}

// The entries with no parameters that stand first, as most do. Where the next one starts does not hang on a byte of this one, so the processor need not wait.
// Stays: `chunks_exact(ENTRY).take_while(..).count()` was tried; that each chunk it counts has no parameters is a goal that did not close.
fn pass_plain(datagram: &[u8], from: usize, end: usize) -> Passed
    requires { end ≤ length datagram.now }
    ensures { PassesPlain datagram.now from end result }
{
    let mut place = from;
    let mut entries = 0;
    while is_plain(datagram, place, end) {
        place += ENTRY;
        entries += 1;
    }
    Passed { place, entries }
}

// How many entries a packet has, from a cursor at its first.
// Stays: an entry's own length says where the next one is, and one that lacks bytes is refused with its place, so an iterator's `next` would be this loop's body.
fn count_entries(datagram: &[u8], cursor: Cursor) -> Result<usize, Refusal>
    requires { cursor.end ≤ length datagram.now }
    ensures { result ≡ counted (within datagram.now cursor) }
{
    let passed = pass_plain(datagram, cursor.place, cursor.end);
    let mut place = passed.place;
    let mut n = passed.entries;
    while place < cursor.end {
        let Some(next) = entry_end(datagram, place, cursor.end) else {
            return refused(Fault::Entry, place);
        };
        place = next;
        n += 1;
    }
    Ok(n)
}

// How many entries the packets of a datagram have.
fn count_packets(datagram: &[u8]) -> Result<usize, Refusal>
    ensures { result ≡ counted (packets datagram.now 0) }
{
    let mut at = 0;
    let mut n = 0;
    while at < datagram.len() {
        match open_packet(datagram, at)? {
            Opened::Over(next) => at = next,
            Opened::Within(cursor) => {
                n += count_entries(datagram, cursor)?;
                at = cursor.next;
            }
        }
    }
    Ok(n)
}

// The whole datagram is judged before any of its entries is handed out. The answer is how many entries it has.
pub fn check(datagram: &[u8]) -> Result<usize, Refusal>
    ensures { checked_said result ≡ reading_said (reading datagram.now) }
{
    if datagram.len() > MOST_BYTES {
        return refused(Fault::TooLong, 0);
    }
    if datagram.is_empty() {
        return refused(Fault::Short, 0);
    }
    count_packets(datagram)
}

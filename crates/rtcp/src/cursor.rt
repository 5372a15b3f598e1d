// Stepping through a datagram's entries in one pass, and finding one by its number.
ghost use Rattle.std.specs.Prelude.{◌≡◌, List, ◌+◌, ◌≤◌, length};
ghost use Rattle.rtcp.specs.Datagram.{entry_head, entry_at, entries, reading};
ghost use Rattle.rtcp.specs.Cursor.{numbered};
ghost use Rattle.rtcp.specs.code.Cursor.{start, taken, sought, step_of, Ready};

use crate::Entry;
use crate::datagram::{Opened, check, entry_end, open_packet};
use crate::layout::{ID_AT, KIND_AT, WORDS_AT};
use crate::number::{read_four, read_two};

// A place among the entries of a packet: where the next entry would start, where the packet's entries end, where the
// next packet starts, and the packet's sender.
#[derive(Clone, Copy, PartialEq, Eq, Debug)]
pub struct Cursor {
    pub place: usize,
    pub end: usize,
    pub next: usize,
    pub sender: u32,
}

fn read_entry(datagram: &[u8], place: usize, sender: u32) -> Entry
    requires { place + entry_head ≤ length datagram.now }
    ensures { result ≡ entry_at datagram.now sender place }
{
    Entry {
        place,
        sender,
        target: read_four(datagram, place),
        id: read_two(datagram, place + ID_AT),
        kind: datagram[place + KIND_AT] >> 4,
        words: datagram[place + WORDS_AT],
    }
}

impl Cursor {
    // Before the first packet.
    pub fn start() -> Cursor
        ensures { result ≡ start }
    {
        Cursor {
            place: 0,
            end: 0,
            next: 0,
            sender: 0,
        }
    }

    // The next entry, and the cursor past it. Total: what is no cursor of this datagram gives what it finds, or None.
    // It is inlined, so that entry and cursor stay in registers; what opens a packet comes seldom, and is a function of its own.
    #[inline(always)]
    #[tactic(auto, unfolding(crate::specs::code::Cursor::step_of, crate::specs::Pick::pick))]
    pub fn step(self, datagram: &[u8]) -> Option<(Entry, Cursor)>
        ensures { result ≡ step_of datagram.now self }
    {
        if self.place < self.end {
            take_entry(datagram, self)
        } else {
            seek_entry(datagram, self.next)
        }
    }
}

// The entry at the cursor, and the cursor past it.
#[tactic(auto, unfolding(crate::specs::code::Cursor::taken, crate::specs::Pick::pick))]
fn take_entry(datagram: &[u8], cursor: Cursor) -> Option<(Entry, Cursor)>
    requires { cursor.place ≤ cursor.end }
    ensures { result ≡ taken datagram.now cursor }
{
    if datagram.len() < cursor.end {
        return None;
    }
    let place = entry_end(datagram, cursor.place, cursor.end)?;
    Some((
        read_entry(datagram, cursor.place, cursor.sender),
        Cursor { place, ..cursor },
    ))
}

// The first entry of the packets from `from` on.
#[inline(never)]
fn seek_entry(datagram: &[u8], from: usize) -> Option<(Entry, Cursor)>
    ensures { result ≡ sought datagram.now from }
{
    let mut at = from;
    while at < datagram.len() {
        match open_packet(datagram, at) {
            Ok(Opened::Over(next)) => at = next,
            Ok(Opened::Within(cursor)) => return take_entry(datagram, cursor),
            Err(_) => return None,
        }
    }
    None
}

// The entries of an accepted datagram from a cursor on.
#[derive(Clone, Copy)]
pub struct Entries<'a> {
    pub datagram: &'a [u8],
    pub cursor: Cursor,
    pub ghost ready: { Ready datagram.now cursor },
}

impl Iterator for Entries<'_> {
    ghost use Rattle.std.specs.Iterator.{item_count};
    ghost use Rattle.rtcp.specs.code.Entries.{Gives, left};

    type Item = Entry;

    ghost next_gives = { Gives };

    ghost remaining = { item_count left };

    #[inline(always)]
    fn next(&mut self) -> Option<Entry> {
        let (entry, cursor) = self.cursor.step(self.datagram)?;
        self.cursor = cursor;
        Some(entry)
    }
}

// Entry k of a datagram that the check accepts.
fn nth_entry(datagram: &[u8], k: usize) -> Option<Entry>
    requires { (es : List Entry) × (reading datagram.now ≡ entries es) }
    ensures { result ≡ numbered (reading datagram.now) k }
{
    let mut entries = Entries {
        datagram,
        cursor: Cursor::start(),
    };
    entries.nth(k)
}

// "A walk whose opening was refused gives only End."
pub fn entry_at(datagram: &[u8], k: usize) -> Option<Entry>
    ensures { result ≡ numbered (reading datagram.now) k }
{
    match check(datagram) {
        Ok(_) => nth_entry(datagram, k),
        Err(_) => None,
    }
}

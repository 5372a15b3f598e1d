// Walks fixed datagrams by `walk::entry`, which takes a plain slice. Of each it prints the opening's case and value (0 and the
// count of entries, or the case and place of the refusal), then each entry's place, packet sender, target, type, PauseID and
// parameter length, and at last what the step after them and the step with the largest number give. Beside each datagram
// stands how document 01 gives what `stdout` holds of it.
#![tactic(auto)]

use rtcp::datagram::check;
use rtcp::layout::MOST_ENTRIES;
use rtcp::{Entry, Refusal};
use std::io;
use std::io::Write;

fn print_field(rt: &impl Print, value: u64) -> io::Result<()> {
    print!(rt; " {value}")
}

fn print_ssrc(rt: &impl Print, value: u32) -> io::Result<()> {
    print!(rt; " {value:08x}")
}

fn print_opening(rt: &impl Print, answer: Result<usize, Refusal>) -> io::Result<()> {
    print_field(rt, u64::from(cases::number(answer)))?;
    match answer {
        Ok(n) => print_field(rt, n as u64)?,
        Err(refusal) => print_field(rt, refusal.place as u64)?,
    }
    println!(rt; "")
}

fn print_entry(rt: &impl Print, entry: Entry) -> io::Result<()> {
    print!(rt; "entry")?;
    print_field(rt, entry.place as u64)?;
    print_ssrc(rt, entry.sender)?;
    print_ssrc(rt, entry.target)?;
    print_field(rt, u64::from(entry.kind))?;
    print_field(rt, u64::from(entry.id))?;
    print_field(rt, u64::from(entry.words))?;
    println!(rt; "")
}

fn print_step(rt: &impl Print, step: Option<Entry>) -> io::Result<()> {
    match step {
        Some(entry) => print_entry(rt, entry),
        None => println!(rt; "end"),
    }
}

fn walk_through(rt: &impl Print, name: &[u8], datagram: &[u8]) -> io::Result<()> {
    io::writer(rt).write_all(name)?;
    print_opening(rt, check(datagram))?;
    for k in 0..=MOST_ENTRIES {
        let step = walk::entry(datagram, k);
        print_step(rt, step)?;
        if step.is_none() {
            break;
        }
    }
    print_step(rt, walk::entry(datagram, usize::MAX))
}

fn main(rt: HostRuntime) -> io::Result<()> {
    // The line program's first datagram: 4 x (4 + 1) = 20 bytes, so one entry, after the header's 4 and the sources' 8. Its
    // sender is aabbccdd, its target 11223344, and 00 00 0007 says PAUSE, no parameters and PauseID 7.
    walk_through(
        &rt,
        b"example",
        b"\x89\xcd\x00\x04\xaa\xbb\xcc\xdd\x00\x00\x00\x00\x11\x22\x33\x44\x00\x00\x00\x07",
    )?;
    // Two entries with parameters, in 4 x (9 + 1) = 40 bytes. 25 is type 2 with reserved bits 5, which are ignored; 01 is one
    // word of parameters, so the second entry stands at 12 + 8 + 4 = 24. There 3f is type 3, and 02 two words, to the end.
    walk_through(
        &rt,
        b"parameters",
        b"\x89\xcd\x00\x09\x00\x00\x00\x01\x00\x00\x00\x00\x00\x00\x00\x02\x25\x01\x01\x02\xde\xad\xbe\xef\xff\xff\xff\xff\x3f\x02\xff\xff\x01\x02\x03\x04\x05\x06\x07\x08",
    )?;
    // Types 4 to 15, each with its type as target and PauseID. Type 9 has a word of parameters, so the places are 12, 20, 28,
    // 36, 44, 52, then 52 + 12 = 64, 72, 80, 88, 96 and 104, to 112 = 4 x (27 + 1).
    walk_through(
        &rt,
        b"types",
        b"\x89\xcd\x00\x1b\x00\x00\x00\x01\x00\x00\x00\x00\x00\x00\x00\x04\x40\x00\x00\x04\x00\x00\x00\x05\x50\x00\x00\x05\x00\x00\x00\x06\x60\x00\x00\x06\x00\x00\x00\x07\x70\x00\x00\x07\x00\x00\x00\x08\x80\x00\x00\x08\x00\x00\x00\x09\x90\x01\x00\x09\x00\x00\x00\x00\x00\x00\x00\x0a\xa0\x00\x00\x0a\x00\x00\x00\x0b\xb0\x00\x00\x0b\x00\x00\x00\x0c\xc0\x00\x00\x0c\x00\x00\x00\x0d\xd0\x00\x00\x0d\x00\x00\x00\x0e\xe0\x00\x00\x0e\x00\x00\x00\x0f\xf0\x00\x00\x0f",
    )?;
    // Compound: a receiver report (type 201) of 8 bytes, passed over; at 8 an FMT 9 packet of 20, its entry at 8 + 12 = 20,
    // RESUME with PauseID 8; at 28 type 205 with FMT 1, 12 bytes, passed over; at 40 an FMT 9 packet of 24, the last, with the
    // padding flag and 4 bytes of padding: its entry at 52, PAUSE with PauseID 9, ends where the padding starts.
    walk_through(
        &rt,
        b"compound",
        b"\x80\xc9\x00\x01\x00\x00\x00\x01\x89\xcd\x00\x04\x00\x00\x00\x02\x00\x00\x00\x00\x11\x22\x33\x44\x10\x00\x00\x08\x81\xcd\x00\x02\x00\x00\x00\x01\x00\x00\x00\x02\xa9\xcd\x00\x05\x00\x00\x00\x03\x00\x00\x00\x00\x55\x66\x77\x88\x00\x00\x00\x09\x00\x00\x00\x04",
    )?;
    // A receiver report alone: accepted, and no entry.
    walk_through(&rt, b"no entries", b"\x80\xc9\x00\x01\x00\x00\x00\x01")?;
    // Case 2, "also an empty datagram", at 0.
    walk_through(&rt, b"empty", b"")?;
    // Case 1: one byte over 1,500, at 0, before any packet is looked at (here version 0).
    walk_through(&rt, b"too long", &[0; 1501])?;
    // Case 2: after a packet of 4 bytes two are left where a packet starts, at 4.
    walk_through(&rt, b"short", b"\x80\xc9\x00\x00\x89\xcd")?;
    // Case 3: the packet at 4 has version 1 (49 is 01 0 01001); it is longer than what is left too, which is judged later.
    walk_through(&rt, b"version", b"\x80\xc9\x00\x00\x49\xcd\x00\x04")?;
    // Case 4: the packet at 0 has 4 x (5 + 1) = 24 bytes, of which 20 are there.
    walk_through(
        &rt,
        b"overrun",
        b"\x89\xcd\x00\x05\xaa\xbb\xcc\xdd\x00\x00\x00\x00\x11\x22\x33\x44\x00\x00\x00\x07",
    )?;
    // Case 5: the packet at 0 has the padding flag, and 4 bytes follow it.
    walk_through(
        &rt,
        b"padding place",
        b"\xa0\xc9\x00\x01\x00\x00\x00\x04\x80\xc9\x00\x00",
    )?;
    // Case 6: the padding count 3 of the packet at 0 is not divisible by 4.
    walk_through(
        &rt,
        b"padding count",
        b"\xa9\xcd\x00\x05\xaa\xbb\xcc\xdd\x00\x00\x00\x00\x11\x22\x33\x44\x00\x00\x00\x07\x00\x00\x00\x03",
    )?;
    // Case 7: FMT 9, and after the header 4 bytes at 0.
    walk_through(&rt, b"no head", b"\x89\xcd\x00\x01\xaa\xbb\xcc\xdd")?;
    // Case 8: FMT 9 at 4, and after the header just the 8 bytes of the sources.
    walk_through(
        &rt,
        b"no entry",
        b"\x80\xc9\x00\x00\x89\xcd\x00\x02\xaa\xbb\xcc\xdd\x00\x00\x00\x00",
    )?;
    // Case 9: the entry at 12 is whole, and 4 bytes are left of the packet at 20. None of the two is given.
    walk_through(
        &rt,
        b"lacks bytes",
        b"\x89\xcd\x00\x05\xaa\xbb\xcc\xdd\x00\x00\x00\x00\x11\x22\x33\x44\x00\x00\x00\x07\x55\x66\x77\x88",
    )?;
    // Case 9: the entry at 12 says one word of parameters, and the packet ends at 20.
    walk_through(
        &rt,
        b"lacks parameters",
        b"\x89\xcd\x00\x04\xaa\xbb\xcc\xdd\x00\x00\x00\x00\x11\x22\x33\x44\x00\x01\x00\x07",
    )?;
    Ok(())
}

// The public writer and the walk.
use crate::number::put_number;
use crate::say::Output;
use cases::Case;
use frames::answer::refused;
use lines::number::{eight, four, two};
use rtcp::Entry;
use rtcp::datagram::check;
use writer::{WriteRefusal, write_entry};

// "30 write: packet sender (4), target (4), type (1), PauseID (2)": "the packet, written into the reply buffer", of which the first bytes are lent.
pub(crate) fn write(reply: &mut [u8], bytes: &[u8]) -> Option<Result<usize, WriteRefusal>> {
    if bytes.len() != 12 {
        return None;
    }
    let sender = four(bytes, 1);
    let target = four(bytes, 5);
    Some(write_entry(reply, sender, target, bytes[9], two(bytes, 10)))
}

// 00 01 and the entry: "place (2), packet sender (4), target (4), type (1), PauseID (2), parameter length (1)".
fn entry_bytes(entry: Entry) -> [u8; 16] {
    let mut bytes = [0u8; 16];
    bytes[1] = 1;
    put_number(&mut bytes, 2, (entry.place % 65536) as u32, 2);
    put_number(&mut bytes, 4, entry.sender, 4);
    put_number(&mut bytes, 8, entry.target, 4);
    put_number(&mut bytes, 12, u32::from(entry.kind), 1);
    put_number(&mut bytes, 13, u32::from(entry.id), 2);
    put_number(&mut bytes, 15, u32::from(entry.words), 1);
    bytes
}

// "31 step: k (8), then the datagram (none too)": "00 for End; or 01 and the entry with number k .. A datagram that is refused gives its refusal".
pub(crate) fn step(bytes: &[u8], out: &mut Output) -> Option<()> {
    if bytes.len() < 9 {
        return None;
    }
    let k = eight(bytes, 1) as usize;
    let datagram = &bytes[9..];
    if let Err(refusal) = check(datagram) {
        out.say_head(refused(refusal.number(), refusal.place), b"");
    } else if let Some(entry) = walk::entry(datagram, k) {
        out.say_bytes(&entry_bytes(entry));
    } else {
        out.say_bytes(b"\x00\x00");
    }
    Some(())
}

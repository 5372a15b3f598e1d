// "A public writer makes the 20-byte packet of one entry from sender, target, type 0 to 3 and PauseID. Reading it back
// gives that entry." (document 01, "The RTCP datagram"). A packet is written into a buffer from any place on; what does not fit changes no byte.
#![tactic(auto)]

ghost use Rattle.std.specs.Prelude.{◌≡◌, ◌+◌, ◌≤◌, length};
ghost use Rattle.std.proofs.lemmas.List.Edits.{sets};
ghost use Rattle.rtcp.specs.Datagram.{header, sources, entry_head};
ghost use Rattle.writer.specs.Said.{written_never_done, written_number, written_said};
ghost use Rattle.writer.specs.Writer.{head_bytes, entry_bytes, packet_bytes, placed, written_of, bytes_after};

use cases::Case;
use rtcp::layout::{
    ENTRY, FEEDBACK, HEAD, HEADER, ID_AT, KIND_AT, PACKET, PAUSE_RESUME, SOURCES, VERSION, WORD,
    WORDS_AT,
};

// The last of the types that are written.
const REFUSED: u8 = 3;

// What the writer refuses.
#[derive(Clone, Copy, Debug, PartialEq, Eq)]
pub enum WriteRefusal {
    Limit,
    Room,
}

impl Case for WriteRefusal {
    ghost numbered = { written_number };

    fn number(self) -> u8 {
        match self {
            WriteRefusal::Limit => 14,
            WriteRefusal::Room => 10,
        }
    }

    ghost never_done = { written_never_done };
}

// The bytes, from a place on.
#[tactic(auto, using(crate::proofs::Stored::stored))]
fn put(buffer: &mut [u8], at: usize, bytes: &[u8])
    requires { at + length bytes.now ≤ length buffer.old }
    ensures { buffer.new ≡ sets buffer.old at bytes.now }
{
    buffer[at..at + bytes.len()].copy_from_slice(bytes);
}

// The bytes before the entry, from a place on. "All numbers are big-endian."
fn put_head(buffer: &mut [u8], at: usize, sender: u32)
    requires { at + (header + sources) ≤ length buffer.old }
    ensures { buffer.new ≡ sets buffer.old at (head_bytes sender) }
{
    buffer[at] = VERSION << 6 | PAUSE_RESUME;
    buffer[at + 1] = FEEDBACK;
    let words = ((SOURCES + ENTRY) / WORD) as u16;
    put(buffer, at + 2, &words.to_be_bytes());
    put(buffer, at + HEADER, &sender.to_be_bytes());
    put(buffer, at + HEADER + 4, &0u32.to_be_bytes());
}

// An entry has no parameters, and its reserved bits are 0: of a type over 15 the low four bits are written.
fn put_entry(buffer: &mut [u8], at: usize, target: u32, kind: u8, id: u16)
    requires { at + entry_head ≤ length buffer.old }
    ensures { buffer.new ≡ sets buffer.old at (entry_bytes target kind id) }
{
    put(buffer, at, &target.to_be_bytes());
    buffer[at + KIND_AT] = kind << 4;
    buffer[at + WORDS_AT] = 0;
    put(buffer, at + ID_AT, &id.to_be_bytes());
}

// The packet of one entry, from a place of the buffer on.
#[tactic(auto, using(crate::proofs::Placed::placed_kept))]
pub fn put_packet(buffer: &mut [u8], at: usize, sender: u32, target: u32, kind: u8, id: u16)
    ensures { buffer.new ≡ placed buffer.old at (packet_bytes sender target kind id) }
{
    if at > buffer.len() || buffer.len() - at < PACKET {
        return;
    }
    put_head(buffer, at, sender);
    put_entry(buffer, at + HEAD, target, kind, id);
}

// The packet of one entry, of a type from PAUSE to REFUSED.
// Stays: a number for the type, since `written_of` promises Limit for each over 3.
#[tactic(auto, using(crate::proofs::Placed::placed_kept), unfolding(crate::specs::Writer::bytes_after, rtcp::specs::Pick::pick))]
pub fn write_entry(
    buffer: &mut [u8],
    sender: u32,
    target: u32,
    kind: u8,
    id: u16,
) -> Result<usize, WriteRefusal>
    ensures answer { written_said result ≡ written_of buffer.old kind }
    ensures bytes { buffer.new ≡ bytes_after buffer.old sender target kind id }
{
    if kind > REFUSED {
        return Err(WriteRefusal::Limit);
    }
    if buffer.len() < PACKET {
        return Err(WriteRefusal::Room);
    }
    put_packet(buffer, 0, sender, target, kind, id);
    Ok(PACKET)
}

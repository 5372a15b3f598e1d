// A whole line served, and its answer printed: "prints one line for each".
ghost use Rattle.std.specs.Prelude.{◌≡◌, ◌+◌, ◌≤◌, leb, take};
ghost use Rattle.lines.specs.Hex.{digits_read};
ghost use Rattle.frames.specs.Whole.{answering, digits_served, longest};

use crate::answer::{FIRST, Head, LINE, refused, say};
use crate::serve::serve;
use lines::hex::read;
use lines::{Bytes, Line};
use rows::Row;
use sender::MOST_REPLY;

// "The reply buffer is large enough that Room never occurs": as many bytes as the replies to any datagram.
pub const REPLY_ROOM: usize = MOST_REPLY;

// The reply buffer of a line.
pub type ReplyBuffer = [u8; REPLY_ROOM];

// The digits of the longest answer, its first bytes and the whole reply buffer, and its line feed.
pub const LONGEST: usize = 2 * (FIRST + REPLY_ROOM) + 1;

// A whole line served, with these buffers lent, for its bytes and for the reply of its call.
#[tactic(auto, using(lines::proofs::ReadBytes::read_bytes), unfolding(crate::specs::Whole::digits_served))]
fn serve_line(
    table: &mut [Row],
    line: &Line,
    held: usize,
    bytes: &mut Bytes,
    reply: &mut [u8],
) -> Head
    ensures serving { digits_served (take held line.now) table.old reply.old
        ≡ record { table = table.new; reply = reply.new; head = result } }
    ensures reading { bytes.new ≡ (digits_read (take held line.now) bytes.old).bytes }
{
    match read(line, held, bytes) {
        Some(n) => serve(table, &bytes[..n], reply),
        None => refused(LINE, 0),
    }
}

// The longest answer has room from a place of the output on.
fn has_room(room: usize, at: usize) -> bool
    ensures { result ≡ leb (at + longest) room }
{
    LONGEST <= room && at <= room - LONGEST
}

// The answer to the line that the first `held` bytes are, printed from a place of the output on, and the place after it. Where the longest answer has no room,
// nothing is served and nothing printed. The buffers for its bytes and its reply are lent, and not cleared: no answer tells of what they held.
// Stays: a buffer for the bytes and one for the reply, since `answering` promises each of them by its own name.
#[tactic(auto, unfolding(crate::specs::Whole::answering))]
pub fn answer(
    table: &mut [Row],
    line: &Line,
    held: usize,
    bytes: &mut Bytes,
    reply: &mut ReplyBuffer,
    out: &mut [u8],
    at: usize,
) -> usize
    ensures answering { answering (take held line.now) table.old
        (record { bytes = bytes.old; reply = reply.old }) out.old at
        ≡ record { table = table.new; next = result; output = out.new; buffers = record { bytes = bytes.new; reply = reply.new } } }
    ensures within { result ≤ at + longest }
{
    if has_room(out.len(), at) {
        let head = serve_line(table, line, held, bytes, reply);
        say(head, reply, out, at)
    } else {
        at
    }
}

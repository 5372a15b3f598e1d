// The answers: "00 for Done, then n and u (2 bytes each) for a datagram, then the reply or, for send, the number (2). A refusal prints its number and its place
// (2 bytes)."
ghost use Rattle.std.specs.Prelude.{◌≡◌, [], ◌∷◌, ◌+◌, ◌-◌, ◌≤◌, Ok, length};
ghost use Rattle.sender.specs.Said.{add_said, datagram_said, send_said};
ghost use Rattle.sides.specs.Said.{change_said, packet_said};
ghost use Rattle.cases.specs.Case.{number_of};
ghost use Rattle.lines.specs.Hex.{printing};
ghost use Rattle.frames.specs.Output.{answer_of, case_head, datagram_head, headed, number_head, quiet_head, reply_head, two_bytes};

use cases::Case;
use counters::Seq;
use lines::hex::print;
use sender::{AddRefusal, Counts, DatagramRefusal, SendRefusal};
use sides::numbers::DONE;
use sides::{ChangeRefusal, PacketRefusal};

// The most first bytes that an answer has: 00, n and u.
pub const FIRST: usize = 5;

// Case 17, "line program only".
pub const LINE: u8 = 17;

// The first bytes of an answer, `count` of them, and how many bytes of the reply follow them.
// Stays: an answer has 1, 3 or 5 first bytes, and a list of any length would need the heap: fixed memory is a rule of the project.
#[derive(Clone, Copy)]
pub struct Head {
    pub bytes: [u8; FIRST],
    pub count: usize,
    pub reply: usize,
}

// The low 16 bits.
fn two_bytes(x: usize) -> [u8; 2]
    ensures { result ≡ two_bytes x }
{
    ((x % 65536) as u16).to_be_bytes()
}

// 00, and so many bytes of the reply.
fn done(reply: usize) -> Head
    ensures { result ≡ headed (0 ∷ []) reply }
{
    Head {
        bytes: [DONE, 0, 0, 0, 0],
        count: 1,
        reply,
    }
}

// A case and a number of 2 bytes: a refusal and its place, or Done and the number that send gives.
fn case(number: u8, x: usize) -> Head
    ensures { result ≡ case_head number x }
{
    let [high, low] = two_bytes(x);
    Head {
        bytes: [number, high, low, 0, 0],
        count: 3,
        reply: 0,
    }
}

// 00, n and u, and the reply.
fn counted(counts: Counts) -> Head
    ensures { result ≡ datagram_head (datagram_said (Ok counts)) }
{
    let n = two_bytes(counts.entries);
    let u = two_bytes(counts.unknown);
    Head {
        bytes: [DONE, n[0], n[1], u[0], u[1]],
        count: 5,
        reply: counts.length,
    }
}

// "A refusal prints its number and its place (2 bytes)."
pub fn refused(number: u8, place: usize) -> Head
    ensures { result ≡ case_head number place }
{
    case(number, place)
}

// A refusal that is of no place in a datagram.
fn placeless<E: Case>(refusal: E) -> Head
    ensures { result ≡ case_head (E.numbered refusal) 0 }
{
    refused(refusal.number(), 0)
}

pub fn datagram_said(said: Result<Counts, DatagramRefusal>) -> Head
    ensures { result ≡ datagram_head (datagram_said said) }
{
    match said {
        Ok(counts) => counted(counts),
        Err(DatagramRefusal::Refused(refusal)) => refused(refusal.number(), refusal.place),
        Err(refusal) => placeless(refusal),
    }
}

pub fn reply_said(said: Result<usize, PacketRefusal>) -> Head
    ensures { result ≡ reply_head (packet_said said) }
{
    said.map_or_else(placeless, done)
}

// 00 and no more, or a refusal.
fn quiet<E: Case>(said: Result<(), E>) -> Head
    ensures { result ≡ quiet_head (number_of E.numbered said, 0 ∷ []) }
{
    said.map_or_else(placeless, |()| done(0))
}

pub fn change_said(said: Result<(), ChangeRefusal>) -> Head
    ensures { result ≡ quiet_head (change_said said) }
{
    quiet(said)
}

pub fn send_said(said: Result<Seq, SendRefusal>) -> Head
    ensures { result ≡ number_head (send_said said) }
{
    said.map_or_else(placeless, |next| case(DONE, usize::from(next.0)))
}

pub fn add_said(said: Result<(), AddRefusal>) -> Head
    ensures { result ≡ quiet_head (add_said said) }
{
    quiet(said)
}

// An answer and its reply, which stands at the start of the reply buffer, printed from a place of the output on, and the place after them. Where they have no
// room, nothing is printed.
pub fn say(head: Head, buffer: &[u8], out: &mut [u8], at: usize) -> usize
    ensures saying { printing (answer_of head buffer.now) out.old at ≡ record { next = result; output = out.new } }
    ensures within { result ≤ at + (length out.old - at) }
{
    let count = head.count.min(head.bytes.len());
    let reply = head.reply.min(buffer.len());
    print(&head.bytes[..count], &buffer[..reply], out, at)
}

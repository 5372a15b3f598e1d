// Answers, printed from the output's start: "`00` for Done with its values, or a refusal's number (1 byte) and its place (2 bytes)".
ghost use Rattle.std.specs.Prelude.{◌≤◌};
ghost use Rattle.standard.specs.declared.TheConstants.{LENT};

use frames::answer::{Head, LINE, refused, say};
use lines::hex::print;
use standard::LENT;

// The output, and how many bytes of it are the answer.
#[derive(Drop)]
pub(crate) struct Output {
    bytes: [u8; LENT],
    written: usize,
    ghost within: { written ≤ LENT },
}

impl Output {
    pub(crate) fn new() -> Output {
        Output {
            bytes: [0; LENT],
            written: 0,
        }
    }

    // First bytes, and more after them.
    pub(crate) fn say_both(&mut self, first: &[u8], more: &[u8]) {
        self.written = print(first, more, &mut self.bytes, 0);
    }

    pub(crate) fn say_bytes(&mut self, bytes: &[u8]) {
        self.say_both(bytes, b"");
    }

    pub(crate) fn say_done(&mut self) {
        self.say_bytes(b"\x00");
    }

    // The answer of a call, whose reply stands at the start of the reply buffer.
    pub(crate) fn say_head(&mut self, head: Head, reply: &[u8]) {
        self.written = say(head, reply, &mut self.bytes, 0);
    }

    pub(crate) fn say_line(&mut self) {
        self.say_head(refused(LINE, 0), b"");
    }

    pub(crate) fn answer(&self) -> &[u8] {
        &self.bytes[..self.written]
    }
}

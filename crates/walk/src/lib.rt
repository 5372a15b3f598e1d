// A walk over a datagram's entries, one at a time.
#![tactic(auto)]

ghost use Rattle.std.specs.Prelude.{◌≡◌};
ghost use Rattle.rtcp.specs.Datagram.{reading};
ghost use Rattle.rtcp.specs.Cursor.{numbered};
ghost use Rattle.walk.specs.Walk.{opened, gives, moved, following};

use rtcp::cursor::entry_at;
use rtcp::datagram::check;
use rtcp::{Entry, Refusal};

// The datagram, the number of the step to take, and what the opening answered. No walk is made but by `open`, and none of
// its successors has another datagram or another answer.
// Stays: "A walk whose opening was refused gives only End." (theorem `only_end`) speaks of a walk that holds its refusal, so `open` answers no `Result`.
#[derive(Clone, Copy)]
pub struct Walk<'a> {
    datagram: &'a [u8],
    number: usize,
    answer: Result<usize, Refusal>,
}

impl<'a> Walk<'a> {
    // "Opening a walk checks the whole datagram."
    pub fn open(datagram: &'a [u8]) -> Walk<'a>
        ensures { result ≡ opened datagram.entry }
    {
        Walk {
            datagram,
            number: 0,
            answer: check(datagram),
        }
    }

    // What the opening answered: the refusal with its place, or how many entries there are.
    pub fn answer(self) -> Result<usize, Refusal>
        ensures { result ≡ self.entry.answer }
    {
        self.answer
    }

    // The datagram is judged anew, so what a step gives rests on the slice and the number alone.
    pub fn step(self) -> Option<Entry>
        ensures { result ≡ gives self.entry }
    {
        entry_at(self.datagram, self.number)
    }

    // The walk before its step with number k.
    pub fn at(self, k: usize) -> Walk<'a>
        ensures { result ≡ moved self.entry k }
    {
        Walk { number: k, ..self }
    }

    // The walk before its next step. No datagram has an entry with the largest number, so a walk that stays there gives End for ever.
    #[tactic(auto, unfolding(rtcp::specs::Pick::pick))]
    pub fn next(self) -> Walk<'a>
        ensures { result ≡ moved self.entry (following self.entry.number) }
    {
        Walk {
            number: self.number.saturating_add(1),
            ..self
        }
    }
}

// Entry k from a plain slice: a datagram is opened, and its step with number k taken. Whoever calls this holds no walk.
pub fn entry(datagram: &[u8], k: usize) -> Option<Entry>
    ensures { result ≡ numbered (reading datagram.now) k }
{
    Walk::open(datagram).at(k).step()
}

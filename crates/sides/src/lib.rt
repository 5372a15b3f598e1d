// The calls of a table, whatever its side. What they are is in specs/; what no side has for itself is the judgement of a table's size, what remove
// decides, two answers' refusals and the numbers of the cases, and how a record is found, read and stored in any table that a host keeps.
#![tactic(auto)]

pub mod keeps;
pub mod numbers;
pub mod places;

ghost use Rattle.std.specs.Prelude.{◌≡◌};
ghost use Rattle.sides.specs.Calls.{wrong_size};

// "A table of 1 to 64 streams."
pub const MOST_RECORDS: usize = 64;

// What refuses a call that may write one packet; its Done carries the packet's length, 20 or 0.
#[derive(Clone, Copy, PartialEq, Eq, Debug)]
pub enum PacketRefusal {
    Room,
    Size,
    NoStream,
}

// What refuses a call that writes nothing, where Done carries nothing more.
#[derive(Clone, Copy, PartialEq, Eq, Debug)]
pub enum ChangeRefusal {
    Size,
    NoStream,
}

// Case 11, Size.
pub fn wrong_size(size: usize) -> bool
    ensures { result ≡ wrong_size size }
{
    !(1..=MOST_RECORDS).contains(&size)
}

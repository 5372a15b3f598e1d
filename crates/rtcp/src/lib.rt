// The RTCP datagram of RTP pause and resume: its packets and their entries, read.
#![tactic(auto)]

pub mod cursor;
pub mod datagram;
pub mod layout;
mod number;

ghost use Rattle.std.specs.Prelude.{◌≡◌};
ghost use Rattle.rtcp.specs.Said.{number, fault_never_done, refusal_number, refusal_never_done};

use cases::Case;

// Why a datagram is refused, in the order in which one packet is judged.
#[derive(Clone, Copy, PartialEq, Eq, Debug)]
pub enum Fault {
    TooLong,
    Short,
    Version,
    Overrun,
    PadPlace,
    PadCount,
    NoHead,
    NoEntry,
    Entry,
}

impl Case for Fault {
    ghost numbered = { number };

    fn number(self) -> u8 {
        match self {
            Fault::TooLong => 1,
            Fault::Short => 2,
            Fault::Version => 3,
            Fault::Overrun => 4,
            Fault::PadPlace => 5,
            Fault::PadCount => 6,
            Fault::NoHead => 7,
            Fault::NoEntry => 8,
            Fault::Entry => 9,
        }
    }

    ghost never_done = { fault_never_done };
}

#[derive(Clone, Copy, PartialEq, Eq, Debug)]
pub struct Refusal {
    pub fault: Fault,
    pub place: usize,
}

impl Case for Refusal {
    ghost numbered = { refusal_number };

    fn number(self) -> u8 {
        self.fault.number()
    }

    ghost never_done = { refusal_never_done };
}

// One entry, with the sender of its packet. Reserved bits and parameters are no part of it.
#[derive(Clone, Copy, PartialEq, Eq, Debug)]
pub struct Entry {
    pub place: usize,
    pub sender: u32,
    pub target: u32,
    pub id: u16,
    // Stays: a number, since types 4 to 15 are handed out as they stand; what a type says is `Message` of `counters`.
    pub kind: u8,
    pub words: u8,
}

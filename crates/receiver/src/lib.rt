// The receiver's side of the table (document 02, "One. We pause other people's streams too"): what refuses each of its calls, beside what refuses calls of
// every side (the crate `sides`). What the calls do is in specs/; by-value code is the crate `remote_decide`, and the table in rows of numbers has its crates
// above it.
#![tactic(auto)]

mod numbers;

// What refuses a datagram. The datagram call writes nothing, so it has no Room.
#[derive(Clone, Copy, PartialEq, Eq, Debug)]
pub enum DatagramRefusal {
    Refused(rtcp::Refusal),
    Size,
}

// n (entries of every type) and u (entries whose target no used record has).
#[derive(Clone, Copy, PartialEq, Eq, Debug)]
pub struct Counts {
    pub entries: usize,
    pub unknown: usize,
}

// What refuses an ask, which else answers the length of what it wrote, 20 or 0.
#[derive(Clone, Copy, PartialEq, Eq, Debug)]
pub enum AskRefusal {
    Room,
    Size,
    NoStream,
    Busy,
}

// What refuses add.
#[derive(Clone, Copy, PartialEq, Eq, Debug)]
pub enum AddRefusal {
    Size,
    Duplicate,
    Full,
}

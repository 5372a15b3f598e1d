// What both sides count and name (document 01, "One stream" and "The RTCP datagram"): PauseIDs and RTP sequence numbers, the judgement of a received PauseID,
// what an entry's type says, and the clock.
#![tactic(auto)]

pub mod clock;
mod count;

// A PauseID. It is counted apart from the RTP sequence number, so each has a type of its own.
#[derive(Clone, Copy, PartialEq, Eq, Debug)]
pub struct PauseId(pub u16);

// An RTP sequence number.
#[derive(Clone, Copy, PartialEq, Eq, Debug)]
pub struct Seq(pub u16);

// A received PauseID, judged by its signed distance from the current one.
#[derive(Clone, Copy, PartialEq, Eq, Debug)]
pub enum Judgement {
    Past,
    Current,
    Future,
}

// What a received entry says, by its type: 0 to 3, and 4 to 15, which are passed over.
#[derive(Clone, Copy, PartialEq, Eq, Debug)]
pub enum Message {
    Pause,
    Resume,
    Paused,
    Refused,
    Reserved,
}

// The two types of entry that a stream replies with, each with the number of its type.
#[derive(Clone, Copy, PartialEq, Eq, Debug)]
pub enum Notice {
    Paused = 2,
    Refused = 3,
}

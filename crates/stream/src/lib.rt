// One stream of the sender's side: its record, and what each event does to it (document 01, "One stream").
// Each event takes the record by value and hands back the record that follows.
#![tactic(auto)]

mod entering;
mod events;
mod numbers;
pub mod passing;
mod start;

use counters::{Notice, PauseId, Seq};

// Only Pausing holds a deadline.
#[derive(Clone, Copy, PartialEq, Eq, Debug)]
pub enum State {
    Playing,
    Pausing(u32),
    Paused,
    LocalPaused,
}

// The record of one stream. The fields stand in order of their size, so that a table of records has no gaps.
#[derive(Clone, Copy, PartialEq, Eq, Debug)]
pub struct Stream {
    pub state: State,
    pub ssrc: u32,
    // H, in milliseconds: 0 pauses at once.
    pub holdoff: u32,
    // c, the current PauseID.
    pub current: PauseId,
    // The next RTP sequence number.
    pub next: Seq,
    // In use or not.
    // Stays: a flag and no Option around the record, since remove clears it alone and keeps the other numbers (`unused` of `sender`, the rows' eight numbers).
    pub used: bool,
    // r, how many reports still repeat PAUSED.
    pub repeats: u8,
}

// An entry of a reply.
#[derive(Clone, Copy, PartialEq, Eq, Debug)]
pub struct ReplyEntry {
    pub target: u32,
    pub notice: Notice,
    pub id: PauseId,
}

// The record that follows an event, with at most one reply entry.
#[derive(Clone, Copy, PartialEq, Eq, Debug)]
pub struct Outcome {
    pub stream: Stream,
    pub reply: Option<ReplyEntry>,
}

// No leave to send: the stream is held.
#[derive(Clone, Copy, PartialEq, Eq, Debug)]
pub struct Held;

// What send gives: the record that follows, and the number of the packet.
#[derive(Clone, Copy, PartialEq, Eq, Debug)]
pub struct Sent {
    pub stream: Stream,
    pub number: Result<Seq, Held>,
}

// The refusal of a round-trip time or of a dither.
#[derive(Clone, Copy, PartialEq, Eq, Debug)]
pub struct Limit;

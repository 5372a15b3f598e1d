// One stream of the receiver's side: a remote stream that we may ask to pause (document 02, "One. We pause other people's streams too").
// Each event takes the record by value and hands back the record that follows.
#![tactic(auto)]

pub mod asking;
mod events;
pub mod passing;

use counters::PauseId;

// The two Asked states hold the repeats left: how many reports still repeat the ask.
#[derive(Clone, Copy, PartialEq, Eq, Debug)]
pub enum State {
    Receiving,
    AskedToPause(u8),
    Paused,
    AskedToResume(u8),
}

// The record of one remote stream.
#[derive(Clone, Copy, PartialEq, Eq, Debug)]
pub struct Remote {
    pub ssrc: u32,
    // The believed PauseID.
    pub id: PauseId,
    pub state: State,
    // In use or not.
    pub used: bool,
}

// The two messages that ask.
#[derive(Clone, Copy, PartialEq, Eq, Debug)]
pub enum Ask {
    Pause,
    Resume,
}

// An entry that asks.
#[derive(Clone, Copy, PartialEq, Eq, Debug)]
pub struct AskEntry {
    pub target: u32,
    pub ask: Ask,
    pub id: PauseId,
}

// The record that follows an event, with its message: one or none.
#[derive(Clone, Copy, PartialEq, Eq, Debug)]
pub struct Outcome {
    pub remote: Remote,
    pub sent: Option<AskEntry>,
}

// No leave to ask while Asked. It has no record: what is refused changes nothing.
#[derive(Clone, Copy, PartialEq, Eq, Debug)]
pub struct Busy;

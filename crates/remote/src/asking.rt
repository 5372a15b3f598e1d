// What the events are made of: a record moved, a message sent, a new record.
ghost use Rattle.std.specs.Prelude.{◌≡◌};
ghost use Rattle.remote.specs.Record.{asking, moved, silent, start_of, to, type_of};
ghost use Rattle.remote.specs.Said.{busy_never_done, busy_number};

use crate::{Ask, AskEntry, Busy, Outcome, Remote, State};
use cases::Case;
use counters::PauseId;

// "18 Busy, for asking while Asked".
pub const BUSY: u8 = 18;

impl Case for Busy {
    ghost numbered = { busy_number };

    fn number(self) -> u8 {
        BUSY
    }

    ghost never_done = { busy_never_done };
}

// The type that an ask is written with.
impl From<Ask> for u8 {
    ghost from_gives = { λ ask n. n ≡ type_of ask };

    fn from(ask: Ask) -> u8 {
        match ask {
            Ask::Pause => 0,
            Ask::Resume => 1,
        }
    }
}

impl Remote {
    // "A stream is added in Receiving with an ID."
    pub fn start(ssrc: u32, id: PauseId) -> Remote
        ensures { result ≡ start_of ssrc id }
    {
        Remote {
            ssrc,
            id,
            state: State::Receiving,
            used: true,
        }
    }

    pub(crate) fn moved(self, state: State, id: PauseId) -> Remote
        ensures { result ≡ moved self state id }
    {
        Remote { id, state, ..self }
    }

    pub(crate) fn to(self, state: State) -> Remote
        ensures { result ≡ to state self }
    {
        Remote { state, ..self }
    }

    pub(crate) fn silent(self) -> Outcome
        ensures { result ≡ silent self }
    {
        Outcome {
            remote: self,
            sent: None,
        }
    }

    pub(crate) fn asking(self, ask: Ask) -> Outcome
        ensures { result ≡ asking ask self }
    {
        let entry = AskEntry {
            target: self.ssrc,
            ask,
            id: self.id,
        };
        Outcome {
            remote: self,
            sent: Some(entry),
        }
    }
}

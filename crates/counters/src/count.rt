// The two counters of a stream, which advance modulo 65,536, the judgement of a received PauseID, and the types of an entry.
ghost use Rattle.std.specs.Prelude.{◌≡◌};
ghost use Rattle.counters.specs.Counters.{id_after, is_past, judged, message_of, seq_after, type_of};

use crate::{Judgement, Message, Notice, PauseId, Seq};

// Half a turn of the 16-bit count.
const HALF_TURN: u16 = 32768;

impl PauseId {
    pub fn advance(self) -> PauseId
        ensures { result ≡ id_after self }
    {
        PauseId(self.0.wrapping_add(1))
    }

    // A received PauseID, seen from the current one. A plain `<` would be wrong at the wrap.
    #[tactic(auto, using(crate::proofs::Judged::judged_current, crate::proofs::Judged::judged_future, crate::proofs::Judged::judged_past), unfolding(crate::specs::Width::less))]
    pub fn judge(self, current: PauseId) -> Judgement
        ensures { result ≡ judged self current }
    {
        match self.0.wrapping_sub(current.0) {
            0 => Judgement::Current,
            1..HALF_TURN => Judgement::Future,
            _ => Judgement::Past,
        }
    }

    // The one test that most received PauseIDs of a busy stream end with.
    #[tactic(auto, using(crate::proofs::Judged::past_test), unfolding(crate::specs::Width::less))]
    pub fn is_past(self, current: PauseId) -> bool
        ensures { result ≡ is_past (judged self current) }
    {
        HALF_TURN <= self.0.wrapping_sub(current.0)
    }
}

// Stays: one line, the same as a PauseID's; a counter over what it counts would need a type parameter and a field for it, and is no plainer.
impl Seq {
    pub fn advance(self) -> Seq
        ensures { result ≡ seq_after self }
    {
        Seq(self.0.wrapping_add(1))
    }
}

// The message of an entry's type, any byte: 0 PAUSE, 1 RESUME, 2 PAUSED, 3 REFUSED; any other is passed over.
impl From<u8> for Message {
    ghost from_gives = { λ kind message. message ≡ message_of kind };

    fn from(kind: u8) -> Message {
        match kind {
            0 => Message::Pause,
            1 => Message::Resume,
            2 => Message::Paused,
            3 => Message::Refused,
            _ => Message::Reserved,
        }
    }
}

// The type that a reply entry is written with.
impl From<Notice> for u8 {
    ghost from_gives = { λ notice kind. kind ≡ type_of notice };

    fn from(notice: Notice) -> u8 {
        notice as u8
    }
}

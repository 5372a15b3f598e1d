// The number of each refusal: document 01, "What can come back", and document 02's 18 Busy. "The answer says which case it is; the number is only for printing."
ghost use Rattle.std.specs.Prelude.{◌≡◌};
ghost use Rattle.receiver.specs.Said.{
  add_never_done,
  add_number,
  ask_never_done,
  ask_number,
  busy_ask,
  datagram_never_done,
  datagram_number,
  refused_datagram,
};

use crate::{AddRefusal, AskRefusal, DatagramRefusal};
use cases::Case;
use remote::Busy;
use sides::numbers::{DUPLICATE, FULL, NO_STREAM, ROOM, SIZE};

impl From<rtcp::Refusal> for DatagramRefusal {
    ghost from_gives = { λ refusal r. r ≡ refused_datagram refusal };

    fn from(refusal: rtcp::Refusal) -> Self {
        Self::Refused(refusal)
    }
}

impl Case for DatagramRefusal {
    ghost numbered = { datagram_number };

    fn number(self) -> u8 {
        match self {
            DatagramRefusal::Refused(refusal) => refusal.number(),
            DatagramRefusal::Size => SIZE,
        }
    }

    ghost never_done = { datagram_never_done };
}

impl From<Busy> for AskRefusal {
    ghost from_gives = { λ busy r. r ≡ busy_ask busy };

    fn from(_: Busy) -> Self {
        Self::Busy
    }
}

impl Case for AskRefusal {
    ghost numbered = { ask_number };

    fn number(self) -> u8 {
        match self {
            AskRefusal::Room => ROOM,
            AskRefusal::Size => SIZE,
            AskRefusal::NoStream => NO_STREAM,
            AskRefusal::Busy => Busy.number(),
        }
    }

    ghost never_done = { ask_never_done };
}

impl Case for AddRefusal {
    ghost numbered = { add_number };

    fn number(self) -> u8 {
        match self {
            AddRefusal::Size => SIZE,
            AddRefusal::Duplicate => DUPLICATE,
            AddRefusal::Full => FULL,
        }
    }

    ghost never_done = { add_never_done };
}

// The number of each refusal, in the order of document 01, "What can come back". "The answer says which case it is; the number is only for printing."
ghost use Rattle.sender.specs.Said.{add_never_done, add_number, datagram_never_done, datagram_number, send_never_done, send_number};

use crate::{AddRefusal, DatagramRefusal, SendRefusal};
use cases::Case;
use sides::numbers::{DUPLICATE, FULL, NO_STREAM, ROOM, SIZE};
use stream::{Held, Limit};

impl Case for DatagramRefusal {
    ghost numbered = { datagram_number };

    fn number(self) -> u8 {
        match self {
            DatagramRefusal::Refused(refusal) => refusal.number(),
            DatagramRefusal::Room => ROOM,
            DatagramRefusal::Size => SIZE,
        }
    }

    ghost never_done = { datagram_never_done };
}

impl Case for SendRefusal {
    ghost numbered = { send_number };

    fn number(self) -> u8 {
        match self {
            SendRefusal::Size => SIZE,
            SendRefusal::NoStream => NO_STREAM,
            SendRefusal::Held => Held.number(),
        }
    }

    ghost never_done = { send_never_done };
}

impl Case for AddRefusal {
    ghost numbered = { add_number };

    fn number(self) -> u8 {
        match self {
            AddRefusal::Size => SIZE,
            AddRefusal::Limit => Limit.number(),
            AddRefusal::Duplicate => DUPLICATE,
            AddRefusal::Full => FULL,
        }
    }

    ghost never_done = { add_never_done };
}

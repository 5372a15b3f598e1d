// The number of each case, in the order of document 01, "What can come back". "The answer says which case it is; the number is only for printing."
ghost use Rattle.sides.specs.Said.{change_number, change_never_done, packet_number, packet_never_done};

use crate::{ChangeRefusal, PacketRefusal};
use cases::Case;

pub const DONE: u8 = 0;

pub const ROOM: u8 = 10;

pub const SIZE: u8 = 11;

pub const NO_STREAM: u8 = 12;

pub const DUPLICATE: u8 = 15;

pub const FULL: u8 = 16;

impl Case for PacketRefusal {
    ghost numbered = { packet_number };

    ghost never_done = { packet_never_done };

    fn number(self) -> u8 {
        match self {
            PacketRefusal::Room => ROOM,
            PacketRefusal::Size => SIZE,
            PacketRefusal::NoStream => NO_STREAM,
        }
    }
}

impl Case for ChangeRefusal {
    ghost numbered = { change_number };

    ghost never_done = { change_never_done };

    fn number(self) -> u8 {
        match self {
            ChangeRefusal::Size => SIZE,
            ChangeRefusal::NoStream => NO_STREAM,
        }
    }
}

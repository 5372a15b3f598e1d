// What a call is lent, and the reply buffer as it stands. None is Line, here and in every frame.
use crate::say::Output;
use crate::{Console, RECORDS, REPLY};
use lines::number::two;

impl Console {
    // "e0 room: R (2), at most 4,000": "from now on a call is lent the first R bytes of the reply buffer".
    pub(crate) fn set_room(&mut self, bytes: &[u8]) -> Option<()> {
        let room = usize::from(two(bytes, 1));
        if bytes.len() != 3 || room > REPLY {
            return None;
        }
        self.lent.room = room;
        Some(())
    }

    // "e1 size: S (1), at most 65": "from now on a call is lent the first S records of its table".
    pub(crate) fn set_size(&mut self, bytes: &[u8]) -> Option<()> {
        let [_, byte] = *bytes else {
            return None;
        };
        let size = usize::from(byte);
        if size > RECORDS {
            return None;
        }
        self.lent.size = size;
        Some(())
    }

    // "e2 fill: a byte (1)": "all 4,000 bytes of the reply buffer become that byte".
    pub(crate) fn fill(&mut self, bytes: &[u8]) -> Option<()> {
        let [_, byte] = *bytes else {
            return None;
        };
        self.reply.fill(byte);
        Some(())
    }

    // "e3 bytes": "the R bytes that are lent, as they stand".
    pub(crate) fn show_bytes(&self, bytes: &[u8], out: &mut Output) -> Option<()> {
        if bytes.len() != 1 {
            return None;
        }
        out.say_both(b"\x00", &self.reply[..self.lent.room]);
        Some(())
    }
}

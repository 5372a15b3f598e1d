// The numbers of the two refusals, in the order of document 01, "What can come back".
ghost use Rattle.stream.specs.Said.{held_never_done, held_number, limit_never_done, limit_number};

use crate::{Held, Limit};
use cases::Case;

impl Case for Held {
    ghost numbered = { held_number };

    fn number(self) -> u8 {
        13
    }

    ghost never_done = { held_never_done };
}

impl Case for Limit {
    ghost numbered = { limit_number };

    fn number(self) -> u8 {
        14
    }

    ghost never_done = { limit_never_done };
}

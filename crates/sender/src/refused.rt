// What a datagram, a send or a new stream is refused for in the crates below, as what the call is refused for.
ghost use Rattle.std.specs.Prelude.{◌≡◌};
ghost use Rattle.sender.specs.Said.{add_limit, datagram_refused, send_held};

use crate::{AddRefusal, DatagramRefusal, SendRefusal};
use rtcp::Refusal;
use stream::{Held, Limit};

impl From<Refusal> for DatagramRefusal {
    ghost from_gives = { λ refusal answer. answer ≡ datagram_refused refusal };

    fn from(refusal: Refusal) -> DatagramRefusal {
        DatagramRefusal::Refused(refusal)
    }
}

impl From<Held> for SendRefusal {
    ghost from_gives = { λ held answer. answer ≡ send_held held };

    fn from(_held: Held) -> SendRefusal {
        SendRefusal::Held
    }
}

impl From<Limit> for AddRefusal {
    ghost from_gives = { λ limit answer. answer ≡ add_limit limit };

    fn from(_limit: Limit) -> AddRefusal {
        AddRefusal::Limit
    }
}

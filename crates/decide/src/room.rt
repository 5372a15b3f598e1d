// Case 10 of a datagram: a buffer without room.
ghost use Rattle.std.specs.Prelude.{◌≡◌};
ghost use Rattle.sender.specs.Calls.{no_room};

use rtcp::layout::PACKET;

// A datagram of n entries and a buffer of so many bytes: "n > 0 and the buffer is under 20n". The quotient does not run over, as the product can.
pub fn no_room(n: usize, room: usize) -> bool
    ensures { result ≡ no_room n room }
{
    room / PACKET < n
}

// A message written: one packet from the house SSRC at the buffer's start.
ghost use Rattle.std.specs.Prelude.{◌≡◌};
ghost use Rattle.remote.specs.Said.{length_of};
ghost use Rattle.remote_decide.specs.code.Decide.{message_placed};

use remote::AskEntry;
use rtcp::layout::PACKET;
use writer::put_packet;

// How many bytes a message takes.
// Stays: this and `put_message` have their like in `decide`, for another entry, sender and place: what both share is `writer::put_packet`.
pub fn length(sent: Option<AskEntry>) -> usize
    ensures { result ≡ length_of sent }
{
    if sent.is_some() { PACKET } else { 0 }
}

// With no message, no byte.
pub fn put_message(buffer: &mut [u8], house: u32, sent: Option<AskEntry>)
    ensures { buffer.new ≡ message_placed buffer.old house sent }
{
    if let Some(AskEntry { target, ask, id }) = sent {
        put_packet(buffer, 0, house, target, u8::from(ask), id.0);
    }
}

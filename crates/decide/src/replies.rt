// Replies written: "Each reply becomes its own 20-byte packet with the stream's SSRC as sender and as target" (document 02, "Two").
ghost use Rattle.std.specs.Prelude.{◌≡◌};
ghost use Rattle.sender.specs.Serve.{length_of};
ghost use Rattle.decide.specs.code.Turning.{packet_placed};

use rtcp::layout::PACKET;
use stream::ReplyEntry;
use writer::put_packet;

// How many bytes a reply takes.
pub(crate) fn length(reply: Option<ReplyEntry>) -> usize
    ensures { result ≡ length_of reply }
{
    if reply.is_some() { PACKET } else { 0 }
}

// The packet of a reply, from a place of the buffer on: at its start, or after the packets before it. With no reply, no byte.
pub fn put_reply(buffer: &mut [u8], at: usize, reply: Option<ReplyEntry>)
    ensures { buffer.new ≡ packet_placed buffer.old at reply }
{
    if let Some(ReplyEntry { target, notice, id }) = reply {
        put_packet(buffer, at, target, target, u8::from(notice), id.0);
    }
}

// A frame served on the table.
ghost use Rattle.std.specs.Prelude.{◌≡◌, ◌≤◌, length};
ghost use Rattle.frames.specs.Serve.{bytes_served};

use crate::answer::{
    Head, LINE, add_said, change_said, datagram_said, refused, reply_said, send_said,
};
use crate::frame::{Frame, frame_of};
use rows::Row;
use table::calls;

// Where the datagram stands in its frame.
pub const DATAGRAM: usize = 5;

// The frame that the bytes are, served with this reply buffer lent to its call.
#[tactic(auto, using(crate::proofs::Frames::datagram_long), unfolding(crate::specs::Serve::bytes_served))]
pub fn serve(table: &mut [Row], bytes: &[u8], reply: &mut [u8]) -> Head
    ensures serving { bytes_served bytes.now table.old reply.old
        ≡ record { table = table.new; reply = reply.new; head = result } }
    ensures within { (result.count ≤ length result.bytes) × (result.reply ≤ length reply.new) }
{
    // In one match: a frame that was taken out of its `Some` first would be copied for every line.
    match frame_of(bytes) {
        Some(Frame::Datagram(time)) => {
            datagram_said(calls::datagram(table, &bytes[DATAGRAM..], time, reply))
        }
        Some(Frame::Add(a)) => add_said(calls::add(
            table, a.ssrc, a.id, a.next, a.rtt, a.dither, a.nowait,
        )),
        Some(Frame::LocalPause(ssrc)) => reply_said(calls::local_pause(table, ssrc, reply)),
        Some(Frame::LocalResume(ssrc)) => change_said(calls::local_resume(table, ssrc)),
        Some(Frame::Time(ssrc, time)) => reply_said(calls::time(table, ssrc, time, reply)),
        Some(Frame::Report(ssrc)) => reply_said(calls::report(table, ssrc, reply)),
        Some(Frame::Send(ssrc)) => send_said(calls::send(table, ssrc)),
        None => refused(LINE, 0),
    }
}

// A line served over the records: by `owned`, and so by the calls of `lent`.
use frames::answer::{Head, add_said, change_said, datagram_said, reply_said, send_said};
use frames::frame::{Adding, Frame, frame_of};
use frames::serve::DATAGRAM;
use lines::hex::read;
use lines::{Line, MOST_READ};
use owned::{Records, Served};
use rtcp::layout::MOST_ENTRIES;
use sender::Counts;

// How many entries a walk gives before its End.
fn walked(datagram: &[u8]) -> usize {
    (0..MOST_ENTRIES)
        .map_while(|k| walk::entry(datagram, k))
        .count()
}

// The records that a call hands back are the table's from then on, and its answer gives the first bytes.
fn told<A: Copy, F: FnOnce(A) -> Head>(table: &mut Records, served: Served<A>, head: F) -> Head
    requires { F.IsAlwaysCallable head }
{
    *table = served.table;
    head(served.answer)
}

// A datagram's bytes are those of the frame from the sixth on. Its answer has n as the walk counts it.
fn serve_datagram(table: &mut Records, datagram: &[u8], time: u32, reply: &mut [u8]) -> Head {
    let entries = walked(datagram);
    let served = owned::datagram(*table, datagram, time, reply);
    told(table, served, |said| {
        datagram_said(said.map(|counts| Counts { entries, ..counts }))
    })
}

fn serve_add(table: &mut Records, a: Adding) -> Head {
    let served = owned::add(*table, a.ssrc, a.id, a.next, a.rtt, a.dither, a.nowait);
    told(table, served, add_said)
}

#[tactic(auto, using(frames::proofs::Frames::datagram_long))]
fn serve(table: &mut Records, bytes: &[u8], reply: &mut [u8]) -> Option<Head> {
    let head = match frame_of(bytes)? {
        Frame::Datagram(time) => serve_datagram(table, &bytes[DATAGRAM..], time, reply),
        Frame::Add(adding) => serve_add(table, adding),
        Frame::LocalPause(ssrc) => {
            let served = owned::local_pause(*table, ssrc, reply);
            told(table, served, reply_said)
        }
        Frame::LocalResume(ssrc) => {
            let served = owned::local_resume(*table, ssrc);
            told(table, served, change_said)
        }
        Frame::Time(ssrc, time) => {
            let served = owned::time(*table, ssrc, time, reply);
            told(table, served, reply_said)
        }
        Frame::Report(ssrc) => {
            let served = owned::report(*table, ssrc, reply);
            told(table, served, reply_said)
        }
        Frame::Send(ssrc) => {
            let served = owned::send(*table, ssrc);
            told(table, served, send_said)
        }
    };
    Some(head)
}

// The whole line that the first `held` bytes are, with this reply buffer lent to its call. What is Line, None, changes no record.
pub(crate) fn serve_line(
    table: &mut Records,
    line: &Line,
    held: usize,
    reply: &mut [u8],
) -> Option<Head> {
    let mut bytes = [0u8; MOST_READ];
    let n = read(line, held, &mut bytes)?;
    serve(table, &bytes[..n], reply)
}

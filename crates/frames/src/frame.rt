// What a line asks for.
ghost use Rattle.std.specs.Prelude.{◌≡◌};
ghost use Rattle.frames.specs.Frame.{add_frame, datagram_frame, frame_of, local_frame, time_frame};

use counters::{PauseId, Seq};
use lines::number::{four, two};

// A datagram's bytes are those of the frame from the sixth on.
#[derive(Clone, Copy)]
pub enum Frame {
    Datagram(u32),
    Add(Adding),
    LocalPause(u32),
    LocalResume(u32),
    Time(u32, u32),
    Report(u32),
    Send(u32),
}

#[derive(Clone, Copy)]
pub struct Adding {
    pub ssrc: u32,
    pub id: PauseId,
    pub next: Seq,
    pub rtt: u32,
    pub dither: u32,
    pub nowait: bool,
}

// "00 datagram (time 4, then the bytes)"
fn datagram_frame(bytes: &[u8]) -> Option<Frame>
    ensures { result ≡ datagram_frame bytes.now }
{
    if bytes.len() < 5 {
        return None;
    }
    Some(Frame::Datagram(four(bytes, 1)))
}

// "01 add (SSRC 4, PauseID 2, sequence 2, RTT 4, dither 4, nowait 00 or 01)"
fn add_frame(bytes: &[u8]) -> Option<Frame>
    ensures { result ≡ add_frame bytes.now }
{
    if bytes.len() != 18 || bytes[17] > 1 {
        return None;
    }
    Some(Frame::Add(Adding {
        ssrc: four(bytes, 1),
        id: PauseId(two(bytes, 5)),
        next: Seq(two(bytes, 7)),
        rtt: four(bytes, 9),
        dither: four(bytes, 13),
        nowait: bytes[17] == 1,
    }))
}

// "04 time (SSRC 4, time 4)"
fn time_frame(bytes: &[u8]) -> Option<Frame>
    ensures { result ≡ time_frame bytes.now }
{
    if bytes.len() != 9 {
        return None;
    }
    Some(Frame::Time(four(bytes, 1), four(bytes, 5)))
}

// "02 local pause, 03 local resume, 05 report, 06 send (SSRC 4)"
fn local_frame(bytes: &[u8]) -> Option<Frame>
    ensures { result ≡ local_frame bytes.now }
{
    if bytes.len() != 5 {
        return None;
    }
    let ssrc = four(bytes, 1);
    match bytes[0] {
        2 => Some(Frame::LocalPause(ssrc)),
        3 => Some(Frame::LocalResume(ssrc)),
        5 => Some(Frame::Report(ssrc)),
        6 => Some(Frame::Send(ssrc)),
        _ => None,
    }
}

#[tactic(auto, unfolding(crate::specs::Frame::frame_of))]
pub fn frame_of(bytes: &[u8]) -> Option<Frame>
    ensures { result ≡ frame_of bytes.now }
{
    match *bytes.first()? {
        0 => datagram_frame(bytes),
        1 => add_frame(bytes),
        4 => time_frame(bytes),
        _ => local_frame(bytes),
    }
}

// What the local calls decide.
ghost use Rattle.std.specs.Prelude.{◌≡◌};
ghost use Rattle.decide.specs.code.Decide.{called_on, reacted, resumed, sent};

use crate::Call;
use rtcp::layout::PACKET;
use sender::SendRefusal;
use sides::{ChangeRefusal, PacketRefusal, wrong_size};
use stream::{Outcome, Sent, Stream};

// One of the three events that may reply.
fn called_on(call: Call, stream: Stream) -> Outcome
    ensures { result ≡ called_on call stream }
{
    match call {
        Call::LocalPause => stream.local_pause(),
        Call::Time(time) => stream.time(time),
        Call::Report => stream.report(),
    }
}

// Local pause, time, report: Size, NoStream, Room.
pub fn react(
    holder: Option<Stream>,
    call: Call,
    size: usize,
    room: usize,
) -> Result<Outcome, PacketRefusal>
    ensures { result ≡ reacted holder call size room }
{
    if wrong_size(size) {
        return Err(PacketRefusal::Size);
    }
    let stream = holder.ok_or(PacketRefusal::NoStream)?;
    if room < PACKET {
        return Err(PacketRefusal::Room);
    }
    Ok(called_on(call, stream))
}

// Local resume: Size, NoStream.
pub fn resume(holder: Option<Stream>, size: usize) -> Result<Stream, ChangeRefusal>
    ensures { result ≡ resumed holder size }
{
    if wrong_size(size) {
        return Err(ChangeRefusal::Size);
    }
    let stream = holder.ok_or(ChangeRefusal::NoStream)?;
    Ok(stream.local_resume().stream)
}

// Send: Size, NoStream. Held is in what is sent: its record is stored, though it is the one that stands there.
pub fn send(holder: Option<Stream>, size: usize) -> Result<Sent, SendRefusal>
    ensures { result ≡ sent holder size }
{
    if wrong_size(size) {
        return Err(SendRefusal::Size);
    }
    let stream = holder.ok_or(SendRefusal::NoStream)?;
    Ok(stream.send())
}

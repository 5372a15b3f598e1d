// What the local calls decide.
ghost use Rattle.std.specs.Prelude.{◌≡◌};
ghost use Rattle.remote_decide.specs.code.Decide.{asked, asked_of, reported, seen};

use receiver::AskRefusal;
use remote::{Ask, Busy, Outcome, Remote};
use rtcp::layout::PACKET;
use sides::{ChangeRefusal, PacketRefusal, wrong_size};

// One of the two asks.
fn asked_of(ask: Ask, remote: Remote) -> Result<Outcome, Busy>
    ensures { result ≡ asked_of ask remote }
{
    match ask {
        Ask::Pause => remote.ask_to_pause(),
        Ask::Resume => remote.ask_to_resume(),
    }
}

// Ask to pause, ask to resume: Size, NoStream, Busy ("after NoStream and before Room"), Room.
pub fn ask(
    holder: Option<Remote>,
    ask: Ask,
    size: usize,
    room: usize,
) -> Result<Outcome, AskRefusal>
    ensures { result ≡ asked holder ask size room }
{
    if wrong_size(size) {
        return Err(AskRefusal::Size);
    }
    let remote = holder.ok_or(AskRefusal::NoStream)?;
    let outcome = asked_of(ask, remote)?;
    if room < PACKET {
        return Err(AskRefusal::Room);
    }
    Ok(outcome)
}

// Report: Size, NoStream, Room.
pub fn report(holder: Option<Remote>, size: usize, room: usize) -> Result<Outcome, PacketRefusal>
    ensures { result ≡ reported holder size room }
{
    if wrong_size(size) {
        return Err(PacketRefusal::Size);
    }
    let remote = holder.ok_or(PacketRefusal::NoStream)?;
    if room < PACKET {
        return Err(PacketRefusal::Room);
    }
    Ok(remote.report())
}

// Media seen: Size, NoStream.
pub fn see_media(holder: Option<Remote>, size: usize) -> Result<Remote, ChangeRefusal>
    ensures { result ≡ seen holder size }
{
    if wrong_size(size) {
        return Err(ChangeRefusal::Size);
    }
    let remote = holder.ok_or(ChangeRefusal::NoStream)?;
    Ok(remote.media_seen().remote)
}

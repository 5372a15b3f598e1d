// The public calls. Each answers for every table, SSRC, datagram and buffer; no caller has to test anything first.
ghost use Rattle.std.specs.Prelude.{◌≡◌, []};
ghost use Rattle.remote.specs.Rules.{ask_to_pause, ask_to_resume, report as reports};
ghost use Rattle.sides.specs.Said.{change_said, packet_said};
ghost use Rattle.receiver.specs.Said.{add_said, ask_said, datagram_said};
ghost use Rattle.receiver.specs.Calls.{add_call, ask_call, datagram_call, media_call, remove_call};
ghost use Rattle.remote_decide.specs.code.Decide.{event_of, keeping};
ghost use Rattle.remote_rows.specs.Rows.{rows};

use crate::datagram::turns;
use counters::PauseId;
use receiver::{AddRefusal, AskRefusal, Counts, DatagramRefusal};
use remote::{Ask, Remote};
use remote_decide::calls::{ask, report as decide_report, see_media};
use remote_decide::datagram::open;
use remote_decide::messages::{length, put_message};
use remote_decide::places::admit;
use remote_rows::{RemoteRows, Row};
use sides::keeps::{clear, find, find_vacant, holder, keep};
use sides::places::release;
use sides::{ChangeRefusal, PacketRefusal};

// What was decided is stored where the record was found.
// Stays: `decide` has the same of its own records; as one function of `sides` it would be no shorter, with a definition more.
pub(crate) fn store(table: &mut [Row], found: Option<usize>, next: Remote)
    ensures { table.new ≡ keeping rows table.old found next }
{
    if let Some(place) = found {
        keep::<RemoteRows>(table, place, next);
    }
}

// A datagram is checked whole before its first entry runs. Nothing is written, so it needs no buffer, no time and no house SSRC.
pub fn datagram(table: &mut [Row], datagram: &[u8]) -> Result<Counts, DatagramRefusal>
    ensures { datagram_call rows datagram.now table.old ≡ record { said = datagram_said result; table = table.new; buffer = [] } }
{
    let entries = open(table.len(), datagram)?;
    let unknown = turns(table, datagram);
    Ok(Counts { entries, unknown })
}

// The two asks differ in what the rules of one stream do, and in nothing else.
// Stays: as a closure an ask would have to bring along, required of each caller, what it gives; `event_of` says it of an `Ask`.
fn call(
    table: &mut [Row],
    ssrc: u32,
    message: Ask,
    buffer: &mut [u8],
    house: u32,
) -> Result<usize, AskRefusal>
    ensures { ask_call rows (event_of message) ssrc table.old buffer.old house
        ≡ record { said = ask_said result; table = table.new; buffer = buffer.new } }
{
    let found = find::<RemoteRows>(table, ssrc);
    let asker = holder::<RemoteRows>(table, found);
    let outcome = ask(asker, message, table.len(), buffer.len())?;
    store(table, found, outcome.remote);
    put_message(buffer, house, outcome.sent);
    Ok(length(outcome.sent))
}

// "An ask sends PAUSE (in Receiving) …"
pub fn ask_to_pause(
    table: &mut [Row],
    ssrc: u32,
    buffer: &mut [u8],
    house: u32,
) -> Result<usize, AskRefusal>
    ensures { ask_call rows ask_to_pause ssrc table.old buffer.old house
        ≡ record { said = ask_said result; table = table.new; buffer = buffer.new } }
{
    call(table, ssrc, Ask::Pause, buffer, house)
}

// "… or RESUME (in Paused; the other ask does nothing)"
pub fn ask_to_resume(
    table: &mut [Row],
    ssrc: u32,
    buffer: &mut [u8],
    house: u32,
) -> Result<usize, AskRefusal>
    ensures { ask_call rows ask_to_resume ssrc table.old buffer.old house
        ≡ record { said = ask_said result; table = table.new; buffer = buffer.new } }
{
    call(table, ssrc, Ask::Resume, buffer, house)
}

// A regular report goes out for one stream: it repeats an ask.
pub fn report(
    table: &mut [Row],
    ssrc: u32,
    buffer: &mut [u8],
    house: u32,
) -> Result<usize, PacketRefusal>
    ensures { ask_call rows reports ssrc table.old buffer.old house
        ≡ record { said = packet_said result; table = table.new; buffer = buffer.new } }
{
    let found = find::<RemoteRows>(table, ssrc);
    let reporter = holder::<RemoteRows>(table, found);
    let outcome = decide_report(reporter, table.len(), buffer.len())?;
    store(table, found, outcome.remote);
    put_message(buffer, house, outcome.sent);
    Ok(length(outcome.sent))
}

// A packet of the stream's media has come.
pub fn media_seen(table: &mut [Row], ssrc: u32) -> Result<(), ChangeRefusal>
    ensures { media_call rows ssrc table.old ≡ record { said = change_said result; table = table.new; buffer = [] } }
{
    let found = find::<RemoteRows>(table, ssrc);
    let next = see_media(holder::<RemoteRows>(table, found), table.len())?;
    store(table, found, next);
    Ok(())
}

// A new stream takes the lowest record not in use.
pub fn add(table: &mut [Row], ssrc: u32, id: PauseId) -> Result<(), AddRefusal>
    ensures { add_call rows ssrc id table.old ≡ record { said = add_said result; table = table.new; buffer = [] } }
{
    let found = find::<RemoteRows>(table, ssrc);
    let vacant = find_vacant::<RemoteRows>(table);
    let (place, remote) = admit(Remote::start(ssrc, id), table.len(), found, vacant)?;
    keep::<RemoteRows>(table, place, remote);
    Ok(())
}

// "Remove clears "in use" and changes nothing else."
pub fn remove(table: &mut [Row], ssrc: u32) -> Result<(), ChangeRefusal>
    ensures { remove_call rows ssrc table.old ≡ record { said = change_said result; table = table.new; buffer = [] } }
{
    let found = find::<RemoteRows>(table, ssrc);
    let place = release(table.len(), found)?;
    clear::<RemoteRows>(table, place);
    Ok(())
}

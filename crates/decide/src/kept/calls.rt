// The public calls. Each answers for every table, SSRC, datagram and buffer; no caller has to test anything first.
ghost use Rattle.std.specs.Prelude.{◌≡◌, []};
ghost use Rattle.stream.specs.Rules.{local_pause, local_resume, report, send as sends, time as times};
ghost use Rattle.sender.specs.Said.{add_said, datagram_said, send_said};
ghost use Rattle.sides.specs.Said.{change_said, packet_said};
ghost use Rattle.sender.specs.Calls.{add_call, datagram_call, quiet_call, remove_call, reply_call};
ghost use Rattle.decide.specs.code.Decide.{event_of};

use crate::Call;
use crate::calls::{react, resume, send as decide_send};
use crate::datagram::{open, with_room};
use crate::kept::datagram::turns;
use crate::kept::{Kept, Streams, find, find_vacant, store};
use crate::places::admit;
use crate::replies::{length, put_reply};
use counters::{PauseId, Seq};
use sender::{AddRefusal, Counts, DatagramRefusal, SendRefusal};
use sides::keeps::{clear, holder, keep};
use sides::places::release;
use sides::{ChangeRefusal, PacketRefusal};
use stream::Stream;

// A datagram is checked whole before its first entry runs.
#[tactic(auto, using(crate::proofs::Opened::declined_by, crate::proofs::Opened::accepted_by))]
pub fn datagram<W: Streams>(
    table: &mut [Kept<W>],
    datagram: &[u8],
    time: u32,
    buffer: &mut [u8],
) -> Result<Counts, DatagramRefusal>
    ensures { datagram_call W.Way.keeping datagram.now time table.old buffer.old
        ≡ record { said = datagram_said result; table = table.new; buffer = buffer.new } }
{
    let entries = with_room(open(table.len(), datagram), buffer.len())?;
    let at = turns::<W>(table, buffer, datagram, time, entries);
    Ok(Counts {
        length: at.written,
        entries,
        unknown: at.unknown,
    })
}

// One of the three local calls that may reply.
#[tactic(auto, using(crate::proofs::Called::called))]
fn call<W: Streams>(
    table: &mut [Kept<W>],
    ssrc: u32,
    call: Call,
    buffer: &mut [u8],
) -> Result<usize, PacketRefusal>
    ensures { reply_call W.Way.keeping (event_of call) ssrc table.old buffer.old
        ≡ record { said = packet_said result; table = table.new; buffer = buffer.new } }
{
    let found = find::<W>(table, ssrc);
    let outcome = react(
        holder::<W::Way>(table, found),
        call,
        table.len(),
        buffer.len(),
    )?;
    store::<W>(table, found, outcome.stream);
    put_reply(buffer, 0, outcome.reply);
    Ok(length(outcome.reply))
}

pub fn local_pause<W: Streams>(
    table: &mut [Kept<W>],
    ssrc: u32,
    buffer: &mut [u8],
) -> Result<usize, PacketRefusal>
    ensures { reply_call W.Way.keeping local_pause ssrc table.old buffer.old
        ≡ record { said = packet_said result; table = table.new; buffer = buffer.new } }
{
    call::<W>(table, ssrc, Call::LocalPause, buffer)
}

// The clock's event, for one stream.
pub fn time<W: Streams>(
    table: &mut [Kept<W>],
    ssrc: u32,
    time: u32,
    buffer: &mut [u8],
) -> Result<usize, PacketRefusal>
    ensures { reply_call W.Way.keeping (times time) ssrc table.old buffer.old
        ≡ record { said = packet_said result; table = table.new; buffer = buffer.new } }
{
    call::<W>(table, ssrc, Call::Time(time), buffer)
}

// A regular report goes out for one stream.
pub fn report<W: Streams>(
    table: &mut [Kept<W>],
    ssrc: u32,
    buffer: &mut [u8],
) -> Result<usize, PacketRefusal>
    ensures { reply_call W.Way.keeping report ssrc table.old buffer.old
        ≡ record { said = packet_said result; table = table.new; buffer = buffer.new } }
{
    call::<W>(table, ssrc, Call::Report, buffer)
}

#[tactic(auto, using(crate::proofs::Called::resumes))]
pub fn local_resume<W: Streams>(table: &mut [Kept<W>], ssrc: u32) -> Result<(), ChangeRefusal>
    ensures { quiet_call W.Way.keeping local_resume ssrc table.old ≡ record { said = change_said result; table = table.new; buffer = [] } }
{
    let found = find::<W>(table, ssrc);
    let next = resume(holder::<W::Way>(table, found), table.len())?;
    store::<W>(table, found, next);
    Ok(())
}

// The number of the next packet.
#[tactic(auto, using(crate::proofs::Called::sends))]
pub fn send<W: Streams>(table: &mut [Kept<W>], ssrc: u32) -> Result<Seq, SendRefusal>
    ensures { quiet_call W.Way.keeping sends ssrc table.old ≡ record { said = send_said result; table = table.new; buffer = [] } }
{
    let found = find::<W>(table, ssrc);
    let sent = decide_send(holder::<W::Way>(table, found), table.len())?;
    store::<W>(table, found, sent.stream);
    Ok(sent.number?)
}

// A new stream takes the lowest record not in use.
pub fn add<W: Streams>(
    table: &mut [Kept<W>],
    ssrc: u32,
    id: PauseId,
    next: Seq,
    rtt: u32,
    dither: u32,
    nowait: bool,
) -> Result<(), AddRefusal>
    ensures { add_call W.Way.keeping ssrc id next rtt dither nowait table.old ≡ record { said = add_said result; table = table.new; buffer = [] } }
{
    let (place, stream) = admit(
        Stream::start(ssrc, id, next, rtt, dither, nowait),
        table.len(),
        find::<W>(table, ssrc),
        find_vacant::<W>(table),
    )?;
    keep::<W::Way>(table, place, stream);
    Ok(())
}

// The record's place is free again.
#[tactic(auto, using(crate::proofs::Called::removes))]
pub fn remove<W: Streams>(table: &mut [Kept<W>], ssrc: u32) -> Result<(), ChangeRefusal>
    ensures { remove_call W.Way.keeping ssrc table.old ≡ record { said = change_said result; table = table.new; buffer = [] } }
{
    let place = release(table.len(), find::<W>(table, ssrc))?;
    clear::<W::Way>(table, place);
    Ok(())
}

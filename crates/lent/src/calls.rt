// The public calls. Each answers for every table, SSRC, datagram and buffer; no caller has to test anything first.
ghost use Rattle.std.specs.Prelude.{◌≡◌, []};
ghost use Rattle.stream.specs.Rules.{local_pause, local_resume, report, send as sends, time as times};
ghost use Rattle.sender.specs.Said.{add_said, datagram_said, send_said};
ghost use Rattle.sides.specs.Said.{change_said, packet_said};
ghost use Rattle.sender.specs.Calls.{add_call, datagram_call, quiet_call, remove_call, reply_call};
ghost use Rattle.sender.specs.Keeping.{records};

use crate::StreamRecords;
use counters::{PauseId, Seq};
use decide::kept::calls;
use sender::{AddRefusal, Counts, DatagramRefusal, SendRefusal};
use sides::{ChangeRefusal, PacketRefusal};
use stream::Stream;

// A datagram is checked whole before its first entry runs.
pub fn datagram(
    table: &mut [Stream],
    datagram: &[u8],
    time: u32,
    buffer: &mut [u8],
) -> Result<Counts, DatagramRefusal>
    ensures { datagram_call records datagram.now time table.old buffer.old
        ≡ record { said = datagram_said result; table = table.new; buffer = buffer.new } }
{
    calls::datagram::<StreamRecords>(table, datagram, time, buffer)
}

pub fn local_pause(
    table: &mut [Stream],
    ssrc: u32,
    buffer: &mut [u8],
) -> Result<usize, PacketRefusal>
    ensures { reply_call records local_pause ssrc table.old buffer.old
        ≡ record { said = packet_said result; table = table.new; buffer = buffer.new } }
{
    calls::local_pause::<StreamRecords>(table, ssrc, buffer)
}

// The clock's event, for one stream.
pub fn time(
    table: &mut [Stream],
    ssrc: u32,
    time: u32,
    buffer: &mut [u8],
) -> Result<usize, PacketRefusal>
    ensures { reply_call records (times time) ssrc table.old buffer.old
        ≡ record { said = packet_said result; table = table.new; buffer = buffer.new } }
{
    calls::time::<StreamRecords>(table, ssrc, time, buffer)
}

// A regular report goes out for one stream.
pub fn report(table: &mut [Stream], ssrc: u32, buffer: &mut [u8]) -> Result<usize, PacketRefusal>
    ensures { reply_call records report ssrc table.old buffer.old
        ≡ record { said = packet_said result; table = table.new; buffer = buffer.new } }
{
    calls::report::<StreamRecords>(table, ssrc, buffer)
}

pub fn local_resume(table: &mut [Stream], ssrc: u32) -> Result<(), ChangeRefusal>
    ensures { quiet_call records local_resume ssrc table.old ≡ record { said = change_said result; table = table.new; buffer = [] } }
{
    calls::local_resume::<StreamRecords>(table, ssrc)
}

// The number of the next packet.
pub fn send(table: &mut [Stream], ssrc: u32) -> Result<Seq, SendRefusal>
    ensures { quiet_call records sends ssrc table.old ≡ record { said = send_said result; table = table.new; buffer = [] } }
{
    calls::send::<StreamRecords>(table, ssrc)
}

// A new stream takes the lowest record not in use.
pub fn add(
    table: &mut [Stream],
    ssrc: u32,
    id: PauseId,
    next: Seq,
    rtt: u32,
    dither: u32,
    nowait: bool,
) -> Result<(), AddRefusal>
    ensures { add_call records ssrc id next rtt dither nowait table.old ≡ record { said = add_said result; table = table.new; buffer = [] } }
{
    calls::add::<StreamRecords>(table, ssrc, id, next, rtt, dither, nowait)
}

// The record's place is free again.
pub fn remove(table: &mut [Stream], ssrc: u32) -> Result<(), ChangeRefusal>
    ensures { remove_call records ssrc table.old ≡ record { said = change_said result; table = table.new; buffer = [] } }
{
    calls::remove::<StreamRecords>(table, ssrc)
}

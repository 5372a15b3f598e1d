// The public calls. Each answers for every table, SSRC, datagram and buffer; no caller has to test anything first.
ghost use Rattle.std.specs.Prelude.{◌≡◌, []};
ghost use Rattle.stream.specs.Rules.{local_pause, local_resume, report, send as sends, time as times};
ghost use Rattle.sender.specs.Said.{add_said, datagram_said, send_said};
ghost use Rattle.sides.specs.Said.{change_said, packet_said};
ghost use Rattle.sender.specs.Calls.{add_call, datagram_call, quiet_call, remove_call, reply_call};
ghost use Rattle.rows.specs.Rows.{rows};

use crate::StreamRows;
use counters::{PauseId, Seq};
use decide::kept::calls;
use rows::Row;
use sender::{AddRefusal, Counts, DatagramRefusal, SendRefusal};
use sides::{ChangeRefusal, PacketRefusal};

// Stays: `lent::calls` has the same lines at the records, so that a host calls by its own type of table; what the calls do stands once, in `decide::kept`.
// A datagram is checked whole before its first entry runs.
pub fn datagram(
    table: &mut [Row],
    datagram: &[u8],
    time: u32,
    buffer: &mut [u8],
) -> Result<Counts, DatagramRefusal>
    ensures { datagram_call rows datagram.now time table.old buffer.old
        ≡ record { said = datagram_said result; table = table.new; buffer = buffer.new } }
{
    calls::datagram::<StreamRows>(table, datagram, time, buffer)
}

pub fn local_pause(table: &mut [Row], ssrc: u32, buffer: &mut [u8]) -> Result<usize, PacketRefusal>
    ensures { reply_call rows local_pause ssrc table.old buffer.old
        ≡ record { said = packet_said result; table = table.new; buffer = buffer.new } }
{
    calls::local_pause::<StreamRows>(table, ssrc, buffer)
}

// The clock's event, for one stream.
pub fn time(
    table: &mut [Row],
    ssrc: u32,
    time: u32,
    buffer: &mut [u8],
) -> Result<usize, PacketRefusal>
    ensures { reply_call rows (times time) ssrc table.old buffer.old
        ≡ record { said = packet_said result; table = table.new; buffer = buffer.new } }
{
    calls::time::<StreamRows>(table, ssrc, time, buffer)
}

// A regular report goes out for one stream.
pub fn report(table: &mut [Row], ssrc: u32, buffer: &mut [u8]) -> Result<usize, PacketRefusal>
    ensures { reply_call rows report ssrc table.old buffer.old
        ≡ record { said = packet_said result; table = table.new; buffer = buffer.new } }
{
    calls::report::<StreamRows>(table, ssrc, buffer)
}

pub fn local_resume(table: &mut [Row], ssrc: u32) -> Result<(), ChangeRefusal>
    ensures { quiet_call rows local_resume ssrc table.old ≡ record { said = change_said result; table = table.new; buffer = [] } }
{
    calls::local_resume::<StreamRows>(table, ssrc)
}

// The number of the next packet.
pub fn send(table: &mut [Row], ssrc: u32) -> Result<Seq, SendRefusal>
    ensures { quiet_call rows sends ssrc table.old ≡ record { said = send_said result; table = table.new; buffer = [] } }
{
    calls::send::<StreamRows>(table, ssrc)
}

// A new stream takes the lowest record not in use.
pub fn add(
    table: &mut [Row],
    ssrc: u32,
    id: PauseId,
    next: Seq,
    rtt: u32,
    dither: u32,
    nowait: bool,
) -> Result<(), AddRefusal>
    ensures { add_call rows ssrc id next rtt dither nowait table.old ≡ record { said = add_said result; table = table.new; buffer = [] } }
{
    calls::add::<StreamRows>(table, ssrc, id, next, rtt, dither, nowait)
}

// The record's place is free again.
pub fn remove(table: &mut [Row], ssrc: u32) -> Result<(), ChangeRefusal>
    ensures { remove_call rows ssrc table.old ≡ record { said = change_said result; table = table.new; buffer = [] } }
{
    calls::remove::<StreamRows>(table, ssrc)
}

// The table of 64 streams for a host that keeps the records itself, in an array: each call takes the records by value, lends them to the same call of the crate `lent`, and hands them back beside the answer.
// So no parameter here is a reference to a record.
#![tactic(auto)]

ghost use Rattle.std.specs.Prelude.{◌≡◌, []};
ghost use Rattle.stream.specs.Rules.{local_pause, local_resume, report, send as sends, time as times};
ghost use Rattle.sender.specs.Said.{add_said, datagram_said, send_said};
ghost use Rattle.sides.specs.Said.{change_said, packet_said};
ghost use Rattle.sender.specs.Calls.{add_call, datagram_call, quiet_call, remove_call, reply_call};
ghost use Rattle.sender.specs.Keeping.{records};

use counters::{PauseId, Seq};
use lent::calls;
use sender::{AddRefusal, Counts, DatagramRefusal, SendRefusal};
use sides::{ChangeRefusal, MOST_RECORDS, PacketRefusal};
use stream::Stream;

// "A table of 1 to 64 streams": the largest there is.
pub type Records = [Stream; MOST_RECORDS];

// What each call hands back: the host's records, and the answer.
#[derive(Clone, Copy)]
pub struct Served<A> {
    pub table: Records,
    pub answer: A,
}

pub fn datagram(
    mut table: Records,
    datagram: &[u8],
    time: u32,
    buffer: &mut [u8],
) -> Served<Result<Counts, DatagramRefusal>>
    ensures { datagram_call records datagram.now time table buffer.old
        ≡ record { said = datagram_said result.answer; table = result.table; buffer = buffer.new } }
{
    let answer = calls::datagram(&mut table, datagram, time, buffer);
    Served { table, answer }
}

pub fn local_pause(
    mut table: Records,
    ssrc: u32,
    buffer: &mut [u8],
) -> Served<Result<usize, PacketRefusal>>
    ensures { reply_call records local_pause ssrc table buffer.old
        ≡ record { said = packet_said result.answer; table = result.table; buffer = buffer.new } }
{
    let answer = calls::local_pause(&mut table, ssrc, buffer);
    Served { table, answer }
}

// The clock's event, for one stream.
pub fn time(
    mut table: Records,
    ssrc: u32,
    time: u32,
    buffer: &mut [u8],
) -> Served<Result<usize, PacketRefusal>>
    ensures { reply_call records (times time) ssrc table buffer.old
        ≡ record { said = packet_said result.answer; table = result.table; buffer = buffer.new } }
{
    let answer = calls::time(&mut table, ssrc, time, buffer);
    Served { table, answer }
}

// A regular report goes out for one stream.
pub fn report(
    mut table: Records,
    ssrc: u32,
    buffer: &mut [u8],
) -> Served<Result<usize, PacketRefusal>>
    ensures { reply_call records report ssrc table buffer.old
        ≡ record { said = packet_said result.answer; table = result.table; buffer = buffer.new } }
{
    let answer = calls::report(&mut table, ssrc, buffer);
    Served { table, answer }
}

pub fn local_resume(mut table: Records, ssrc: u32) -> Served<Result<(), ChangeRefusal>>
    ensures { quiet_call records local_resume ssrc table ≡ record { said = change_said result.answer; table = result.table; buffer = [] } }
{
    let answer = calls::local_resume(&mut table, ssrc);
    Served { table, answer }
}

// The number of the next packet.
pub fn send(mut table: Records, ssrc: u32) -> Served<Result<Seq, SendRefusal>>
    ensures { quiet_call records sends ssrc table ≡ record { said = send_said result.answer; table = result.table; buffer = [] } }
{
    let answer = calls::send(&mut table, ssrc);
    Served { table, answer }
}

// A new stream takes the lowest record not in use.
pub fn add(
    mut table: Records,
    ssrc: u32,
    id: PauseId,
    next: Seq,
    rtt: u32,
    dither: u32,
    nowait: bool,
) -> Served<Result<(), AddRefusal>>
    ensures { add_call records ssrc id next rtt dither nowait table ≡ record { said = add_said result.answer; table = result.table; buffer = [] } }
{
    let answer = calls::add(&mut table, ssrc, id, next, rtt, dither, nowait);
    Served { table, answer }
}

// The record's place is free again.
pub fn remove(mut table: Records, ssrc: u32) -> Served<Result<(), ChangeRefusal>>
    ensures { remove_call records ssrc table ≡ record { said = change_said result.answer; table = result.table; buffer = [] } }
{
    let answer = calls::remove(&mut table, ssrc);
    Served { table, answer }
}

// A camera of our own: what the sender's side answers.
use crate::print::{print, print_answer, print_done, print_entry, print_state};
use cases::number;
use counters::{PauseId, Seq};
use rows::Row;
use rtcp::layout::PACKET;
use sender::{Counts, DatagramRefusal, MOST_REPLY};
use sides::MOST_RECORDS;
use std::io;
use stream::State;
use table::calls;

// The camera's SSRC.
const CAMERA: u32 = 0x11223344;

// A datagram with one RESUME for the camera, PauseID 7: the bytes a stranger would send.
const RESUME: [u8; 20] = [
    137, 205, 0, 4, 170, 187, 204, 221, 0, 0, 0, 0, 17, 34, 51, 68, 16, 0, 0, 7,
];

// The packet's number, or Held: then the host sends nothing.
fn send(rt: &HostRuntime, table: &mut [Row]) -> io::Result<()> {
    print_answer(
        rt,
        "send",
        calls::send(table, CAMERA).map(|number| number.0),
    )
}

fn print_datagram(rt: &HostRuntime, answer: Result<Counts, DatagramRefusal>) -> io::Result<()> {
    let case = number(answer);
    match answer {
        Ok(counts) => print(rt, "datagram", case, counts.length as u64),
        Err(DatagramRefusal::Refused(refusal)) => {
            print(rt, "datagram", case, refusal.place as u64)
        }
        Err(_) => print(rt, "datagram", case, 0),
    }
}

// The record that a row is, read back: whether it plays, and the PauseID that a receiver has to send.
fn print_record(rt: &HostRuntime, row: Row) -> io::Result<()> {
    let stream = rows::read(row);
    let state = match stream.state {
        State::Playing => "playing",
        State::Pausing(_) => "pausing",
        State::Paused => "paused",
        State::LocalPaused => "local paused",
    };
    print_state(rt, state, stream.current.0)
}

// The first packet of a reply, which comes from the camera's own SSRC.
fn print_reply(rt: &HostRuntime, reply: &[u8; MOST_REPLY]) -> io::Result<()> {
    print_entry(rt, &reply[..PACKET], 0)
}

fn hold(rt: &HostRuntime, table: &mut [Row], reply: &mut [u8; MOST_REPLY]) -> io::Result<()> {
    send(rt, table)?;
    print_answer(rt, "local pause", calls::local_pause(table, CAMERA, reply))?;
    print_reply(rt, reply)?;
    send(rt, table)
}

// The RESUME has the current PauseID, and gets REFUSED: 20 bytes of reply. The camera stays closed.
fn attack(rt: &HostRuntime, table: &mut [Row], reply: &mut [u8; MOST_REPLY]) -> io::Result<()> {
    print_datagram(rt, calls::datagram(table, &RESUME, 5000, reply))?;
    print_reply(rt, reply)?;
    send(rt, table)?;
    print_datagram(rt, calls::datagram(table, &RESUME[..19], 5000, reply)) // a byte short: Overrun, and nothing is done
}

// Neither the clock nor a report opens it.
fn wait(rt: &HostRuntime, table: &mut [Row], reply: &mut [u8; MOST_REPLY]) -> io::Result<()> {
    print_answer(rt, "time", calls::time(table, CAMERA, 5000, reply))?;
    print_answer(rt, "report", calls::report(table, CAMERA, reply))?;
    send(rt, table)
}

// Only the host's own resume opens it; the first packet after the hold is one above the last before it.
fn release(rt: &HostRuntime, table: &mut [Row], reply: &mut [u8; MOST_REPLY]) -> io::Result<()> {
    print_done(rt, "local resume", calls::local_resume(table, CAMERA))?;
    send(rt, table)?;
    print_datagram(rt, calls::datagram(table, &RESUME, 6000, reply))?;
    print_done(rt, "remove", calls::remove(table, CAMERA))?;
    send(rt, table)
}

pub(crate) fn run(rt: &HostRuntime) -> io::Result<()> {
    let mut table = [rows::unused(); MOST_RECORDS];
    let mut reply = [0u8; MOST_REPLY];
    let added = calls::add(&mut table, CAMERA, PauseId(7), Seq(100), 100, 200, false);
    print_done(rt, "add", added)?;
    hold(rt, &mut table, &mut reply)?;
    print_record(rt, table[0])?;
    attack(rt, &mut table, &mut reply)?;
    wait(rt, &mut table, &mut reply)?;
    release(rt, &mut table, &mut reply)
}

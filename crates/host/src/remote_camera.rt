// A camera of somebody else: what the receiver's side answers.
use crate::print::{print, print_answer, print_done, print_entry, print_state};
use cases::number;
use counters::{Notice, PauseId};
use receiver::{Counts, DatagramRefusal};
use remote::State;
use remote_rows::Row;
use remote_table::calls;
use rtcp::layout::PACKET;
use sides::MOST_RECORDS;
use std::io;
use writer::write_entry;

// The remote camera's SSRC.
const REMOTE: u32 = 0x55667788;

// The house SSRC: what we ask of other people's cameras is sent from it.
const HOUSE: u32 = 1;

// Stays: the sender's side has the like of its own, for refusals and counts of another type; one function for both would take a trait of two impls for six lines.
fn print_datagram(rt: &HostRuntime, answer: Result<Counts, DatagramRefusal>) -> io::Result<()> {
    let case = number(answer);
    match answer {
        Ok(counts) => print(rt, "datagram", case, counts.entries as u64),
        Err(DatagramRefusal::Refused(refusal)) => {
            print(rt, "datagram", case, refusal.place as u64)
        }
        Err(_) => print(rt, "datagram", case, 0),
    }
}

// The record that a row is, read back: what is known of the camera, and the PauseID that is believed.
fn print_record(rt: &HostRuntime, row: Row) -> io::Result<()> {
    let remote = remote_rows::read(row);
    let state = match remote.state {
        State::Receiving => "receiving",
        State::AskedToPause(_) => "asked to pause",
        State::Paused => "paused",
        State::AskedToResume(_) => "asked to resume",
    };
    print_state(rt, state, remote.id.0)
}

fn ask_to_resume(rt: &HostRuntime, table: &mut [Row], packet: &mut [u8]) -> io::Result<()> {
    let asked = calls::ask_to_resume(table, REMOTE, packet, HOUSE);
    print_answer(rt, "ask to resume", asked)
}

fn report(rt: &HostRuntime, table: &mut [Row], packet: &mut [u8]) -> io::Result<()> {
    let reported = calls::report(table, REMOTE, packet, HOUSE);
    print_answer(rt, "report", reported)
}

// PAUSE goes out with the believed PauseID, and a report repeats it. While it is asked, nothing else can be.
fn ask(rt: &HostRuntime, table: &mut [Row], packet: &mut [u8]) -> io::Result<()> {
    let asked = calls::ask_to_pause(table, REMOTE, packet, HOUSE);
    print_answer(rt, "ask to pause", asked)?;
    print_entry(rt, packet, 0)?;
    print_entry(rt, packet, 1)?;
    ask_to_resume(rt, table, packet)?;
    report(rt, table, packet)
}

// The camera answers PAUSED: the bytes that it would send are written here, and handed to the table.
fn hear(rt: &HostRuntime, table: &mut [Row]) -> io::Result<()> {
    let mut datagram = [0u8; PACKET];
    let kind = u8::from(Notice::Paused);
    let written = write_entry(&mut datagram, REMOTE, REMOTE, kind, 41);
    print_answer(rt, "write", written)?;
    print_datagram(rt, calls::datagram(table, &datagram))
}

// RESUME goes out; what ends the pause is the media itself.
fn want_back(rt: &HostRuntime, table: &mut [Row], packet: &mut [u8]) -> io::Result<()> {
    ask_to_resume(rt, table, packet)?;
    print_entry(rt, packet, 0)?;
    print_done(rt, "media seen", calls::media_seen(table, REMOTE))
}

// A camera that was removed is a stranger: the report is answered NoStream.
fn forget(rt: &HostRuntime, table: &mut [Row], packet: &mut [u8]) -> io::Result<()> {
    print_done(rt, "remove remote", calls::remove(table, REMOTE))?;
    report(rt, table, packet)
}

pub(crate) fn run(rt: &HostRuntime) -> io::Result<()> {
    let mut table = [remote_rows::unused(); MOST_RECORDS];
    let mut packet = [0u8; PACKET];
    let added = calls::add(&mut table, REMOTE, PauseId(41));
    print_done(rt, "add remote", added)?;
    ask(rt, &mut table, &mut packet)?;
    print_record(rt, table[0])?;
    hear(rt, &mut table)?;
    print_record(rt, table[0])?;
    want_back(rt, &mut table, &mut packet)?;
    print_record(rt, table[0])?;
    forget(rt, &mut table, &mut packet)
}

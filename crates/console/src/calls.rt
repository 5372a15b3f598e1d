// The frames that are calls, 00 to 06, 10, 20 to 26 and 30, with the room and the size in force.
use crate::packet::write;
use crate::say::Output;
use crate::{Console, HOUSE, Lent, RECORDS, REPLY};
use cases::Case;
use counters::PauseId;
use frames::answer::{Head, change_said, datagram_said, refused, reply_said};
use frames::serve::serve;
use lines::number::{four, two};
use receiver::{Counts, DatagramRefusal};
use remote_table::calls;

// "SSRC (4)", and nothing more.
fn ssrc(bytes: &[u8]) -> Option<u32> {
    if bytes.len() == 5 {
        Some(four(bytes, 1))
    } else {
        None
    }
}

// 00, n (2) and u (2).
fn heard(said: Result<Counts, DatagramRefusal>) -> Head {
    match said {
        Ok(Counts { entries, unknown }) => datagram_said(Ok(sender::Counts {
            length: 0,
            entries,
            unknown,
        })),
        Err(DatagramRefusal::Refused(refusal)) => refused(refusal.number(), refusal.place),
        Err(refusal) => refused(refusal.number(), 0),
    }
}

// 00 and the packet, "or nothing where none is written".
fn packet<E: Case>(said: Result<usize, E>) -> Head {
    match said {
        Ok(length) => reply_said(Ok(length)),
        Err(refusal) => refused(refusal.number(), 0),
    }
}

// "21 add: SSRC (4), believed PauseID (2)"
fn add(remotes: &mut [remote_rows::Row], bytes: &[u8]) -> Option<Head> {
    if bytes.len() != 7 {
        return None;
    }
    let said = calls::add(remotes, four(bytes, 1), PauseId(two(bytes, 5)));
    Some(packet(said.map(|()| 0)))
}

// Any other first byte is Line as it is in the line program.
fn call(
    table: &mut [rows::Row; RECORDS],
    remotes: &mut [remote_rows::Row; RECORDS],
    reply: &mut [u8; REPLY],
    lent: Lent,
    bytes: &[u8],
) -> Option<Head> {
    let table = &mut table[..lent.size];
    let remotes = &mut remotes[..lent.size];
    let reply = &mut reply[..lent.room];
    let head = match *bytes.first()? {
        0x10 => change_said(table::calls::remove(table, ssrc(bytes)?)),
        0x20 => heard(calls::datagram(remotes, &bytes[1..])),
        0x21 => add(remotes, bytes)?,
        0x22 => packet(calls::ask_to_pause(remotes, ssrc(bytes)?, reply, HOUSE)),
        0x23 => packet(calls::ask_to_resume(remotes, ssrc(bytes)?, reply, HOUSE)),
        0x24 => packet(calls::report(remotes, ssrc(bytes)?, reply, HOUSE)),
        0x25 => change_said(calls::media_seen(remotes, ssrc(bytes)?)),
        0x26 => change_said(calls::remove(remotes, ssrc(bytes)?)),
        0x30 => packet(write(reply, bytes)?),
        _ => serve(table, bytes, reply),
    };
    Some(head)
}

impl Console {
    pub(crate) fn call(&mut self, bytes: &[u8], out: &mut Output) -> Option<()> {
        let Console {
            table,
            remotes,
            reply,
            lent,
        } = self;
        let head = call(table, remotes, reply, *lent, bytes)?;
        out.say_head(head, reply);
        Some(())
    }
}

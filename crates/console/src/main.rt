// The console: a second line program. It has the line program's frames with a reply buffer and a table of any size in force, and frames for what that cannot
// show: remove, the receiver's table, the reply buffer's bytes, a record shown and lent, the writer, the walk (docs/CONSOLE.md). It is proved safe and ending; what it prints is
// compared with the second program.
#![tactic(auto)]

ghost use Rattle.std.specs.Prelude.{◌≡◌, ◌≤◌};
ghost use Rattle.console.specs.Lent.{records, reply_bytes};
ghost use Rattle.console.specs.declared.TheConstants.{RECORDS, REPLY};

mod calls;
mod lending;
mod number;
mod packet;
mod record;
mod remote_record;
mod say;
mod serve;

use lines::MOST_HELD;
use say::Output;
use standard::{LENT, next_line, put, start};

// "each has 65 records"
const RECORDS: usize = 65;

// "The reply buffer .. has 4,000 bytes"
const REPLY: usize = 4000;

// "the house SSRC, which is 1": the receiver's asks and reports come from it.
const HOUSE: u32 = 1;

// How many records and bytes a call is lent: no more than there are.
#[derive(Clone, Copy)]
struct Lent {
    size: usize,
    room: usize,
    ghost size_within: { size ≤ records },
    ghost room_within: { room ≤ reply_bytes },
}

// The two tables, the reply buffer, and how much of them is lent. Their lengths are the constants of their types, and those are the page's.
#[derive(Drop)]
struct Console {
    table: [rows::Row; RECORDS],
    remotes: [remote_rows::Row; RECORDS],
    reply: [u8; REPLY],
    lent: Lent,
    ghost has_records: { RECORDS ≡ records },
    ghost has_bytes: { REPLY ≡ reply_bytes },
}

impl Console {
    // "At the start each has 65 records, unused, every field 0, of which a call is lent the first 64. The reply buffer .. is lent whole".
    fn new() -> Console {
        Console {
            table: [rows::unused(); RECORDS],
            remotes: [remote_rows::unused(); RECORDS],
            reply: [0; REPLY],
            lent: Lent {
                size: sides::MOST_RECORDS,
                room: REPLY,
            },
        }
    }
}

fn main(rt: HostRuntime) {
    let mut console = Console::new();
    let mut output = Output::new();
    let mut line = [0u8; MOST_HELD];
    let mut input = [0u8; LENT];
    let mut reading = next_line(&rt, &mut input, &mut line, start());
    while reading.whole {
        if console
            .serve_line(&line, reading.held, &mut output)
            .is_none()
        {
            output.say_line();
        }
        // At once: who types lines sees an answer before the next line.
        if !put(&rt, output.answer()) {
            return;
        }
        reading = next_line(&rt, &mut input, &mut line, reading.piece);
    }
}

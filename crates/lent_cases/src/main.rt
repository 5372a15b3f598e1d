// The line program's frames served over records: by `owned`, and so by the calls of `lent` (document 01, "The line program"). Of each datagram the entries are
// counted by `walk`, and that count is the n that is printed. The answers must be those of the line program, which serves the same frames over rows of numbers.
#![tactic(auto)]

mod serve;

use frames::answer::{LINE, refused, say};
use frames::whole::REPLY_ROOM;
use lines::MOST_HELD;
use serve::serve_line;
use sides::MOST_RECORDS;
use standard::{LENT, next_line, put, start};

fn main(rt: HostRuntime) {
    // "all unused at first"
    let mut table = [sender::unused(); MOST_RECORDS];
    let mut reply = [0u8; REPLY_ROOM];
    let mut line = [0u8; MOST_HELD];
    let mut input = [0u8; LENT];
    let mut output = [0u8; LENT];
    let mut reading = next_line(&rt, &mut input, &mut line, start());
    while reading.whole {
        let head = serve_line(&mut table, &line, reading.held, &mut reply).unwrap_or(refused(
            LINE, 0,
        ));
        let written = say(head, &reply, &mut output, 0);
        if !put(&rt, &output[..written]) {
            return;
        }
        reading = next_line(&rt, &mut input, &mut line, reading.piece);
    }
}

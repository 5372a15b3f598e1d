// The line program (document 01, "The line program"): what stands in standard input is fed to the crate `feed`, and what comes out is written to standard
// output. A read or a write that fails ends the program with a line on standard error; of a line that was being read then, nothing is served.
#![tactic(auto)]

use frames::whole::REPLY_ROOM;
use lines::{MOST_HELD, MOST_READ};
use sides::MOST_RECORDS;
use standard::{LENT, more, next, put, start};

fn main(rt: HostRuntime) {
    let mut table = [rows::unused(); MOST_RECORDS];
    let mut line = [0u8; MOST_HELD];
    // Cleared here alone: each line finds in these what the line before it left.
    let mut bytes = [0u8; MOST_READ];
    let mut reply = [0u8; REPLY_ROOM];
    let mut input = [0u8; LENT];
    let mut output = [0u8; LENT];
    let mut held = 0;
    let mut piece = next(&rt, &mut input, start(), 0);
    while more(piece) {
        let fed = feed::feed(
            &mut table,
            &mut line,
            held,
            &mut bytes,
            &mut reply,
            &input[..piece.end],
            piece.at,
            &mut output,
        );
        if !put(&rt, &output[..fed.written]) {
            return;
        }
        held = fed.held;
        piece = next(&rt, &mut input, piece, fed.at);
    }
    if piece.failed {
        return;
    }
    let fed = feed::end(
        &mut table,
        &mut line,
        held,
        &mut bytes,
        &mut reply,
        &mut output,
    );
    put(&rt, &output[..fed.written]);
}

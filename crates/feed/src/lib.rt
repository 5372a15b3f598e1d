// The line program less its reads and writes (document 01, "The line program"): bytes of input are fed in, in pieces of any size, and the bytes of the
// answers come out. "It reads standard input, lines of lower-case hexadecimal, one frame a line, and prints one line for each."
#![tactic(auto)]

ghost use Rattle.std.specs.Prelude.{◌&&◌, ◌≡◌, ◌+◌, ◌-◌, ◌≤◌, ◌<◌, leb, ltb, drop, length};
ghost use Rattle.frames.specs.Whole.{longest};
ghost use Rattle.feed.specs.Feed.{Feeds, closing};
ghost use Rattle.feed.specs.code.Passing.{LineFeeds};

use frames::whole::{LONGEST, ReplyBuffer, answer};
use lines::gather::gather;
use lines::{Bytes, Line};
use rows::Row;

// Stays: table, line, bytes and reply come one by one, as `frames::whole::answer` takes them; in a struct they would be four references, which each caller has to
// make for each call, and each contract to name through it.

// How far the input is fed: how many bytes of the unfinished line are held, up to where the input is taken, and how many bytes of output are written.
#[derive(Clone, Copy)]
pub struct Fed {
    pub held: usize,
    pub at: usize,
    pub written: usize,
}

// A line, or what the input has of it.
fn feed_line(
    table: &mut [Row],
    line: &mut Line,
    bytes: &mut Bytes,
    reply: &mut ReplyBuffer,
    input: &[u8],
    out: &mut [u8],
    fed: Fed,
) -> Fed
    requires { (fed.at < length input.now) × (fed.written + longest ≤ length out.old) }
    ensures { LineFeeds
        (record { held = fed.held; line = line.old; table = table.old; buffers = record { bytes = bytes.old; reply = reply.old } })
        input.now out.old fed result
        (record { held = result.held; line = line.new; table = table.new; buffers = record { bytes = bytes.new; reply = reply.new } })
        out.new }
{
    let now = gather(line, fed.held, input, fed.at);
    if now.at < input.len() {
        let written = answer(table, line, now.held, bytes, reply, out, fed.written);
        Fed {
            held: 0,
            at: now.at + 1,
            written,
        }
    } else {
        Fed {
            held: now.held,
            at: now.at,
            ..fed
        }
    }
}

// Something is left to feed, and the longest answer has room.
fn going(input: &[u8], out: &[u8], fed: Fed) -> bool
    requires { fed.written ≤ length out.now }
    ensures { result ≡ (ltb fed.at (length input.now) && leb longest (length out.now - fed.written)) }
{
    fed.at < input.len() && LONGEST <= out.len() - fed.written
}

// Feeds the input from a place on, until it ends or the output has no room for the longest answer.
pub fn feed(
    table: &mut [Row],
    line: &mut Line,
    held: usize,
    bytes: &mut Bytes,
    reply: &mut ReplyBuffer,
    input: &[u8],
    at: usize,
    out: &mut [u8],
) -> Fed
    ensures { Feeds
        (record { held = held; line = line.old; table = table.old; buffers = record { bytes = bytes.old; reply = reply.old } })
        (drop at input.now) at out.old result
        (record { held = result.held; line = line.new; table = table.new; buffers = record { bytes = bytes.new; reply = reply.new } })
        out.new }
{
    let mut fed = Fed {
        held,
        at,
        written: 0,
    };
    while going(input, out, fed) {
        fed = feed_line(table, line, bytes, reply, input, out, fed);
    }
    fed
}

// "A line ends at a line feed or at the end of input; nothing after the last line feed is no line."
pub fn end(
    table: &mut [Row],
    line: &mut Line,
    held: usize,
    bytes: &mut Bytes,
    reply: &mut ReplyBuffer,
    out: &mut [u8],
) -> Fed
    ensures { Feeds
        (record { held = held; line = line.old; table = table.old; buffers = record { bytes = bytes.old; reply = reply.old } })
        (closing held) 0 out.old result
        (record { held = result.held; line = line.new; table = table.new; buffers = record { bytes = bytes.new; reply = reply.new } })
        out.new }
{
    let input: &[u8] = if held == 0 { b"" } else { b"\n" };
    feed(table, line, held, bytes, reply, input, 0, out)
}

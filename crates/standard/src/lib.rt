// Standard input in pieces, and standard output, for the programs that serve lines. A read or a write that fails is told on standard error, as the system names
// it, and the program that served until then ends.
#![tactic(auto)]

ghost use Rattle.std.specs.Prelude.{true, false, not, ◌&&◌, ◌≡◌, ◌-◌, ◌<◌, ltb, length};
ghost use Rattle.standard.specs.Piece.{left, last_line, Following, Lined};

use lines::Line;
use lines::gather::gather;
use std::io;
use std::io::Read;

// How many bytes a program lends for its input and for its output: so many that little time goes into the calls of the system.
pub const LENT: usize = 65536;

// Stays: `failed` and `whole` beside the values, since `Following` and `Lined` promise the piece, what is held and whether a read failed where no line is, too.

// What was read and is still to be served: the bytes of the lent input from `at` to `end`; whether the last read failed; and how many turns are left. Nothing
// says that the input ends, and a proved loop does: it counts down from a number of turns that no run uses up.
#[derive(Clone, Copy)]
pub struct Piece {
    pub at: usize,
    pub end: usize,
    pub turns: u64,
    pub failed: bool,
}

// Where a program stands that answers line by line: what is still to be served after the line, how many bytes of the line are held, and whether there is a line
// to answer.
#[derive(Clone, Copy)]
pub struct Reading {
    pub piece: Piece,
    pub held: usize,
    pub whole: bool,
}

// Before the first read.
pub fn start() -> Piece
    ensures { result ≡ record { at = 0; end = 0; turns = 18446744073709551615; failed = false } }
{
    Piece {
        at: 0,
        end: 0,
        turns: u64::MAX,
        failed: false,
    }
}

// Something is left to serve.
#[tactic(auto, unfolding(crate::specs::Piece::left))]
pub fn more(piece: Piece) -> bool
    ensures { result ≡ left piece }
{
    piece.at < piece.end && piece.turns > 0
}

// What failed, and why.
fn fail(rt: &HostRuntime, what: &str, why: io::Error) {
    let _ = eprintln!(rt; "{what}: {why}");
}

// The piece from a place on, or what is read next where nothing is left of it. At the end of the input, or where a read fails, it is empty.
pub fn next(rt: &HostRuntime, input: &mut [u8], piece: Piece, at: usize) -> Piece
    ensures { Following piece at input.old result input.new }
{
    let turns = piece.turns.saturating_sub(1);
    if at < piece.end && piece.end <= input.len() {
        return Piece {
            at,
            turns,
            failed: false,
            ..piece
        };
    }
    match rt.stdin().read(input) {
        Ok(end) => Piece {
            at: 0,
            end,
            turns,
            failed: false,
        },
        Err(why) => {
            fail(rt, "read", why);
            Piece {
                at: 0,
                end: 0,
                turns,
                failed: true,
            }
        }
    }
}

// The line has no line feed up to this place, where its piece ends, and more of it may follow.
fn goes_on(piece: Piece, at: usize) -> bool
    ensures { result ≡ (not (ltb at piece.end) && left piece) }
{
    at >= piece.end && more(piece)
}

// Nothing follows: what is held is the last line, unless a read failed or "nothing after the last line feed" is held. No turn is left.
fn last_line(held: usize, failed: bool) -> Reading
    ensures { result ≡ last_line held failed }
{
    Reading {
        piece: Piece {
            at: 0,
            end: 0,
            turns: 0,
            failed,
        },
        held,
        whole: !failed && held > 0,
    }
}

// The next line of the input, gathered piece by piece up to its line feed or the input's end: "nothing after the last line feed is no line". Of a line that a
// failed read cut, nothing is answered. After the last line no turn is left.
pub fn next_line(rt: &HostRuntime, input: &mut [u8], line: &mut Line, last: Piece) -> Reading
    ensures { Lined last line.old input.old result line.new input.new }
{
    if last.turns == 0 {
        return Reading {
            piece: last,
            held: 0,
            whole: false,
        };
    }
    let mut piece = next(rt, input, last, last.at);
    let mut end = piece.end;
    let mut got = gather(line, 0, &input[..end], piece.at);
    while goes_on(piece, got.at) {
        piece = next(rt, input, piece, end);
        end = piece.end;
        got = gather(line, got.held, &input[..end], piece.at);
    }
    if got.at < end {
        return Reading {
            piece: Piece {
                at: got.at + 1,
                end,
                turns: piece.turns,
                failed: false,
            },
            held: got.held,
            whole: true,
        };
    }
    last_line(got.held, piece.failed)
}

// Writes all of the bytes, or tells that it cannot. To write none never fails.
// Stays: a bool, since what failed is told here; as an `Err` of `main` it would be told once more, and the program's status would be another.
pub fn put(rt: &HostRuntime, bytes: &[u8]) -> bool
    ensures { length bytes.now ≡ 0 → result ≡ true }
{
    if bytes.is_empty() {
        return true;
    }
    match rt.write_all(bytes) {
        Ok(()) => true,
        Err(why) => {
            fail(rt, "write", why);
            false
        }
    }
}

// The bytes of a line, gathered from input that comes in pieces: "A line ends at a line feed or at the end of input".
ghost use Rattle.std.specs.Prelude.{◌≡◌, ℕ, ◌+◌, ◌-◌, ◌≤◌, Bool, true, not, ◌&&◌, fold, length, take, drop, ◌==◌, position};
ghost use Rattle.std.proofs.lemmas.List.Edits.{sets};
ghost use Rattle.lines.specs.Gather.{fitting, gathering, in_line, most_held};

use crate::{LINE_FEED, Line, MOST_HELD};

// How many bytes of the line are held, and where its line feed stands, or where the input ends.
#[derive(Clone, Copy)]
pub struct Gathered {
    pub held: usize,
    pub at: usize,
}

// None of the bytes is a line feed. No byte ends the look, so that all are looked at at once.
fn is_clear(bytes: &[u8]) -> bool
    ensures { result ≡ fold (λ (clear : Bool) (b : ℕ). clear && not (b == 10)) true bytes.now }
{
    bytes
        .iter()
        .fold(true, |clear, byte| clear & (*byte != LINE_FEED))
}

// How many bytes, 16 by 16, stand before the 16 that a line feed is among.
fn clear(bytes: &[u8]) -> usize
    ensures within { result ≤ length bytes.now }
    ensures clear { in_line bytes.now ≡ result + in_line (drop result bytes.now) }
{
    for (k, part) in bytes.chunks_exact(16).enumerate() {
        if !is_clear(part) {
            return 16 * k;
        }
    }
    bytes.len() / 16 * 16
}

// How many bytes stand before the first line feed, or in all where there is none.
fn in_line(bytes: &[u8]) -> usize
    ensures { result ≡ in_line bytes.now }
{
    let clear = clear(bytes);
    clear + first_feed(&bytes[clear..]).unwrap_or(bytes.len() - clear)
}

fn first_feed(bytes: &[u8]) -> Option<usize>
    ensures { result ≡ position (λ b. b == 10) bytes.now }
{
    bytes.iter().position(|byte| *byte == LINE_FEED)
}

// The place of the next line feed, or of the input's end. A place past the end is itself.
fn line_end(input: &[u8], from: usize) -> usize
    ensures { result ≡ from + in_line (drop from input.now) }
{
    match input.get(from..) {
        Some(rest) => from + in_line(rest),
        None => from,
    }
}

// How many of so many bytes more the line has place for.
fn fitting(held: usize, count: usize) -> usize
    ensures { result ≡ fitting held count }
{
    count.min(MOST_HELD.saturating_sub(held))
}

// So many bytes of the input from a place on, as far as they fit.
fn keep(line: &mut Line, held: usize, input: &[u8], from: usize, count: usize) -> usize
    requires { count ≤ length input.now - from }
    ensures { (result ≡ held + fitting held count)
        × (line.new ≡ sets line.old held (take (fitting held count) (drop from input.now))) }
{
    let fits = fitting(held, count);
    if fits > 0 {
        line[held..held + fits].copy_from_slice(&input[from..from + fits]);
    }
    held + fits
}

// The bytes of the input from a place on, up to the next line feed or the input's end, after those that the line holds. What is longer than can be held is read
// away.
pub fn gather(line: &mut Line, held: usize, input: &[u8], at: usize) -> Gathered
    ensures gathering { gathering line.old held input.now at ≡ record { held = result.held; at = result.at; line = line.new } }
    ensures within { (result.held ≤ held + (most_held - held)) × (at ≤ result.at) × (result.at ≤ at + (length input.now - at)) }
{
    let end = line_end(input, at);
    let held = keep(line, held, input, at, end - at);
    Gathered { held, at: end }
}

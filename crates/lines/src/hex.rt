// "lines of lower-case hexadecimal": read into bytes, and bytes printed.
ghost use Rattle.std.specs.Prelude.{◌≡◌, ◌+◌, ◌-◌, ◌*◌, ◌%◌, ◌<◌, ◌≤◌, true, ◌&&◌, ◌++◌, length, take, nat_le, fold, Bool, ℕ};
ghost use Rattle.std.proofs.lemmas.List.Edits.{sets};
ghost use Rattle.lines.specs.Hex.{are_digits, bytes_of, digit_of, digits_of, digits_read, is_digit, most_digits, printed, printing, value_of};
ghost use Rattle.lines.specs.code.Hex.{Within};

use crate::{Bytes, LINE_FEED, Line, MOST_DIGITS};

// "lower-case": the letters A to F are none.
fn is_digit(byte: u8) -> bool
    ensures { result ≡ is_digit byte }
{
    matches!(byte, b'0'..=b'9' | b'a'..=b'f')
}

// No byte ends the judging, so that many are judged at a time.
fn are_digits(digits: &[u8]) -> bool
    ensures { result ≡ fold (λ (good : Bool) (b : ℕ). good && is_digit b) true digits.now }
{
    digits
        .iter()
        .fold(true, |good, digit| good & is_digit(*digit))
}

// The value of a byte that is known to be a digit.
fn known(digit: u8) -> u8
    requires { is_digit digit ≡ true }
    ensures value { result ≡ value_of digit }
    ensures small { result < 16 }
{
    if digit < b'a' {
        digit - b'0'
    } else {
        digit - b'a' + 10
    }
}

// The bytes that the digits stand for. No digit is judged again.
fn join_all(digits: &[u8], bytes: &mut Bytes)
    requires { (length digits.now ≤ most_digits) × (length digits.now % 2 ≡ 0) × (are_digits digits.now ≡ true) }
    ensures { bytes.new ≡ sets bytes.old 0 (bytes_of digits.now) }
{
    for (k, pair) in digits.chunks_exact(2).enumerate() {
        bytes[k] = known(pair[0]) * 16 + known(pair[1]);
    }
}

// The bytes that a line stands for, which the first `held` bytes are, and how many, where it is hexadecimal. What is none changes no byte.
pub fn read(line: &Line, held: usize, bytes: &mut Bytes) -> Option<usize>
    ensures reading { digits_read (take held line.now) bytes.old ≡ record { digits = result; bytes = bytes.new } }
    ensures within { Within result }
{
    if held > MOST_DIGITS || held % 2 != 0 {
        return None;
    }
    let digits = &line[..held];
    if !are_digits(digits) {
        return None;
    }
    join_all(digits, bytes);
    Some(held / 2)
}

#[tactic(auto, unfolding(crate::specs::Hex::digit_of))]
fn digit(value: u8) -> u8
    requires { value < 16 }
    ensures { result ≡ digit_of value }
{
    if value < 10 {
        value + b'0'
    } else {
        value - 10 + b'a'
    }
}

// The digits of the bytes from a place of the output on, and the place after them.
fn put_digits(bytes: &[u8], out: &mut [u8], at: usize) -> usize
    requires { at + 2 * length bytes.now ≤ length out.old }
    ensures { (result ≡ at + 2 * length bytes.now) × (out.new ≡ sets out.old at (digits_of bytes.now)) }
{
    for (i, byte) in bytes.iter().enumerate() {
        out[at + 2 * i] = digit(*byte / 16);
        out[at + 2 * i + 1] = digit(*byte % 16);
    }
    at + 2 * bytes.len()
}

// The digits of both, and a line feed.
fn put_line(first: &[u8], then: &[u8], out: &mut [u8], at: usize) -> usize
    requires { at + (2 * (length first.now + length then.now) + 1) ≤ length out.old }
    ensures { (result ≡ at + (2 * (length first.now + length then.now) + 1))
        × (out.new ≡ sets out.old at (printed (first.now ++ then.now))) }
{
    let middle = put_digits(first, out, at);
    let end = put_digits(then, out, middle);
    out[end] = LINE_FEED;
    end + 1
}

// So many bytes and so many more have room from a place of the output on: two digits each, and a line feed.
fn has_room(room: usize, at: usize, first: usize, more: usize) -> bool
    ensures { result ≡ nat_le (at + (2 * (first + more) + 1)) room }
{
    at < room && first <= (room - at - 1) / 2 && more <= (room - at - 1) / 2 - first
}

// The digits of `first`, then those of `then`, and a line feed, from a place of the output on, and the place after them. Where they have no room, nothing is
// printed and the place comes back as it was.
pub fn print(first: &[u8], then: &[u8], out: &mut [u8], at: usize) -> usize
    ensures printing { printing (first.now ++ then.now) out.old at ≡ record { next = result; output = out.new } }
    ensures within { result ≤ at + (length out.old - at) }
{
    if has_room(out.len(), at, first.len(), then.len()) {
        put_line(first, then, out, at)
    } else {
        at
    }
}

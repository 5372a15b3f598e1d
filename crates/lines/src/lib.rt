// Lines of lower-case hexadecimal (document 01, "The line program"): gathered from the input, read into bytes, and bytes printed. Every program that reads lines
// stands on these.
#![tactic(auto)]

pub mod gather;
pub mod hex;
pub mod number;

// "over 3,100 digits"
const MOST_DIGITS: usize = 3100;

// Of an unfinished line one byte more is held, so that a longer line is known by its length.
pub const MOST_HELD: usize = MOST_DIGITS + 1;

// The bytes that so many digits stand for.
pub const MOST_READ: usize = MOST_DIGITS / 2;

const LINE_FEED: u8 = 10;

// The bytes of a line as far as they are held.
// Stays: a fixed array, and how much of it is held goes beside it: no heap, and `gathering` and `digits_read` promise the two by name.
pub type Line = [u8; MOST_HELD];

// The bytes that a line stands for.
pub type Bytes = [u8; MOST_READ];

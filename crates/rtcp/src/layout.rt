// The numbers of document 01, "The RTCP datagram", for all that is read and written.

// "A datagram has 1 to 1,500 bytes".
pub const MOST_BYTES: usize = 1500;

// "32-bit words"
pub const WORD: usize = 4;

pub const HEADER: usize = 4;

// The SSRCs of packet sender and media source.
pub const SOURCES: usize = 8;

// The bytes before the first entry of a packet.
pub const HEAD: usize = HEADER + SOURCES;

// An entry less its parameters, and where its type, parameter length and PauseID stand.
pub const ENTRY: usize = 8;

pub const KIND_AT: usize = 4;

pub const WORDS_AT: usize = 5;

pub const ID_AT: usize = 6;

// The packet of one entry without parameters.
pub const PACKET: usize = HEAD + ENTRY;

// As many entries as a datagram can have: 186.
pub const MOST_ENTRIES: usize = (MOST_BYTES - HEAD) / ENTRY;

pub const VERSION: u8 = 2;

// "type 205 with FMT 9"
pub const FEEDBACK: u8 = 205;

pub const PAUSE_RESUME: u8 = 9;

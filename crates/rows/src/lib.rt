// A row of eight numbers and the record that it is read as. Every pattern of numbers is a record.
#![tactic(auto)]

ghost use Rattle.std.specs.Prelude.{◌≡◌};
ghost use Rattle.rows.specs.Rows.{deadline_number, read_row, row_of, rows, state_number, state_of, store_row};
ghost use Rattle.sender.specs.Keeping.{blank};
ghost use Rattle.sender.specs.Serve.{holds, streams};

use counters::{PauseId, Seq};
use sides::keeps::Keeps;
use stream::{State, Stream};

// In order: in use, SSRC, state, deadline, current PauseID, next sequence number, hold-off, repeats left.
pub type Row = [u32; 8];

// A row that is not in use, with every number 0: what a host fills its table with.
pub fn unused() -> Row
    ensures { result ≡ row_of blank }
{
    [0; 8]
}

fn state_of(number: u32, deadline: u32) -> State
    ensures { result ≡ state_of number deadline }
{
    match number {
        0 => State::Playing,
        1 => State::Pausing(deadline),
        2 => State::Paused,
        _ => State::LocalPaused,
    }
}

fn state_numbers(state: State) -> (u32, u32)
    ensures { result ≡ (state_number state, deadline_number state) }
{
    match state {
        State::Playing => (0, 0),
        State::Pausing(deadline) => (1, deadline),
        State::Paused => (2, 0),
        State::LocalPaused => (3, 0),
    }
}

// The record that a row is read as.
// Stays: `read` and `row_of` are no `From`, since neither type is this crate's; and `%` before `as`, which no cast does without.
pub fn read(row: Row) -> Stream
    ensures { result ≡ read_row row }
{
    Stream {
        state: state_of(row[2], row[3]),
        ssrc: row[1],
        holdoff: row[6],
        current: PauseId((row[4] % 65536) as u16),
        next: Seq((row[5] % 65536) as u16),
        used: row[0] != 0,
        repeats: (row[7] % 256) as u8,
    }
}

// The row that a record is written as.
pub fn row_of(stream: Stream) -> Row
    ensures { result ≡ row_of stream }
{
    let (state, deadline) = state_numbers(stream.state);
    [
        u32::from(stream.used),
        stream.ssrc,
        state,
        deadline,
        u32::from(stream.current.0),
        u32::from(stream.next.0),
        stream.holdoff,
        u32::from(stream.repeats),
    ]
}

// The row after a record is stored over it: as it was, to the number, where the record is the one it is read as already.
pub fn store(mut row: Row, stream: Stream) -> Row
    ensures { result ≡ store_row row stream }
{
    Rows::store(&mut row, stream);
    row
}

// Streams kept as rows.
pub struct Rows;

impl Keeps for Rows {
    type Record = Stream;

    type Kept = Row;

    ghost keeping = { rows };

    ghost held = { holds };

    ghost used = { streams.used };

    fn read(kept: &Row) -> Stream {
        read(*kept)
    }

    // Compared before it is written: a row that is read as that record already keeps every number, and is not written.
    #[tactic(auto, unfolding(sides::specs::Rows::store_row))]
    fn store(kept: &mut Row, next: Stream) {
        let next = row_of(next);
        if row_of(read(*kept)) != next {
            *kept = next;
        }
    }

    // "Remove clears "in use" and changes nothing else."
    fn clear(kept: &mut Row) {
        kept[0] = 0;
    }

    // In use with the SSRC. The SSRC is compared first: it is the test that mostly fails.
    fn holds(kept: &Row, ssrc: u32) -> bool {
        kept[1] == ssrc && kept[0] != 0
    }

    fn is_used(kept: &Row) -> bool {
        kept[0] != 0
    }
}

// A row of five numbers and the record of a remote stream that it is read as. Every pattern of numbers is a record.
#![tactic(auto)]

ghost use Rattle.std.specs.Prelude.{◌≡◌};
ghost use Rattle.receiver.specs.Keeping.{blank};
ghost use Rattle.receiver.specs.Serve.{holds, remotes};
ghost use Rattle.remote_rows.specs.Rows.{left_number, read_row, row_of, rows, state_number, state_of};

use counters::PauseId;
use remote::{Remote, State};
use sides::keeps::Keeps;

// In order: in use, SSRC, state, repeats left, believed PauseID.
pub type Row = [u32; 5];

// A row that is not in use, with every number 0: what a host fills its table with.
pub fn unused() -> Row
    ensures { result ≡ row_of blank }
{
    [0; 5]
}

fn state_of(number: u32, left: u8) -> State
    ensures { result ≡ state_of number left }
{
    match number {
        1 => State::AskedToPause(left),
        2 => State::Paused,
        3 => State::AskedToResume(left),
        _ => State::Receiving,
    }
}

fn state_number(state: State) -> u32
    ensures { result ≡ state_number state }
{
    match state {
        State::Receiving => 0,
        State::AskedToPause(_) => 1,
        State::Paused => 2,
        State::AskedToResume(_) => 3,
    }
}

fn left_number(state: State) -> u32
    ensures { result ≡ left_number state }
{
    match state {
        State::Receiving | State::Paused => 0,
        State::AskedToPause(left) | State::AskedToResume(left) => u32::from(left),
    }
}

// The record that a row is read as.
pub fn read(row: Row) -> Remote
    ensures { result ≡ read_row row }
{
    // Stays: `as` is refused of a number that may be too wide, and `try_from` would bring a branch: of such a number the low bits count.
    Remote {
        ssrc: row[1],
        id: PauseId((row[4] % 65536) as u16),
        state: state_of(row[2], (row[3] % 256) as u8),
        used: row[0] != 0,
    }
}

// The row that a record is written as.
pub fn row_of(remote: Remote) -> Row
    ensures { result ≡ row_of remote }
{
    [
        u32::from(remote.used),
        remote.ssrc,
        state_number(remote.state),
        left_number(remote.state),
        u32::from(remote.id.0),
    ]
}

// Remote streams kept as rows.
pub struct RemoteRows;

impl Keeps for RemoteRows {
    type Record = Remote;

    type Kept = Row;

    ghost keeping = { rows };

    ghost held = { holds };

    ghost used = { remotes.used };

    fn read(kept: &Row) -> Remote {
        read(*kept)
    }

    // A row that is read as that record already stays as it was, to the number.
    #[tactic(auto, unfolding(sides::specs::Rows::store_row))]
    fn store(kept: &mut Row, next: Remote) {
        let row = row_of(next);
        if row_of(read(*kept)) != row {
            *kept = row;
        }
    }

    // "Remove clears "in use" and changes nothing else."
    fn clear(kept: &mut Row) {
        kept[0] = 0;
    }

    // In use with the SSRC. The SSRC is compared first: it is the test that mostly fails.
    fn holds(kept: &Row, ssrc: u32) -> bool {
        kept[1] == ssrc && kept[0] != 0
    }

    fn is_used(kept: &Row) -> bool {
        kept[0] != 0
    }
}

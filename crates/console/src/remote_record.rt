// A receiver's record in a frame: "in use (1: 00 or 01), SSRC (4), state (1: 00 Receiving, 01 Asked to pause, 02 Paused, 03 Asked to resume), believed PauseID (2),
// repeats left (1; 0 unless Asked, and passed over in lend unless Asked)". In a row the repeats stand before the PauseID.
use crate::number::put_number;
use crate::record::is_record;
use lines::number::{four, two};
use remote_rows::{Row, read, row_of};

// 00, and the record that the row is read as.
pub(crate) fn bytes_of(row: Row) -> [u8; 10] {
    let numbers = row_of(read(row));
    let mut bytes = [0u8; 10];
    put_number(&mut bytes, 1, numbers[0], 1);
    put_number(&mut bytes, 2, numbers[1], 4);
    put_number(&mut bytes, 6, numbers[2], 1);
    put_number(&mut bytes, 7, numbers[4], 2);
    put_number(&mut bytes, 9, numbers[3], 1);
    bytes
}

// The row of the record in a frame's bytes, after the frame's first byte and the place.
pub(crate) fn row_in(bytes: &[u8]) -> Option<Row> {
    if bytes.len() != 11 || !is_record(bytes[2], bytes[7]) {
        return None;
    }
    Some(row_of(read([
        u32::from(bytes[2]),
        four(bytes, 3),
        u32::from(bytes[7]),
        u32::from(bytes[10]),
        u32::from(two(bytes, 8)),
    ])))
}

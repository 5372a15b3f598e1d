// A record shown and lent, on either side, and a sender's record in a frame: "in use (1: 00 or 01), SSRC (4), state (1: 00 Playing, 01 Pausing, 02 Paused, 03 Local
// paused), deadline (4; 0 unless Pausing, and passed over in lend unless Pausing), current PauseID c (2), next sequence number (2), hold-off H (4), repeats left
// r (1)": a row's numbers in a row's order.
use crate::RECORDS;
use crate::number::put_number;
use lines::number::{four, two};
use rows::{Row, read, row_of};

// "record: place (1)": "the record at that place"; "a place over 64" is Line.
pub(crate) fn placed<R: Copy>(table: &[R; RECORDS], bytes: &[u8]) -> Option<R> {
    let [_, place] = *bytes else {
        return None;
    };
    table.get(usize::from(place)).copied()
}

// "lend: place (1), record": "the record at that place becomes this one".
pub(crate) fn lend<R: Copy>(table: &mut [R; RECORDS], bytes: &[u8], lent: R) -> Option<()> {
    let place = *bytes.get(1)?;
    *table.get_mut(usize::from(place))? = lent;
    Some(())
}

// "a used byte over 01, a state over 03" is Line.
pub(crate) fn is_record(used: u8, state: u8) -> bool {
    used <= 1 && state <= 3
}

// 00, and the record that the row is read as.
pub(crate) fn bytes_of(row: Row) -> [u8; 20] {
    let numbers = row_of(read(row));
    let mut bytes = [0u8; 20];
    put_number(&mut bytes, 1, numbers[0], 1);
    put_number(&mut bytes, 2, numbers[1], 4);
    put_number(&mut bytes, 6, numbers[2], 1);
    put_number(&mut bytes, 7, numbers[3], 4);
    put_number(&mut bytes, 11, numbers[4], 2);
    put_number(&mut bytes, 13, numbers[5], 2);
    put_number(&mut bytes, 15, numbers[6], 4);
    put_number(&mut bytes, 19, numbers[7], 1);
    bytes
}

// The row of the record in a frame's bytes, after the frame's first byte and the place.
pub(crate) fn row_in(bytes: &[u8]) -> Option<Row> {
    if bytes.len() != 21 || !is_record(bytes[2], bytes[7]) {
        return None;
    }
    Some(row_of(read([
        u32::from(bytes[2]),
        four(bytes, 3),
        u32::from(bytes[7]),
        four(bytes, 8),
        u32::from(two(bytes, 12)),
        u32::from(two(bytes, 14)),
        four(bytes, 16),
        u32::from(bytes[20]),
    ])))
}

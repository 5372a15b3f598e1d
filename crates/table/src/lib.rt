// The table of 1 to 64 streams, lent as rows of numbers: the datagram call, the local calls, add and remove (document 01, "The table").
// Every call answers for every table, datagram and buffer; a refusal changes no number of a row and no byte.
#![tactic(auto)]

ghost use Rattle.std.specs.Prelude.{refl};
ghost use Rattle.table.specs.code.Laws.{row_ssrc, row_stays, row_used};

pub mod calls;

use decide::kept::Streams;
use rows::Rows;

// Rows are a way of keeping the records of streams.
pub(crate) struct StreamRows;

impl Streams for StreamRows {
    type Way = Rows;

    ghost held = { refl };

    ghost used = { refl };

    ghost used_back = { row_used };

    ghost ssrc_back = { row_ssrc };

    ghost same = { row_stays };
}

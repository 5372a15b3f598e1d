// The datagram calls of `table` and of `remote_table` with plain numbers for an answer, so that `second/bench` can time them alone: without hexadecimal, and over many
// tables. `measured_c` exports them under names that Rust can link.
// This is no library for a host: an enum cannot cross into another language, and a host that takes a number for the answer is what document 01 forbids.
#![tactic(auto)]

pub mod receiving;

ghost use Rattle.std.specs.Prelude.{◌≡◌};
ghost use Rattle.sender.specs.Said.{datagram_said};
ghost use Rattle.sender.specs.Calls.{datagram_call};
ghost use Rattle.rows.specs.Rows.{rows};
ghost use Rattle.measured.specs.Plain.{Measures, numbers_of};

use cases::Case;
use rows::Row;
use sender::{Counts, DatagramRefusal};
use sides::numbers::DONE;
use table::calls;

// The number of the case, and its values in document 01's order: of Done the reply's length (where there can be a reply), n and u,
// of a refusal its place. What a case does not have is 0.
// Stays: a number for the case, since this crosses into C by `measured_c`.
#[repr(C)]
#[derive(Clone, Copy)]
pub struct Numbers {
    pub case: usize,
    pub first: usize,
    pub second: usize,
    pub third: usize,
}

pub(crate) fn refused(case: u8, place: usize) -> Numbers
    ensures { result ≡ record { case = case; first = place; second = 0; third = 0 } }
{
    Numbers {
        case: usize::from(case),
        first: place,
        second: 0,
        third: 0,
    }
}

fn numbered(answer: Result<Counts, DatagramRefusal>) -> Numbers
    ensures { result ≡ numbers_of (datagram_said answer) }
{
    match answer {
        Ok(counts) => Numbers {
            case: usize::from(DONE),
            first: counts.length,
            second: counts.entries,
            third: counts.unknown,
        },
        Err(DatagramRefusal::Refused(refusal)) => refused(refusal.number(), refusal.place),
        Err(refusal) => refused(refusal.number(), 0),
    }
}

pub fn measured_datagram(
    table: &mut [Row],
    datagram: &[u8],
    time: u32,
    buffer: &mut [u8],
) -> Numbers
    ensures { Measures (datagram_call rows datagram.now time table.old buffer.old) result table.new buffer.new }
{
    numbered(calls::datagram(table, datagram, time, buffer))
}

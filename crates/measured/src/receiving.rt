// The datagram call of the receiver's table, for the same measure.
ghost use Rattle.std.specs.Prelude.{[], ◌≡◌};
ghost use Rattle.receiver.specs.Said.{datagram_said};
ghost use Rattle.receiver.specs.Calls.{datagram_call};
ghost use Rattle.remote_rows.specs.Rows.{rows};
ghost use Rattle.measured.specs.Plain.{Measures, numbers_of};

use crate::{Numbers, refused};
use cases::Case;
use receiver::{Counts, DatagramRefusal};
use remote_rows::Row;
use remote_table::calls;
use sides::numbers::DONE;

// Stays: the like of the sender's, for refusals and counts of another type; one function for both would take a trait of two impls for six lines.
fn numbered(answer: Result<Counts, DatagramRefusal>) -> Numbers
    ensures { result ≡ numbers_of (datagram_said answer) }
{
    match answer {
        Ok(counts) => Numbers {
            case: usize::from(DONE),
            first: counts.entries,
            second: counts.unknown,
            third: 0,
        },
        Err(DatagramRefusal::Refused(refusal)) => refused(refusal.number(), refusal.place),
        Err(refusal) => refused(refusal.number(), 0),
    }
}

pub fn measured_remote_datagram(table: &mut [Row], datagram: &[u8]) -> Numbers
    ensures { Measures (datagram_call rows datagram.now table.old) result table.new [] }
{
    numbered(calls::datagram(table, datagram))
}

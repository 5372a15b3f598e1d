// The calls of `measured` as a static library, for `second/bench`: each export is the function of its name, with its clause.
// Stays: the C interface, which `second/bench` links by name and type.
#![tactic(auto)]

ghost use Rattle.std.specs.Prelude.{[]};
ghost use Rattle.sender.specs.Calls.{datagram_call};
ghost use Rattle.rows.specs.Rows.{rows};
ghost use Rattle.receiver.specs.Calls.{datagram_call as remote_datagram_call};
ghost use Rattle.remote_rows.specs.Rows.{rows as remote_rows_of};
ghost use Rattle.measured.specs.Plain.{Measures};

use measured::{Numbers, receiving};

#[unsafe(no_mangle)]
pub extern "C" fn measured_datagram(
    table: &mut [rows::Row],
    datagram: &[u8],
    time: u32,
    buffer: &mut [u8],
) -> Numbers
    ensures { Measures (datagram_call rows datagram.now time table.old buffer.old) result table.new buffer.new }
{
    measured::measured_datagram(table, datagram, time, buffer)
}

#[unsafe(no_mangle)]
pub extern "C" fn measured_remote_datagram(
    table: &mut [remote_rows::Row],
    datagram: &[u8],
) -> Numbers
    ensures { Measures (remote_datagram_call remote_rows_of datagram.now table.old) result table.new [] }
{
    receiving::measured_remote_datagram(table, datagram)
}

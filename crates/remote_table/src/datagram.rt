// The run of a checked datagram's entries over the rows, in one pass.
ghost use Rattle.std.specs.Prelude.{◌≡◌};
ghost use Rattle.rtcp.specs.Datagram.{entries, reading};
ghost use Rattle.sides.specs.code.Counted.{entries_of};
ghost use Rattle.receiver.specs.Serve.{turns, starts};
ghost use Rattle.remote_decide.specs.code.Decide.{passes_at};
ghost use Rattle.remote_decide.specs.code.Turning.{Through, Turned};
ghost use Rattle.remote_rows.specs.Rows.{rows};

use crate::calls::store;
use counters::Message;
use remote::passing::passes;
use remote_decide::datagram::take;
use remote_rows::{RemoteRows, Row};
use rtcp::Entry;
use rtcp::cursor::{Cursor, Entries};
use sides::keeps::{find, holder};

// Whether an entry does nothing to the record that was found: of the record nothing is looked at.
// Stays: `decide` has a `passes_at` and an `enter` too, which look at the current PauseID, have a time, and write; here none of it is.
fn passes_at(found: Option<usize>, entry: Entry) -> bool
    ensures { result ≡ passes_at found entry }
{
    found.is_some() && passes(Message::from(entry.kind))
}

// One entry: find the record, decide, store it. An entry that does nothing is gone past before its row is read. It tells whether the table knows the target.
fn enter(table: &mut [Row], entry: Entry) -> bool
    ensures { Turned rows table.old entry result table.new }
{
    let found = find::<RemoteRows>(table, entry.target);
    if passes_at(found, entry) {
        return true;
    }
    match take(holder::<RemoteRows>(table, found), entry) {
        Some(remote) => {
            store(table, found, remote);
            true
        }
        None => false,
    }
}

// All entries of an accepted datagram, in order. It gives u.
pub(crate) fn turns(table: &mut [Row], datagram: &[u8]) -> usize
    requires { reading datagram.now ≡ entries (entries_of (reading datagram.now)) }
    ensures { Through (turns rows (starts table.old) (entries_of (reading datagram.now))) result table.new }
{
    let all = Entries {
        datagram,
        cursor: Cursor::start(),
    };
    let mut unknown = 0;
    for entry in all {
        unknown += usize::from(!enter(table, entry));
    }
    unknown
}

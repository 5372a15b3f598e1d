// An index of a table's SSRCs, made once for a run of many searches. SSRCs are drawn at random, so a slot mostly has one record, and a search looks at one record.
ghost use Rattle.std.specs.Prelude.{◌≡◌, get_or};
ghost use Rattle.decide.specs.code.Index.{Indexed, marked, slot_of};
ghost use Rattle.decide.specs.code.Turning.{found};

use crate::kept::{Kept, Streams};
use sides::keeps::{Keeps, find_from};

// For each slot a place: no record in use whose SSRC has that slot stands before it. All 0 is an index of every table.
pub(crate) type Index = [u8; SLOTS];

// A prime, so that SSRCs that are given out in steps of a power of two do not share a slot.
pub(crate) const SLOTS: usize = 251;

// Fewer searches are not worth an index.
const FEW: usize = 8;

fn slot(ssrc: u32) -> usize
    ensures { result ≡ slot_of ssrc }
{
    (ssrc % SLOTS as u32) as usize
}

// The index with one record more, which stands before all those that were marked. A place past a byte is marked as the last byte.
fn mark<W: Streams>(index: &mut Index, kept: &Kept<W>, place: usize)
    ensures { index.new ≡ marked W.Way.keeping index.old kept.now place }
{
    if W::Way::is_used(kept) {
        index[slot(W::Way::read(kept).ssrc)] = place.min(255) as u8;
    }
}

// An index of the table, where there are enough searches to come. A slot that no record in use has gets the last place, past every record of a table of 64.
// It is made in place: handed back by value it is copied twice, which a datagram of one entry pays for.
pub(crate) fn make<W: Streams>(index: &mut Index, table: &[Kept<W>], searches: usize)
    requires { Indexed W.Way.keeping table.now index.old }
    ensures { Indexed W.Way.keeping table.now index.new }
{
    if searches < FEW {
        return;
    }
    *index = [255; SLOTS];
    for place in (0..table.len()).rev() {
        mark::<W>(index, &table[place], place);
    }
}

// The place of the first record in use with the SSRC, sought from the indexed place on.
// Stays: a fact of three contracts and no ghost field, since the table is lent beside its index and every entry changes it.
pub(crate) fn find_by<W: Streams>(index: &Index, table: &[Kept<W>], ssrc: u32) -> Option<usize>
    requires { Indexed W.Way.keeping table.now index.now }
    ensures { result ≡ found W.Way.keeping table.now ssrc }
{
    find_from::<W::Way>(table, ssrc, usize::from(index[slot(ssrc)]))
}

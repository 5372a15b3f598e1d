// The calls of the sender's table over whatever way a host keeps its records: each finds the record, decides, and stores what was decided. The crates `table` and
// `lent` give them for rows of numbers and for the records themselves.
ghost use Rattle.std.specs.Prelude.{◌≡◌};
ghost use Rattle.stream.specs.declared.Stream.{Stream};
ghost use Rattle.sender.specs.Serve.{holds, streams};
ghost use Rattle.decide.specs.code.Turning.{found, keeping, vacancy};

pub mod calls;
mod datagram;
mod index;

use sides::keeps::{Keeps, find as find_kept, find_vacant as find_vacant_kept, keep};
use stream::Stream;

// A way of keeping the records of streams.
pub trait Streams {
    type Way: Keeps<Record = Stream>;

    // What a search asks of a record is what the one-stream rules say of it.
    ghost held: { Self.Way.held ≡ holds };

    ghost used: { Self.Way.used ≡ streams.used };

    // Of every record that is stored "in use" and the SSRC are read back, and the record that stood there already is stored without a change.
    ghost used_back: { (a : Self.Way.Kept) (s : Stream) → (Self.Way.keeping.read (Self.Way.keeping.store a s)).used ≡ s.used };

    ghost ssrc_back: { (a : Self.Way.Kept) (s : Stream) → (Self.Way.keeping.read (Self.Way.keeping.store a s)).ssrc ≡ s.ssrc };

    ghost same: { (a : Self.Way.Kept) → Self.Way.keeping.store a (Self.Way.keeping.read a) ≡ a };
}

// A record as it is kept.
pub type Kept<W> = <<W as Streams>::Way as Keeps>::Kept;

// The place of the first record in use with the SSRC, if there is one.
fn find<W: Streams>(table: &[Kept<W>], ssrc: u32) -> Option<usize>
    ensures { result ≡ found W.Way.keeping table.now ssrc }
{
    find_kept::<W::Way>(table, ssrc)
}

// The place of the first record not in use, if there is one.
fn find_vacant<W: Streams>(table: &[Kept<W>]) -> Option<usize>
    ensures { result ≡ vacancy W.Way.keeping table.now }
{
    find_vacant_kept::<W::Way>(table)
}

// What was decided is stored where the record was found.
fn store<W: Streams>(table: &mut [Kept<W>], found: Option<usize>, next: Stream)
    ensures { table.new ≡ keeping W.Way.keeping table.old found next }
{
    if let Some(place) = found {
        keep::<W::Way>(table, place, next);
    }
}

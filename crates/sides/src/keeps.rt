// A table of records, each kept in the host's own way: how one is found, read, stored and cleared.
ghost use Rattle.std.specs.Prelude.{Bool, ◌≡◌, ◌<◌, ℕ, Some, length};
ghost use Rattle.serving.specs.Keeping.{Keeping};
ghost use Rattle.sides.specs.code.Places.{clearing, holder_at, storing};
ghost use Rattle.sides.specs.code.Search.{found_from, found_in, vacant_in};

// How a host keeps a record: as a row of numbers, say, or as the record itself.
pub trait Keeps {
    type Record: Copy;

    type Kept: Copy;

    ghost keeping: { Keeping Self.Record Self.Kept };

    // Whether a record is in use with the SSRC, and whether it is in use.
    ghost held: { Self.Record → ℕ → Bool };

    ghost used: { Self.Record → Bool };

    fn read(kept: &Self::Kept) -> Self::Record
        ensures { result ≡ keeping.read kept.now };

    fn store(kept: &mut Self::Kept, next: Self::Record)
        ensures { kept.new ≡ keeping.store kept.old next };

    fn clear(kept: &mut Self::Kept)
        ensures { kept.new ≡ keeping.clear kept.old };

    fn holds(kept: &Self::Kept, ssrc: u32) -> bool
        ensures { result ≡ held (keeping.read kept.now) ssrc };

    fn is_used(kept: &Self::Kept) -> bool
        ensures { result ≡ used (keeping.read kept.now) };
}

// The place of the first record in use with the SSRC, if there is one. The search stops there.
pub fn find<K: Keeps>(table: &[K::Kept], ssrc: u32) -> Option<usize>
    ensures is { result ≡ found_in K.keeping K.held table.now ssrc }
    ensures within { (i : ℕ) → result ≡ Some i → i < length table.now }
{
    table.iter().position(|kept| K::holds(kept, ssrc))
}

// The place of the first record in use with the SSRC that stands at a place or behind it.
pub fn find_from<K: Keeps>(table: &[K::Kept], ssrc: u32, from: usize) -> Option<usize>
    ensures is { result ≡ found_from K.keeping K.held table.now ssrc from }
    ensures within { (i : ℕ) → result ≡ Some i → i < length table.now }
{
    let behind = find::<K>(table.get(from..)?, ssrc)?;
    Some(from + behind)
}

// The place of the first record not in use, if there is one.
pub fn find_vacant<K: Keeps>(table: &[K::Kept]) -> Option<usize>
    ensures is { result ≡ vacant_in K.keeping K.used table.now }
    ensures within { (i : ℕ) → result ≡ Some i → i < length table.now }
{
    table.iter().position(|kept| !K::is_used(kept))
}

// The record at a place, which answers for the SSRC where a search found the place; past the table's end nobody does.
pub fn holder<K: Keeps>(table: &[K::Kept], place: Option<usize>) -> Option<K::Record>
    ensures { result ≡ holder_at K.keeping table.now place }
{
    let kept = table.get(place?)?;
    Some(K::read(kept))
}

// What was decided is stored where the record was found.
// Stays: `if place < table.len()` and not `if let Some(kept) = table.get_mut(place)`, of which the proof does not close: `get_mut` says nothing of what the table ends as.
pub fn keep<K: Keeps>(table: &mut [K::Kept], place: usize, next: K::Record)
    ensures { table.new ≡ storing K.keeping table.old place next }
{
    if place < table.len() {
        K::store(&mut table[place], next);
    }
}

// "Remove clears "in use" and changes nothing else."
pub fn clear<K: Keeps>(table: &mut [K::Kept], place: usize)
    ensures { table.new ≡ clearing K.keeping table.old place }
{
    if place < table.len() {
        K::clear(&mut table[place]);
    }
}

// What the two comparisons share: what differs is found row by row, 132 bytes of either screen at a time, and put into the list, entry after entry.
ghost use Rattle.std.specs.Prelude.{◌≡◌, ℕ, List, [], ◌+◌, ◌*◌, ◌/◌, ◌<◌, ◌≤◌, ltb, length, take, MatchResult};
ghost use Rattle.constants.specs.Sizes.{width, frame_size, frame_entry_size};
ghost use Rattle.differences.specs.ByRows.{by_rows};
ghost use Rattle.differences.specs.Compared.{compared_of};
ghost use Rattle.differences.specs.Compare.{outcome, listed};
ghost use Rattle.differences.specs.Put.{Room, Put};

use constants::refusal::Refusal;
use constants::sizes::WIDTH;

// Bytes of a row: of a frame's row, or of a memory's page.
pub const ROW: usize = WIDTH;

// What a list has of a row where it differs: the runs of a frame's row, or the bytes of a memory's page. `first` and `second`, `list` and `at`
// stay parameters of their own: the contracts speak of each, and a struct of two would be taken apart in every function.
pub trait Entry {
    // An entry as bytes, and how many they are.
    ghost SIZE: { ℕ };

    ghost bytes: { Self → List ℕ };

    // The entries of a row.
    ghost found: { ℕ → List ℕ → List ℕ → List Self };

    const SIZE: usize;

    // How many entries a row has.
    fn count(row: u8, first: &[u8; ROW], second: &[u8; ROW]) -> u8
        ensures { result ≡ length (found row first.now second.now) };

    // Puts the entries of a row from number `at` on, and says the number after them.
    fn put(list: &mut [u8], at: usize, row: u8, first: &[u8; ROW], second: &[u8; ROW]) -> usize
        requires { Room SIZE list.old at (found row first.now second.now) }
        ensures { Put SIZE bytes list.old at (found row first.now second.now) result list.new };

    // No entry is longer, no row has more of them than places, and one that is the same in both has none.
    ghost sized: { (entry : Self) → length (bytes entry) ≡ SIZE };

    ghost small: { SIZE ≤ frame_entry_size };

    ghost few: { (row : ℕ) (a b : List ℕ) → length (found row a b) ≤ width };

    ghost none: { (row : ℕ) (a : List ℕ) → found row a a ≡ [] };
}

// The bytes of a screen that is lent, or the refusal of one that is too short.
pub fn whole<const BYTES: usize>(screen: &[u8]) -> Result<&[u8; BYTES], Refusal>
    ensures { MatchResult result (λ bytes. (BYTES ≤ length screen.now) × (bytes.now ≡ take BYTES screen.now)) (λ refusal. (length screen.now < BYTES) × (refusal ≡ Refusal.TooShort)) }
{
    screen.first_chunk().ok_or(Refusal::TooShort)
}

// Lists all entries of two screens, or refuses where the list buffer is too small for them. What is asked of BYTES and CHUNK, and of LONGEST, the bytes of the longest list, stays in each contract: Rattle has no computed const argument, by which they would be numbers of rows.
pub fn list_all<E: Entry, const BYTES: usize, const CHUNK: usize, const LONGEST: usize>(
    first: &[u8; BYTES],
    second: &[u8; BYTES],
    list: &mut [u8],
) -> Result<usize, Refusal>
    requires chunks { (BYTES / CHUNK * CHUNK ≡ BYTES) × (CHUNK / width * width ≡ CHUNK) × (width ≤ CHUNK) × (CHUNK ≤ BYTES) × (BYTES ≤ frame_size) }
    requires longest { LONGEST ≡ BYTES * E.SIZE }
    ensures { outcome (compared_of result) list.new ≡ listed E.bytes (by_rows width E.found first.now second.now (BYTES / width) 0) list.old }
{
    if too_small::<E, BYTES, LONGEST>(first, second, list.len()) {
        return Err(Refusal::ListTooSmall);
    }
    Ok(put_all::<E, BYTES, CHUNK>(list, first, second))
}

// Whether a list buffer of so many bytes is too small for all entries; they are counted only where it does not hold every list. The length alone, as the list is lent on to be changed.
pub fn too_small<E: Entry, const BYTES: usize, const LONGEST: usize>(
    first: &[u8; BYTES],
    second: &[u8; BYTES],
    bytes: usize,
) -> bool
    requires rows { (BYTES / width * width ≡ BYTES) × (BYTES ≤ frame_size) }
    requires longest { LONGEST ≡ BYTES * E.SIZE }
    ensures { result ≡ ltb bytes (length (by_rows width E.found first.now second.now (BYTES / width) 0) * E.SIZE) }
{
    if LONGEST <= bytes {
        return false;
    }
    bytes < count_all::<E, BYTES>(first, second) * E::SIZE
}

// How many entries two screens have. Counted and put by walks of their own: as one over a closure, the closure would have to be lent the list. `as u8`, here and below: a row's number is below 65, and `try_from` would be a branch that is never taken.
fn count_all<E: Entry, const BYTES: usize>(first: &[u8; BYTES], second: &[u8; BYTES]) -> usize
    requires { (BYTES / width * width ≡ BYTES) × (BYTES ≤ frame_size) }
    ensures { result ≡ length (by_rows width E.found first.now second.now (BYTES / width) 0) }
{
    let (first, _) = first.as_chunks::<ROW>();
    let (second, _) = second.as_chunks::<ROW>();
    let mut count = 0;
    for (row, (was, is)) in first.iter().zip(second).enumerate() {
        count += usize::from(E::count(row as u8, was, is));
    }
    count
}

// Puts the entries of two screens. A chunk, some rows, is passed over where it is the same in both.
fn put_all<E: Entry, const BYTES: usize, const CHUNK: usize>(
    list: &mut [u8],
    first: &[u8; BYTES],
    second: &[u8; BYTES],
) -> usize
    requires chunks { (BYTES / CHUNK * CHUNK ≡ BYTES) × (CHUNK / width * width ≡ CHUNK) × (width ≤ CHUNK) × (CHUNK ≤ BYTES) × (BYTES ≤ frame_size) }
    requires room { Room E.SIZE list.old 0 (by_rows width E.found first.now second.now (BYTES / width) 0) }
    ensures { Put E.SIZE E.bytes list.old 0 (by_rows width E.found first.now second.now (BYTES / width) 0) result list.new }
{
    let (first, _) = first.as_chunks::<CHUNK>();
    let (second, _) = second.as_chunks::<CHUNK>();
    let mut next = 0;
    for (chunk, (was, is)) in first.iter().zip(second).enumerate() {
        if *was != *is {
            next = put_rows::<E, CHUNK>(list, next, chunk * (CHUNK / ROW), was, is);
        }
    }
    next
}

// Puts the entries of a chunk, whose first row has the number `from`.
fn put_rows<E: Entry, const CHUNK: usize>(
    list: &mut [u8],
    at: usize,
    from: usize,
    first: &[u8; CHUNK],
    second: &[u8; CHUNK],
) -> usize
    requires rows { (CHUNK / width * width ≡ CHUNK) × (from * width + CHUNK ≤ frame_size) }
    requires room { Room E.SIZE list.old at (by_rows width (λ (p : ℕ). E.found (from + p)) first.now second.now (CHUNK / width) 0) }
    ensures { Put E.SIZE E.bytes list.old at (by_rows width (λ (p : ℕ). E.found (from + p)) first.now second.now (CHUNK / width) 0) result list.new }
{
    let (first, _) = first.as_chunks::<ROW>();
    let (second, _) = second.as_chunks::<ROW>();
    let mut next = at;
    for (row, (was, is)) in first.iter().zip(second).enumerate() {
        next = E::put(list, next, (from + row) as u8, was, is);
    }
    next
}

// A pack of named traces: what stands at an offset of it.
ghost use Rattle.std.specs.Prelude.{◌≡◌, drop};
ghost use Rattle.listpack.specs.Pack.{entry_of, hung_by};

use bus::start::Hung;
use tracelisting::word::begins_with;

// Bytes of an entry's header, which has two lengths.
pub const HEADER_SIZE: usize = 8;

// What an entry's header says: the length of its name, and of its trace.
// Lengths and no parts, as the header has them (specs/Pack `entry_of`).
#[derive(Clone, Copy, Debug, PartialEq, Eq)]
pub struct Sizes {
    pub name: usize,
    pub trace: usize,
}

// What stands where an entry should: nothing, a cut entry, or a whole one. Three cases, each by its name: an `Option` within a `Result` would say no more.
#[derive(Clone, Copy, Debug, PartialEq, Eq)]
pub enum Entry {
    Nothing,
    Cut,
    Whole(Sizes),
}

// What stands at an offset of the pack: a header's eight bytes are the length of the name and that of the trace, both little-endian.
#[tactic(auto, unfolding(crate::specs::Pack::entry_of))]
pub fn entry_at(pack: &[u8], at: usize) -> Entry
    ensures { result ≡ entry_of (drop at pack.now) }
{
    match pack.get(at..) {
        None | Some([]) => Entry::Nothing,
        Some([n0, n1, n2, n3, t0, t1, t2, t3, rest @ ..]) => {
            // The library has no `From<u32> for usize`.
            let name = u32::from_le_bytes([*n0, *n1, *n2, *n3]) as usize;
            let trace = u32::from_le_bytes([*t0, *t1, *t2, *t3]) as usize;
            let both = name + trace;
            if both <= rest.len() {
                Entry::Whole(Sizes { name, trace })
            } else {
                Entry::Cut
            }
        }
        Some(_) => Entry::Cut,
    }
}

// The start that an entry's name asks for: that of an old cabinet where it begins with the word `upright` and a space.
pub fn hung_by(name: &[u8]) -> Hung
    ensures { result ≡ hung_by name.now }
{
    if begins_with(name, b"upright ") {
        Hung::Upright
    } else {
        Hung::UpsideDown
    }
}

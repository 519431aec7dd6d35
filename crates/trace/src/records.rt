// The trace as records: what stands at an offset of it.
ghost use Rattle.std.specs.Prelude.{◌≡◌, drop};
ghost use Rattle.trace.specs.Front.{front_of};

// What a record's header says: its kind, and the length of its payload.
#[derive(Clone, Copy, Debug, PartialEq, Eq)]
pub struct Header {
    // The number as it stands there: C is handed it of any record, whatever its kind (`ssd1815b_record`).
    pub kind: usize,
    pub length: usize,
}

// What stands where a header should: nothing, a cut record, or a whole one. Three cases, of which only one is a refusal: no Option and no Result says it in one word.
#[derive(Clone, Copy, Debug, PartialEq, Eq)]
pub enum Front {
    Nothing,
    Cut,
    Whole(Header),
}

// What stands at an offset of the trace: a header's four bytes are its payload's length and its kind, both little-endian.
// Slice and offset, as C lends them (`ssd1815b_record`). listpack's entries have such a function of their own: other lengths, and a format that no document has.
#[tactic(auto, unfolding(crate::specs::Front::front_of))]
pub fn front_at(trace: &[u8], at: usize) -> Front
    ensures { result ≡ front_of (drop at trace.now) }
{
    // A test and a part, and no `get(at..)`: that made a run of all kinds 2.0 instructions an event longer (28.7 for 26.7).
    if trace.len() <= at {
        return Front::Nothing;
    }
    match &trace[at..] {
        [low, high, kind_low, kind_high, payload @ ..] => {
            let length = usize::from(u16::from_le_bytes([*low, *high]));
            let kind = usize::from(u16::from_le_bytes([*kind_low, *kind_high]));
            if length <= payload.len() {
                Front::Whole(Header { kind, length })
            } else {
                Front::Cut
            }
        }
        _ => Front::Cut,
    }
}

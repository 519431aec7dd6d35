// Document 01, "Numbers given", and the refusals of document 02: each by name, and its number.
ghost use Rattle.std.specs.Prelude.{◌≡◌};
ghost use Rattle.constants.specs.Refusals.{number_of_refusal, number_met, number_counted, count_handed};

// The number of what is taken.
pub const TAKEN: u8 = 0;

// Why a call, an event or a record is refused.
#[derive(Clone, Copy, Debug, PartialEq, Eq)]
pub enum Refusal {
    // A lent state, memory or frame is too short.
    TooShort = 1,
    // The state image is out of its ranges.
    OutOfRange = 2,
    // A command byte outside the table, B9 to BF and F0 to FF apart, with no code awaited.
    OutsideTable = 3,
    // B9 to BF with no code awaited; a page above 8 in the page call.
    NoPage = 4,
    // An n of D3 or D4 that is not allowed; the code stays awaited.
    NotAllowed = 5,
    // A data write or read while a code is awaited.
    CodeAwaited = 6,
    // A data write or read with the column above 131.
    ColumnAbove = 7,
    // One to three bytes where a header should stand, or a payload past the end.
    HeaderCut = 8,
    // A kind that is not 1 to 4 (in a wide trace 1 to 5), or kind 4 with a payload.
    KindUnknown = 9,
    // A compared read differs; that read has not happened.
    ReadDiffers = 10,
    // A list buffer is too small for all entries.
    ListTooSmall = 11,
    // A byte of a compared frame is above 1.
    FrameByteAbove = 12,
    // A selection that is not left, right or both: a select payload, or a call's, that is not one byte of 1 to 3.
    NoSelection = 13,
    // A read with both chips selected.
    BothSelected = 14,
    // A command byte F0 to FF, test mode, with no code awaited.
    TestMode = 15,
}

impl From<Refusal> for u8 {
    ghost from_gives = { λ refusal number. number ≡ number_of_refusal refusal };

    // The number of a refusal.
    fn from(refusal: Refusal) -> u8 {
        refusal as u8
    }
}

// The number that C is handed: 0 where nothing is refused.
pub fn number_met(met: Result<(), Refusal>) -> u8
    ensures { result ≡ number_met met }
{
    match met {
        Ok(()) => TAKEN,
        Err(refusal) => u8::from(refusal),
    }
}

// The number for C of a count that may be refused; the count goes to where the host wants it, 0 where it is refused.
pub fn hand_count(counted: Result<usize, Refusal>, count: &mut usize) -> u8
    ensures number { result ≡ number_counted counted }
    ensures count { count.new ≡ count_handed counted }
{
    match counted {
        Ok(all) => {
            *count = all;
            TAKEN
        }
        Err(refusal) => {
            *count = 0;
            u8::from(refusal)
        }
    }
}

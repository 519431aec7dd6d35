// The image of the registers: its ranges, and the registers loaded from it and stored to it.
ghost use Rattle.std.specs.Prelude.{◌≡◌};
ghost use Rattle.codes.specs.OneOf.{one_of};
ghost use Rattle.bus.specs.Answer.{asked_of};
ghost use Rattle.bus.specs.Registers.{image_of, registers_of, largest_values};
ghost use Rattle.bus.specs.Image.{within, awaited_codes, legal, short, asked_state, asked, stored};

use crate::places::load;
use crate::registers::Registers;
use constants::refusal::Refusal;
use constants::sizes::{IMAGE_SIZE, MEMORY_SIZE};

// Asks a lent state and memory first for their lengths and then for the state's ranges.
pub fn ask(state: &[u8], memory: &[u8]) -> Result<Registers, Refusal>
    ensures { asked_of result ≡ asked state.now memory.now }
{
    if short(state, memory) {
        return Err(Refusal::TooShort);
    }
    ask_state(state)
}

// Asks a lent state alone, first for its length and then for its ranges.
pub fn ask_state(state: &[u8]) -> Result<Registers, Refusal>
    ensures { asked_of result ≡ asked_state state.now }
{
    let Some(image) = state.first_chunk::<IMAGE_SIZE>() else {
        return Err(Refusal::TooShort);
    };
    if legal(state) {
        return Ok(load(image));
    }
    Err(Refusal::OutOfRange)
}

// Whether a lent state or memory is too short.
#[tactic(auto, unfolding(crate::specs::Image::short))]
pub fn short(state: &[u8], memory: &[u8]) -> bool
    ensures { result ≡ short state.now memory.now }
{
    state.len() < IMAGE_SIZE || memory.len() < MEMORY_SIZE
}

// Whether an image is in its ranges; one that is too short is not.
pub fn legal(image: &[u8]) -> bool
    ensures { result ≡ legal image.now }
{
    let Some(image) = image.first_chunk::<IMAGE_SIZE>() else {
        return false;
    };
    let registers = load(image);
    registers.within()
        && awaitable(registers.awaited)
        && (registers.saved == 0 || registers.modify != 0)
}

// Whether a code is one of the seven that can be awaited, 0 among them. No other is below 81; that is asked first for speed (DECISIONS 36).
#[tactic(auto, unfolding(crate::specs::Image::awaited_codes))]
fn awaitable(code: u8) -> bool
    ensures { result ≡ one_of awaited_codes code }
{
    if code < 0x81 {
        return code == 0;
    }
    matches!(code, 0x81 | 0xA8 | 0xA9 | 0xAD | 0xD3 | 0xD4)
}

impl Registers {
    // Whether each is at most its largest value, which of four is the largest byte. Those that single events store are asked by themselves, since a load of several bytes
    // waits for such stores (DECISIONS 194); the others together, by the bits that none in its range has: a test of each takes 11.0 to 12.6 ns a command call for 9.4.
    fn within(self) -> bool
        ensures { result ≡ within largest_values (image_of self) }
    {
        let four = u32::from_le_bytes([self.offset, self.multiplex, self.contrast, self.ratio]);
        let two = u16::from_le_bytes([self.power, self.bias]);
        let eight = u64::from_le_bytes([
            self.phases,
            self.column_direction,
            self.row_direction,
            self.entire,
            self.reverse,
            self.on,
            self.indicator,
            self.mode,
        ]);
        (self.page <= 8)
            & (self.start <= 63)
            & (four & 0xF8C0_C0C0 == 0)
            & (two & 0xFEF8 == 0)
            & (self.quarter <= 1)
            & (eight & 0xFCFE_FEFE_FEFE_FEFC == 0)
            & (self.modify <= 1)
            & (self.fresh <= 1)
    }

    // Stores the image in the first 23 bytes of a lent state; one that is too short stays as it is.
    #[tactic(auto, unfolding(crate::specs::Image::stored))]
    pub fn store(self, state: &mut [u8])
        ensures { state.new ≡ stored self state.old }
    {
        if let Some(image) = state.first_chunk_mut::<IMAGE_SIZE>() {
            *image = self.image();
        }
    }

    // The image of the registers, by name in the document's order: a struct is no array; this and `store` are public calls (specs/Settled).
    pub fn image(self) -> [u8; IMAGE_SIZE]
        ensures { result ≡ image_of self }
    {
        [
            self.page,
            self.column,
            self.start,
            self.offset,
            self.multiplex,
            self.contrast,
            self.ratio,
            self.power,
            self.bias,
            self.quarter,
            self.held,
            self.phases,
            self.column_direction,
            self.row_direction,
            self.entire,
            self.reverse,
            self.on,
            self.indicator,
            self.mode,
            self.awaited,
            self.modify,
            self.saved,
            self.fresh,
        ]
    }
}

// The two starts: the registers and the memory that a host and the listing program begin with.
ghost use Rattle.std.specs.Prelude.{◌≡◌, ◌++◌, ◌≤◌, length, drop};
ghost use Rattle.constants.specs.Sizes.{memory_size};
ghost use Rattle.constants.specs.Refusals.{number_met};
ghost use Rattle.bus.specs.Places.{column_direction, row_direction};
ghost use Rattle.bus.specs.Registers.{◌with◌≔◌};
ghost use Rattle.bus.specs.Start.{registers_at_start, memory_at_start, started, start_of};

use crate::image::short;
use crate::registers::Registers;
use constants::refusal::Refusal;
use constants::sizes::MEMORY_SIZE;

// How the module hangs in its cabinet: upside down in a new one, upright in an old one.
#[derive(Clone, Copy, Debug, PartialEq, Eq)]
pub enum Hung {
    UpsideDown,
    Upright,
}

// Puts the image of the registers at the start into the state and zeros into the memory, or refuses 1.
pub fn start(hung: Hung, state: &mut [u8], memory: &mut [u8]) -> Result<(), Refusal>
    ensures { started (number_met result) state.new memory.new ≡ start_of hung state.old memory.old }
{
    if short(state, memory) {
        return Err(Refusal::TooShort);
    }
    let registers = registers_at_start(hung);
    registers.store(state);
    clear(memory);
    Ok(())
}

// The registers at power-on, turned as the module hangs.
fn registers_at_start(hung: Hung) -> Registers
    ensures { result ≡ registers_at_start hung }
{
    let registers = Registers::power_on();
    match hung {
        Hung::UpsideDown => registers.upside_down(),
        Hung::Upright => registers,
    }
}

impl Registers {
    // Both directions 1: half a turn of the rows in use.
    fn upside_down(mut self) -> Registers
        ensures { result ≡ (self with column_direction ≔ 1 with row_direction ≔ 1) }
    {
        self.column_direction = 1;
        self.row_direction = 1;
        self
    }
}

// Sets each byte of the display memory to 0; bytes past it stay.
fn clear(memory: &mut [u8])
    requires { memory_size ≤ length memory.old }
    ensures { memory.new ≡ memory_at_start ++ drop memory_size memory.old }
{
    memory[..MEMORY_SIZE].fill(0);
}

// The two starts.
ghost use Rattle.std.specs.Prelude.{◌≡◌};
ghost use Rattle.bus.specs.Start.{started, start_of};
ghost use Rattle.bus.specs.declared.start.Hung.{Hung};

use bus::start::Hung;
use constants::refusal::number_met;

// In C's form (lib.rt).

// The start of a new cabinet, whose module hangs upside down: puts its image into the state and zeros into the memory, or refuses 1.
#[unsafe(no_mangle)]
pub extern "C" fn ssd1815b_start(state: &mut [u8], memory: &mut [u8]) -> u8
    ensures { started result state.new memory.new ≡ start_of Hung.UpsideDown state.old memory.old }
{
    number_met(bus::start::start(Hung::UpsideDown, state, memory))
}

// The same of an old cabinet, whose module hangs upright.
#[unsafe(no_mangle)]
pub extern "C" fn ssd1815b_start_upright(state: &mut [u8], memory: &mut [u8]) -> u8
    ensures { started result state.new memory.new ≡ start_of Hung.Upright state.old memory.old }
{
    number_met(bus::start::start(Hung::Upright, state, memory))
}

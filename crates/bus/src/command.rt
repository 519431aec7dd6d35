// The command byte and the reset pin.
// `inline(always)`: into the loop of the run (DECISIONS 230).
ghost use Rattle.std.specs.Prelude.{◌≡◌};
ghost use Rattle.bus.specs.Answer.{answer_of};
ghost use Rattle.bus.specs.Events.{command, silently, reset_pin};

use crate::obey::obey;
use crate::registers::Registers;
use constants::refusal::Refusal;

impl Registers {
    // A command byte: a command where no code is awaited, else the n of the awaited code.
    #[inline(always)]
    pub fn command(mut self, byte: u8) -> Result<Registers, Refusal>
        ensures { answer_of result ≡ command byte self }
    {
        let named = codes::meaning_of(self.awaited, byte);
        obey(&mut self, named)?;
        Ok(self)
    }

    // A pulse on the reset pin: the power-on state, whatever the state was.
    #[inline(always)]
    pub fn reset_pin(self) -> Registers
        ensures { silently result ≡ reset_pin self }
    {
        Registers::power_on()
    }
}

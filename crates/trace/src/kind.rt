// The kinds of records, and what a chip does for each.
// `inline(always)`: into the loop of the run (DECISIONS 230).
ghost use Rattle.std.specs.Prelude.{◌≡◌};
ghost use Rattle.bus.specs.Stretch.{stretch, stretch_of};
ghost use Rattle.trace.specs.Kinds.{replay, chip_of};
ghost use Rattle.trace.specs.Code.{Named, recorded_in};

use crate::records::Header;
use bus::registers::Registers;
use bus::stretch::{Stretch, commands, reads, reset_pin, writes};
use constants::refusal::Refusal;

// What a record's payload is: command bytes, data written, bytes that the firmware read, or nothing where the reset pin was pulsed.
#[derive(Clone, Copy, Debug, PartialEq, Eq)]
pub enum Kind {
    Commands,
    Writes,
    Reads,
    Reset,
}

impl TryFrom<Header> for Kind {
    type Error = Refusal;

    ghost try_from_gives = { Named };

    // The kind that a header names: 1 to 4, and 4 with no payload.
    #[tactic(auto, unfolding(crate::specs::Kinds::events_of, crate::specs::Code::recorded_in))]
    fn try_from(header: Header) -> Result<Kind, Refusal> {
        match header.kind {
            1 => Ok(Kind::Commands),
            2 => Ok(Kind::Writes),
            3 => Ok(Kind::Reads),
            4 if header.length == 0 => Ok(Kind::Reset),
            _ => Err(Refusal::KindUnknown),
        }
    }
}

impl Kind {
    // What a chip does for a record of this kind, by its payload.
    #[tactic(auto, unfolding(crate::specs::Code::recorded_in))]
    #[inline(always)]
    pub fn obey(self, registers: Registers, memory: &mut [u8], payload: &[u8]) -> Stretch
        ensures { stretch_of result memory.new ≡ stretch replay (recorded_in self payload.now) (chip_of registers memory.old) }
    {
        match self {
            Kind::Commands => commands(registers, payload),
            Kind::Writes => writes(registers, memory, payload),
            Kind::Reads => reads(registers, memory, payload),
            Kind::Reset => reset_pin(registers),
        }
    }
}

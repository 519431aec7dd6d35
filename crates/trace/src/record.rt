// One record: its header is checked before its payload acts, and what it does is one call on the bus.
// `inline(always)`: into the loop of the run (DECISIONS 230).
ghost use Rattle.std.specs.Prelude.{◌≡◌, ◌+◌, ◌<◌, ◌^◌, drop};
ghost use Rattle.trace.specs.Records.{record_at};
ghost use Rattle.trace.specs.Front.{front_of};
ghost use Rattle.trace.specs.Play.{play_record};
ghost use Rattle.trace.specs.Kinds.{the_chip, chip_of};
ghost use Rattle.trace.specs.Code.{ending_of, ended_at};

use crate::kind::Kind;
use crate::records::{Front, Header};
use crate::run::Halt;
use bus::registers::Registers;
use bus::stretch::Stretch;
use constants::sizes::HEADER_SIZE;

// How a record ends: the registers that it leaves, and what it stops at, unless all is done.
#[derive(Clone, Copy)]
pub struct Ending {
    pub registers: Registers,
    pub outcome: Result<(), Halt>,
}

// The record with this header that stands at an offset of the trace: trace and offset are what the promise speaks of (`record_at at (drop at trace)`).
#[inline(always)]
pub fn obey(
    header: Header,
    registers: Registers,
    memory: &mut [u8],
    trace: &[u8],
    at: usize,
) -> Ending
    requires { front_of (drop at trace.now) ≡ Front.Whole header }
    ensures { ending_of result memory.new ≡ play_record the_chip (record_at at (drop at trace.now)) (chip_of registers memory.old) }
{
    let from = at + HEADER_SIZE;
    let to = from + header.length;
    match Kind::try_from(header) {
        Ok(kind) => ended(kind.obey(registers, memory, &trace[from..to]), from),
        Err(refusal) => Ending {
            registers,
            outcome: Err(Halt {
                refusal,
                offset: at,
            }),
        },
    }
}

// A stretch that began at an offset.
#[inline(always)]
fn ended(stretch: Stretch, from: usize) -> Ending
    requires { from + stretch.count < 2 ^ 64 }
    ensures { result ≡ ended_at (from + stretch.count) stretch }
{
    let offset = from + stretch.count;
    Ending {
        registers: stretch.registers,
        outcome: stretch.outcome.map_err(|refusal| Halt { refusal, offset }),
    }
}

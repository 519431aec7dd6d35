// The run of a trace on a lent state and memory.
// `inline(always)`: into the loop of the run (DECISIONS 230).
ghost use Rattle.std.specs.Prelude.{◌≡◌};
ghost use Rattle.trace.specs.Records.{split};
ghost use Rattle.trace.specs.Play.{play};
ghost use Rattle.trace.specs.Kinds.{the_chip, chip_of};
ghost use Rattle.trace.specs.Code.{stop_met, played_of};
ghost use Rattle.trace.specs.Run.{ran, run};

use crate::reader::Reader;
use crate::record::obey;
use crate::records::Front;
use bus::image::ask;
use bus::registers::Registers;
use constants::refusal::Refusal;
use constants::sizes::HEADER_SIZE;

// What a record stops at: a refusal, and the offset of the byte that it is of.
#[derive(Clone, Copy, Debug, PartialEq, Eq)]
pub struct Halt {
    pub refusal: Refusal,
    pub offset: usize,
}

// Where a run stopped: with what refusal, unless all is taken, at which offset, and after how many whole records.
#[derive(Clone, Copy, Debug, PartialEq, Eq)]
pub struct Stop {
    pub outcome: Result<(), Refusal>,
    pub offset: usize,
    pub count: usize,
}

// A played trace: where it stopped, and the registers that it leaves.
#[derive(Clone, Copy)]
pub struct Played {
    pub stop: Stop,
    pub registers: Registers,
}

// Runs a trace, record by record, up to the first refusal. No `?`: a refused run answers an offset and a count too.
pub fn run(state: &mut [u8], memory: &mut [u8], trace: &[u8]) -> Stop
    ensures { ran (stop_met result) state.new memory.new ≡ run state.old memory.old trace.now }
{
    match ask(state, memory) {
        Ok(registers) => {
            let played = play(registers, memory, trace);
            let left = played.registers;
            left.store(state);
            played.stop
        }
        Err(refusal) => Stop {
            outcome: Err(refusal),
            offset: 0,
            count: 0,
        },
    }
}

// Plays the records of a trace from given registers and memory.
#[inline(always)]
pub fn play(mut registers: Registers, memory: &mut [u8], trace: &[u8]) -> Played
    ensures { played_of result memory.new ≡ play the_chip (split trace.now) (chip_of registers memory.old) }
{
    // No `for` over the records: the answer has the reader's place and the count, which a `for` keeps to itself, and the reader moves as document 01's cursor (ReaderWalk).
    let mut reader = Reader::new(trace);
    let mut count = 0;
    loop {
        let at = reader.at;
        match reader.next() {
            Front::Nothing => return end(Ok(()), at, count, registers),
            Front::Cut => return end(Err(Refusal::HeaderCut), at, count, registers),
            Front::Whole(header) => {
                let ending = obey(header, registers, memory, trace, at);
                let left = ending.registers;
                if let Err(halt) = ending.outcome {
                    return end(Err(halt.refusal), halt.offset, count, left);
                }
                registers = left;
                reader = reader.moved(at + HEADER_SIZE + header.length);
                count += 1;
            }
        }
    }
}

// The end of a played trace.
#[inline(always)]
fn end(outcome: Result<(), Refusal>, offset: usize, count: usize, registers: Registers) -> Played
    ensures { result ≡ record { stop = record { outcome = outcome; offset = offset; count = count }; registers = registers } }
{
    Played {
        stop: Stop {
            outcome,
            offset,
            count,
        },
        registers,
    }
}

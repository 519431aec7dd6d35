// One chip of the terminal by itself: it plays what it hears of a trace, up to an offset.
ghost use Rattle.std.specs.Prelude.{◌≡◌};
ghost use Rattle.trace.specs.Records.{split};
ghost use Rattle.trace.specs.Play.{play};
ghost use Rattle.trace.specs.Kinds.{chip_of};
ghost use Rattle.widebus.specs.declared.selection.Selection.{Selection};
ghost use Rattle.widetrace.specs.Sides.{one_side, the_side, up_to, side_played_of, size_before};

use crate::heed::{Heed, heed_of};
use bus::registers::Registers;
use constants::refusal::Refusal;
use constants::sizes::HEADER_SIZE;
use trace::reader::read_at;
use trace::records::Front;
use trace::run::Stop;
use widebus::selection::{Selection, Side};

// A played trace: where it stopped, and the registers and the selection that it leaves.
#[derive(Clone, Copy)]
pub struct SidePlayed {
    pub stop: Stop,
    pub registers: Registers,
    pub selection: Selection,
}

// Plays what a chip hears of a trace, up to an offset, from given registers and memory with both chips selected.
// A limit and no shorter trace: a record that the limit cuts is played as far as it, and is not cut (8).
pub fn play_side(
    side: Side,
    mut registers: Registers,
    memory: &mut [u8],
    trace: &[u8],
    limit: usize,
) -> SidePlayed
    ensures { side_played_of result memory.new ≡ play (the_side side) (up_to limit (split trace.now)) (one_side (chip_of registers memory.old) Selection.Both) }
{
    let mut selection = Selection::Both;
    // No `for` over the records: the answer has the place and the count, and the last record may be cut off by the limit.
    let mut at = 0;
    let mut count = 0;
    while at < limit {
        match read_at(trace, at) {
            Front::Nothing => return end(Ok(()), at, count, registers, selection),
            Front::Cut => return end(Err(Refusal::HeaderCut), at, count, registers, selection),
            Front::Whole(header) => {
                let from = at + HEADER_SIZE;
                let to = from + size_before(limit, from, header.length);
                match heed_of(side, selection, header.kind, at, &trace[from..to]) {
                    Ok(Heed::Obeys(kind)) => {
                        let stretch = kind.obey(registers, memory, &trace[from..to]);
                        registers = stretch.registers;
                        if let Err(refusal) = stretch.outcome {
                            let offset = from + stretch.count;
                            return end(Err(refusal), offset, count, registers, selection);
                        }
                        at = from + header.length;
                        count += 1;
                    }
                    Ok(Heed::Passes(next)) => {
                        selection = next;
                        at = from + header.length;
                        count += 1;
                    }
                    Err(halt) => {
                        return end(Err(halt.refusal), halt.offset, count, registers, selection);
                    }
                }
            }
        }
    }
    end(Ok(()), at, count, registers, selection)
}

// How many bytes of a payload that begins at an offset lie before a limit.
#[tactic(auto, unfolding(crate::specs::Sides::size_before))]
fn size_before(limit: usize, from: usize, size: usize) -> usize
    ensures { result ≡ size_before limit from size }
{
    size.min(limit.saturating_sub(from))
}

// The end of a played trace: trace's has no selection.
fn end(
    outcome: Result<(), Refusal>,
    offset: usize,
    count: usize,
    registers: Registers,
    selection: Selection,
) -> SidePlayed
    ensures { result ≡ record { stop = record { outcome = outcome; offset = offset; count = count }; registers = registers; selection = selection } }
{
    SidePlayed {
        stop: Stop {
            outcome,
            offset,
            count,
        },
        registers,
        selection,
    }
}

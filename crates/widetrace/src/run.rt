// The run of a trace on the lent states and memories of a wide terminal.
ghost use Rattle.std.specs.Prelude.{◌≡◌, ◌≤◌, length};
ghost use Rattle.constants.specs.Sizes.{memory_size};
ghost use Rattle.trace.specs.Code.{stop_met};
ghost use Rattle.trace.specs.Records.{split};
ghost use Rattle.trace.specs.Play.{play};
ghost use Rattle.widebus.specs.Pair.{both_lent, chips_of};
ghost use Rattle.widetrace.specs.Terminal.{terminal, the_terminal};
ghost use Rattle.widetrace.specs.Code.{wide_played, wide_played_of};
ghost use Rattle.widetrace.specs.WideRun.{wide_ran, wide_run};
ghost use Rattle.widebus.specs.declared.selection.Selection.{Selection};

use crate::kept::{copied, put_back};
use crate::side::play_side;
use bus::registers::Registers;
use trace::run::Stop;
use widebus::both::{Both, ask};
use widebus::selection::{Selection, Side};

// A played trace: where it stopped, and the registers and the selection that it leaves; both chips' registers, where SidePlayed has one's: a type parameter would serve these two alone.
#[derive(Clone, Copy)]
struct WidePlayed {
    stop: Stop,
    registers: Both,
    selection: Selection,
}

// Runs a trace, record by record, up to the first refusal. A run starts with both chips selected. No `?`: a refused run answers an offset and a count too.
pub fn run(
    left_state: &mut [u8],
    left_memory: &mut [u8],
    right_state: &mut [u8],
    right_memory: &mut [u8],
    trace: &[u8],
) -> Stop
    ensures { wide_ran (stop_met result) (both_lent left_state.new left_memory.new right_state.new right_memory.new) ≡ wide_run (both_lent left_state.old left_memory.old right_state.old right_memory.old) trace.now }
{
    match ask(left_state, left_memory, right_state, right_memory) {
        Ok(registers) => {
            let played = play(registers, left_memory, right_memory, trace);
            let Both { left, right } = played.registers;
            left.store(left_state);
            right.store(right_state);
            played.stop
        }
        Err(refusal) => Stop {
            outcome: Err(refusal),
            offset: 0,
            count: 0,
        },
    }
}

// Plays a trace by the two sides, which do not see each other: the right chip plays as far as the left one came; where it stops earlier, the left one's memory is put back, and it plays as far as that.
fn play(
    registers: Both,
    left_memory: &mut [u8],
    right_memory: &mut [u8],
    trace: &[u8],
) -> WidePlayed
    requires { memory_size ≤ length left_memory.old }
    ensures { wide_played_of result left_memory.new right_memory.new ≡ play the_terminal (split trace.now) (terminal (chips_of registers left_memory.old right_memory.old) Selection.Both) }
{
    let kept = copied(left_memory);
    let first = play_side(Side::Left, registers.left, left_memory, trace, trace.len());
    let reached = first.stop;
    let second = play_side(
        Side::Right,
        registers.right,
        right_memory,
        trace,
        reached.offset,
    );
    let stop = second.stop;
    if stop.outcome.is_ok() {
        let selection = first.selection;
        return ended(reached, selection, first.registers, second.registers);
    }
    put_back(kept, left_memory);
    let again = play_side(Side::Left, registers.left, left_memory, trace, stop.offset);
    let selection = second.selection;
    ended(stop, selection, again.registers, second.registers)
}

// The end of a played trace.
fn ended(stop: Stop, selection: Selection, left: Registers, right: Registers) -> WidePlayed
    ensures { result ≡ wide_played stop left right selection }
{
    WidePlayed {
        stop,
        registers: Both { left, right },
        selection,
    }
}

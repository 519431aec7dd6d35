// The run of a recorded wide trace.
ghost use Rattle.std.specs.Prelude.{◌≡◌};
ghost use Rattle.trace.specs.Run.{stop_of};
ghost use Rattle.widebus.specs.Pair.{both_lent};
ghost use Rattle.widetrace.specs.WideRun.{wide_ran, wide_run};

use constants::refusal::number_met;

// In C's form (lib.rt).

// Runs a trace: the offset where it stopped and the count of whole records done go to where the host wants them.
#[unsafe(no_mangle)]
pub extern "C" fn ssd1815b_wide_run(
    left_state: &mut [u8],
    left_memory: &mut [u8],
    right_state: &mut [u8],
    right_memory: &mut [u8],
    bytes: &[u8],
    offset: &mut usize,
    count: &mut usize,
) -> u8
    ensures { wide_ran (stop_of result offset.new count.new) (both_lent left_state.new left_memory.new right_state.new right_memory.new) ≡ wide_run (both_lent left_state.old left_memory.old right_state.old right_memory.old) bytes.now }
{
    let stop = widetrace::run::run(left_state, left_memory, right_state, right_memory, bytes);
    *offset = stop.offset;
    *count = stop.count;
    number_met(stop.outcome)
}

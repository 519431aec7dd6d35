// The run of a recorded trace.
ghost use Rattle.std.specs.Prelude.{◌≡◌};
ghost use Rattle.trace.specs.Run.{ran, stop_of, run};

use constants::refusal::number_met;

// In C's form (lib.rt).

// Runs a trace: the offset where it stopped and the count of whole records done go to where the host wants them.
#[unsafe(no_mangle)]
pub extern "C" fn ssd1815b_run(
    state: &mut [u8],
    memory: &mut [u8],
    bytes: &[u8],
    offset: &mut usize,
    count: &mut usize,
) -> u8
    ensures { ran (stop_of result offset.new count.new) state.new memory.new ≡ run state.old memory.old bytes.now }
{
    let stop = trace::run::run(state, memory, bytes);
    *offset = stop.offset;
    *count = stop.count;
    number_met(stop.outcome)
}

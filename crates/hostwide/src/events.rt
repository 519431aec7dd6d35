// The four events, for the chips that a selection names.
ghost use Rattle.std.specs.Prelude.{◌≡◌};
ghost use Rattle.bus.specs.Chip.{command_byte, data_written, data_read, reset_pulse};
ghost use Rattle.widebus.specs.Pair.{both_lent};
ghost use Rattle.widebus.specs.WideCalls.{wide_call};
ghost use Rattle.hostwide.specs.Events.{states_reply, lent_reply, read_reply, of_states, of_lent, of_read};

use constants::refusal::{TAKEN, number_met};

// Four names that differ in the call below, numbers for selection and refusal, byte and mark through references, and four lent slices: C's interface (host/ssd1815b.h).

// A command byte.
#[unsafe(no_mangle)]
pub extern "C" fn ssd1815b_wide_command(
    left_state: &mut [u8],
    left_memory: &[u8],
    right_state: &mut [u8],
    right_memory: &[u8],
    selection: u8,
    byte: u8,
) -> u8
    ensures { states_reply result left_state.new right_state.new ≡ of_states (wide_call selection (command_byte byte) (both_lent left_state.old left_memory.now right_state.old right_memory.now)) }
{
    number_met(widebus::calls::command(
        left_state,
        left_memory,
        right_state,
        right_memory,
        selection,
        byte,
    ))
}

// A data byte written.
#[unsafe(no_mangle)]
pub extern "C" fn ssd1815b_wide_write(
    left_state: &mut [u8],
    left_memory: &mut [u8],
    right_state: &mut [u8],
    right_memory: &mut [u8],
    selection: u8,
    byte: u8,
) -> u8
    ensures { lent_reply result (both_lent left_state.new left_memory.new right_state.new right_memory.new) ≡ of_lent (wide_call selection (data_written byte) (both_lent left_state.old left_memory.old right_state.old right_memory.old)) }
{
    number_met(widebus::calls::write(
        left_state,
        left_memory,
        right_state,
        right_memory,
        selection,
        byte,
    ))
}

// A data byte read: the byte and the dummy mark go to where the host wants them.
#[unsafe(no_mangle)]
pub extern "C" fn ssd1815b_wide_read(
    left_state: &mut [u8],
    left_memory: &[u8],
    right_state: &mut [u8],
    right_memory: &[u8],
    selection: u8,
    byte: &mut u8,
    dummy: &mut u8,
) -> u8
    ensures { read_reply result byte.new dummy.new left_state.new right_state.new ≡ of_read (wide_call selection data_read (both_lent left_state.old left_memory.now right_state.old right_memory.now)) }
{
    match widebus::calls::read(
        left_state,
        left_memory,
        right_state,
        right_memory,
        selection,
    ) {
        Ok(read) => {
            *byte = read.unwrap_or(0);
            *dummy = u8::from(read.is_none());
            TAKEN
        }
        Err(refusal) => {
            *byte = 0;
            *dummy = 0;
            u8::from(refusal)
        }
    }
}

// A pulse on the reset pin.
#[unsafe(no_mangle)]
pub extern "C" fn ssd1815b_wide_reset(
    left_state: &mut [u8],
    left_memory: &[u8],
    right_state: &mut [u8],
    right_memory: &[u8],
    selection: u8,
) -> u8
    ensures { states_reply result left_state.new right_state.new ≡ of_states (wide_call selection reset_pulse (both_lent left_state.old left_memory.now right_state.old right_memory.now)) }
{
    number_met(widebus::calls::reset_pin(
        left_state,
        left_memory,
        right_state,
        right_memory,
        selection,
    ))
}

// The four events.
ghost use Rattle.std.specs.Prelude.{◌≡◌};
ghost use Rattle.bus.specs.Chip.{command_byte, data_written, data_read, reset_pulse};
ghost use Rattle.bus.specs.Calls.{call};
ghost use Rattle.hostbus.specs.Events.{state_reply, write_reply, read_reply, of_state, of_both, of_read};

use constants::refusal::{TAKEN, number_met};

// In C's form (lib.rt).

// A command byte.
#[unsafe(no_mangle)]
pub extern "C" fn ssd1815b_command(state: &mut [u8], memory: &[u8], byte: u8) -> u8
    ensures { state_reply result state.new ≡ of_state (call (command_byte byte) state.old memory.now) }
{
    number_met(bus::calls::command(state, memory, byte))
}

// A data byte written.
#[unsafe(no_mangle)]
pub extern "C" fn ssd1815b_write(state: &mut [u8], memory: &mut [u8], byte: u8) -> u8
    ensures { write_reply result state.new memory.new ≡ of_both (call (data_written byte) state.old memory.old) }
{
    number_met(bus::calls::write(state, memory, byte))
}

// A data byte read: the byte and the dummy mark go to where the host wants them.
#[unsafe(no_mangle)]
pub extern "C" fn ssd1815b_read(
    state: &mut [u8],
    memory: &[u8],
    byte: &mut u8,
    dummy: &mut u8,
) -> u8
    ensures { read_reply result byte.new dummy.new state.new ≡ of_read (call data_read state.old memory.now) }
{
    *byte = 0;
    *dummy = 0;
    match bus::calls::read(state, memory) {
        Ok(Some(read)) => {
            *byte = read;
            TAKEN
        }
        Ok(None) => {
            *dummy = 1;
            TAKEN
        }
        Err(refusal) => u8::from(refusal),
    }
}

// A pulse on the reset pin.
#[unsafe(no_mangle)]
pub extern "C" fn ssd1815b_reset(state: &mut [u8], memory: &[u8]) -> u8
    ensures { state_reply result state.new ≡ of_state (call reset_pulse state.old memory.now) }
{
    number_met(bus::calls::reset_pin(state, memory))
}

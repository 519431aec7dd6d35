// The event calls, lent the state image and the display memory.
ghost use Rattle.std.specs.Prelude.{◌≡◌, Err};
ghost use Rattle.constants.specs.Refusals.{number_of_refusal};
ghost use Rattle.bus.specs.Answer.{Answer, answer_of, reply_to, reply_to_read};
ghost use Rattle.bus.specs.Chip.{command_byte, data_written, data_read, reset_pulse};
ghost use Rattle.bus.specs.Calls.{called, reply_of, state_after, call};
ghost use Rattle.bus.specs.Accepts.{Accepts};

// State and memory stay two parameters: C lends them so, to be read by three calls and to be changed by one. The calls differ in the event that they pass on.
use crate::accepted;
use crate::image::{legal, short};
use crate::registers::Registers;
use constants::refusal::Refusal;

// A command byte.
pub fn command(state: &mut [u8], memory: &[u8], byte: u8) -> Result<(), Refusal>
    ensures { called (reply_to result) state.new memory.now ≡ call (command_byte byte) state.old memory.now }
{
    accept(state, memory)?;
    accepted::command(state, byte)
}

// A data byte written.
pub fn write(state: &mut [u8], memory: &mut [u8], byte: u8) -> Result<(), Refusal>
    ensures { called (reply_to result) state.new memory.new ≡ call (data_written byte) state.old memory.old }
{
    accept(state, memory)?;
    accepted::write(state, memory, byte)
}

// A data byte read; none where it was the dummy read.
pub fn read(state: &mut [u8], memory: &[u8]) -> Result<Option<u8>, Refusal>
    ensures { called (reply_to_read result) state.new memory.now ≡ call data_read state.old memory.now }
{
    accept(state, memory)?;
    accepted::read(state, memory)
}

// A pulse on the reset pin, which is asked for the lengths alone.
pub fn reset_pin(state: &mut [u8], memory: &[u8]) -> Result<(), Refusal>
    ensures { called (reply_to result) state.new memory.now ≡ call reset_pulse state.old memory.now }
{
    if short(state, memory) {
        return refuse(Refusal::TooShort);
    }
    // Any registers do: an image out of its ranges is not loaded.
    conclude(Ok(Registers::power_on().reset_pin()), state)
}

// Stores the registers of a taken event, or hands its refusal on.
#[tactic(auto, unfolding(crate::specs::Calls::reply_of, crate::specs::Calls::state_after, crate::specs::Events::number_of, crate::specs::Events::byte_of, crate::specs::Events::dummy_of))]
pub fn conclude(answer: Result<Registers, Refusal>, state: &mut [u8]) -> Result<(), Refusal>
    ensures { (reply_to result ≡ reply_of (answer_of answer)) × (state.new ≡ state_after (answer_of answer) state.old) }
{
    let left = answer?;
    left.store(state);
    Ok(())
}

// What a refused call answers.
#[tactic(auto, unfolding(crate::specs::Calls::reply_of, crate::specs::Events::number_of, crate::specs::Events::byte_of, crate::specs::Events::dummy_of))]
pub fn refuse(refusal: Refusal) -> Result<(), Refusal>
    ensures { (result ≡ Err refusal) × (reply_to result ≡ reply_of (Answer.Refused (number_of_refusal refusal))) }
{
    Err(refusal)
}

// Asks a lent state and memory for their lengths, and then the state for its ranges.
fn accept(state: &[u8], memory: &[u8]) -> Result<(), Refusal>
    ensures { Accepts result state.now memory.now }
{
    if short(state, memory) {
        return refuse(Refusal::TooShort);
    }
    if legal(state) {
        return Ok(());
    }
    refuse(Refusal::OutOfRange)
}

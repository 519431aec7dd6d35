// Events on a lent state whose ranges were asked before: the state's length alone is asked again.
ghost use Rattle.std.specs.Prelude.{◌≡◌, List, ℕ, ◌≤◌, length, get_or};
ghost use Rattle.constants.specs.Sizes.{image_size};
ghost use Rattle.constants.specs.Refusals.{number_met};
ghost use Rattle.bus.specs.Places as places;
ghost use Rattle.bus.specs.Answer.{reply_to, reply_to_read};
ghost use Rattle.bus.specs.Registers.{registers_of, ◌with◌≔◌};
ghost use Rattle.bus.specs.Image.{stored};
ghost use Rattle.bus.specs.Chip.{command_byte, data_written, data_read};
ghost use Rattle.bus.specs.Calls.{called};
ghost use Rattle.bus.specs.OnState.{on_state, access_on};

use crate::obey::obey;
use crate::places::{Held, Place, load};
use crate::registers::Registers;
use constants::refusal::Refusal;
use constants::sizes::IMAGE_SIZE;

// Each call takes the image by one line of the library: a function for that line would be no shorter where it is called.

// A command byte, which no memory is asked for.
pub fn command(state: &mut [u8], byte: u8) -> Result<(), Refusal>
    ensures { (memory : List ℕ) → called (reply_to result) state.new memory ≡ on_state (command_byte byte) state.old memory }
{
    let Some(image) = state.first_chunk_mut::<IMAGE_SIZE>() else {
        return Err(Refusal::TooShort);
    };
    let named = codes::meaning_of(image.at(Place::Awaited), byte);
    obey(image, named)
}

// A data byte written.
pub fn write(state: &mut [u8], memory: &mut [u8], byte: u8) -> Result<(), Refusal>
    ensures { called (reply_to result) state.new memory.new ≡ on_state (data_written byte) state.old memory.old }
{
    let Some(image) = state.first_chunk_mut::<IMAGE_SIZE>() else {
        return Err(Refusal::TooShort);
    };
    let left = load(image).write(memory, byte)?;
    move_on(image, left);
    Ok(())
}

// A data byte read; none where it was the dummy read.
pub fn read(state: &mut [u8], memory: &[u8]) -> Result<Option<u8>, Refusal>
    ensures { called (reply_to_read result) state.new memory.now ≡ on_state data_read state.old memory.now }
{
    let Some(image) = state.first_chunk_mut::<IMAGE_SIZE>() else {
        return Err(Refusal::TooShort);
    };
    let read = load(image).read(memory)?;
    move_on(image, read.registers);
    Ok(read.byte)
}

// What a data write or read would meet, for a call that asks several chips before any of them changes.
pub fn access(state: &[u8], memory: &[u8]) -> Result<(), Refusal>
    ensures { number_met result ≡ access_on state.now memory.now }
{
    let Some(image) = state.first_chunk::<IMAGE_SIZE>() else {
        return Err(Refusal::TooShort);
    };
    load(image).access(memory.len())
}

// The awaited code, by which two chips meet a command byte alike or not; 0 where a state has no such byte.
pub fn awaited(state: &[u8]) -> u8
    ensures { result ≡ get_or state.now places.awaited 0 }
{
    state.get(Place::Awaited as usize).copied().unwrap_or(0)
}

// Stores what a data byte changes of the registers, column and fresh: these two bytes alone.
fn move_on(image: &mut [u8; IMAGE_SIZE], left: Registers)
    requires { left ≡ (registers_of image.old with places.column ≔ left.column with places.fresh ≔ left.fresh) }
    ensures { image.new ≡ stored left image.old }
{
    image.put(Place::Column, left.column);
    image.put(Place::Fresh, left.fresh);
}

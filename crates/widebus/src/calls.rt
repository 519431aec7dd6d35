// The event calls of the wide terminal, lent the state images and the display memories of both chips, and told by a number which chips are selected.
ghost use Rattle.std.specs.Prelude.{◌≡◌, List, ℕ};
ghost use Rattle.constants.specs.Refusals.{number_met};
ghost use Rattle.bus.specs.Answer.{reply_to, reply_to_read};
ghost use Rattle.bus.specs.Chip.{command_byte, data_written, data_read, reset_pulse};
ghost use Rattle.widebus.specs.Pair.{both_lent};
ghost use Rattle.widebus.specs.WideCalls.{wide_called, wide_call};
ghost use Rattle.widebus.specs.OnBoth.{on_both, command_meets, Ranged};

use crate::both::{ask_lengths, ask_ranges};
use crate::selection::Selection;
use bus::accepted;
use bus::accepted::{access, awaited};
use constants::refusal::Refusal;
use constants::sizes::IMAGE_SIZE;

// State and memory of both chips stay four parameters. A struct of each chip's two was tried: every body takes it apart again, since what one field lends is not read while the other is lent, the promise says `left.exit.1.0.now` for `left_memory.new`, and C lends memories to be read by three calls and to be changed by one (host/ssd1815b.h), which is a struct for each.
// Each call takes the selection as the number that C hands it, since 13 goes after 1 and 2 (specs/WideGiven `number13`), and matches on it by itself: a function that was handed closures for one chip and for both would name every state and memory as often.

// A command byte.
pub fn command(
    left_state: &mut [u8],
    left_memory: &[u8],
    right_state: &mut [u8],
    right_memory: &[u8],
    selection: u8,
    byte: u8,
) -> Result<(), Refusal>
    ensures { wide_called (reply_to result) (both_lent left_state.new left_memory.now right_state.new right_memory.now) ≡ wide_call selection (command_byte byte) (both_lent left_state.old left_memory.now right_state.old right_memory.now) }
{
    ask_ranges(left_state, left_memory, right_state, right_memory)?;
    match Selection::try_from(selection)? {
        Selection::Left => accepted::command(left_state, byte),
        Selection::Right => accepted::command(right_state, byte),
        Selection::Both => command_both(left_state, right_state, byte),
    }
}

// A command byte for both chips: where different codes are awaited it is tried on both before either takes it.
fn command_both(left_state: &mut [u8], right_state: &mut [u8], byte: u8) -> Result<(), Refusal>
    requires { Ranged left_state.old × Ranged right_state.old }
    ensures { (left right : List ℕ) → wide_called (reply_to result) (both_lent left_state.new left right_state.new right) ≡ on_both (command_byte byte) (both_lent left_state.old left right_state.old right) }
{
    // Chips that await the same code meet a command byte alike.
    if awaited(left_state) != awaited(right_state) {
        tried(left_state, byte)?;
        tried(right_state, byte)?;
    }
    accepted::command(left_state, byte)?;
    accepted::command(right_state, byte)
}

// What a command byte meets: it is tried on a copy of the image.
fn tried(state: &[u8], byte: u8) -> Result<(), Refusal>
    ensures { number_met result ≡ command_meets byte state.now }
{
    let Some(image) = state.first_chunk::<IMAGE_SIZE>() else {
        return Err(Refusal::TooShort);
    };
    let mut copy = *image;
    accepted::command(&mut copy, byte)
}

// A data byte written.
pub fn write(
    left_state: &mut [u8],
    left_memory: &mut [u8],
    right_state: &mut [u8],
    right_memory: &mut [u8],
    selection: u8,
    byte: u8,
) -> Result<(), Refusal>
    ensures { wide_called (reply_to result) (both_lent left_state.new left_memory.new right_state.new right_memory.new) ≡ wide_call selection (data_written byte) (both_lent left_state.old left_memory.old right_state.old right_memory.old) }
{
    ask_ranges(left_state, left_memory, right_state, right_memory)?;
    match Selection::try_from(selection)? {
        Selection::Left => accepted::write(left_state, left_memory, byte),
        Selection::Right => accepted::write(right_state, right_memory, byte),
        Selection::Both => write_both(left_state, left_memory, right_state, right_memory, byte),
    }
}

// A data byte written to both chips: both are asked before either writes. It shares its four lines' order with command_both and nothing else: as one function over closures it would be longer.
fn write_both(
    left_state: &mut [u8],
    left_memory: &mut [u8],
    right_state: &mut [u8],
    right_memory: &mut [u8],
    byte: u8,
) -> Result<(), Refusal>
    ensures { wide_called (reply_to result) (both_lent left_state.new left_memory.new right_state.new right_memory.new) ≡ on_both (data_written byte) (both_lent left_state.old left_memory.old right_state.old right_memory.old) }
{
    access(left_state, left_memory)?;
    access(right_state, right_memory)?;
    accepted::write(left_state, left_memory, byte)?;
    accepted::write(right_state, right_memory, byte)
}

// A data byte read from the one selected chip; none where it was the dummy read.
pub fn read(
    left_state: &mut [u8],
    left_memory: &[u8],
    right_state: &mut [u8],
    right_memory: &[u8],
    selection: u8,
) -> Result<Option<u8>, Refusal>
    ensures { wide_called (reply_to_read result) (both_lent left_state.new left_memory.now right_state.new right_memory.now) ≡ wide_call selection data_read (both_lent left_state.old left_memory.now right_state.old right_memory.now) }
{
    ask_ranges(left_state, left_memory, right_state, right_memory)?;
    match Selection::try_from(selection)? {
        Selection::Left => accepted::read(left_state, left_memory),
        Selection::Right => accepted::read(right_state, right_memory),
        Selection::Both => Err(Refusal::BothSelected),
    }
}

// A pulse on the reset pin, which is asked for the lengths alone.
pub fn reset_pin(
    left_state: &mut [u8],
    left_memory: &[u8],
    right_state: &mut [u8],
    right_memory: &[u8],
    selection: u8,
) -> Result<(), Refusal>
    ensures { wide_called (reply_to result) (both_lent left_state.new left_memory.now right_state.new right_memory.now) ≡ wide_call selection reset_pulse (both_lent left_state.old left_memory.now right_state.old right_memory.now) }
{
    ask_lengths(left_state, left_memory, right_state, right_memory)?;
    match Selection::try_from(selection)? {
        Selection::Left => bus::calls::reset_pin(left_state, left_memory),
        Selection::Right => bus::calls::reset_pin(right_state, right_memory),
        Selection::Both => {
            bus::calls::reset_pin(left_state, left_memory)?;
            bus::calls::reset_pin(right_state, right_memory)
        }
    }
}

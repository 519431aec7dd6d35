// What the two chips' states and memories are asked first.
ghost use Rattle.std.specs.Prelude.{◌≡◌};
ghost use Rattle.constants.specs.Refusals.{number_met};
ghost use Rattle.widebus.specs.Pair.{both_lent};
ghost use Rattle.widebus.specs.Asked.{asked_both, both_asked_of};
ghost use Rattle.widebus.specs.OnBoth.{access_both, lengths_met, ranges_met};

use bus::image::{ask_state, legal, short};
use bus::registers::Registers;
use constants::refusal::Refusal;

// The registers of both chips.
#[derive(Clone, Copy)]
pub struct Both {
    pub left: Registers,
    pub right: Registers,
}

impl Both {
    // What a data write for both meets, by the lengths of their memories: the left one is asked first.
    #[tactic(auto, unfolding(crate::specs::OnBoth::access_both))]
    pub(crate) fn access(self, left_memory: usize, right_memory: usize) -> Result<(), Refusal>
        ensures { number_met result ≡ access_both self left_memory right_memory }
    {
        self.left.access(left_memory)?;
        self.right.access(right_memory)
    }
}

// Asks all that is lent for its length first, and then both images for their ranges: the registers of both chips.
#[tactic(auto, unfolding(crate::specs::Asked::asked_both, crate::specs::Asked::both_found, crate::specs::OnBoth::lengths_met))]
pub fn ask(
    left_state: &[u8],
    left_memory: &[u8],
    right_state: &[u8],
    right_memory: &[u8],
) -> Result<Both, Refusal>
    ensures { both_asked_of result ≡ asked_both (both_lent left_state.now left_memory.now right_state.now right_memory.now) }
{
    ask_lengths(left_state, left_memory, right_state, right_memory)?;
    let left = ask_state(left_state)?;
    let right = ask_state(right_state)?;
    Ok(Both { left, right })
}

// Asks all that is lent for its length. Inlined, as ask_ranges is: as calls they made a command for both chips take 31 ns for 23.
#[tactic(auto, unfolding(crate::specs::OnBoth::lengths_met))]
#[inline(always)]
pub(crate) fn ask_lengths(
    left_state: &[u8],
    left_memory: &[u8],
    right_state: &[u8],
    right_memory: &[u8],
) -> Result<(), Refusal>
    ensures { result ≡ lengths_met (both_lent left_state.now left_memory.now right_state.now right_memory.now) }
{
    if short(left_state, left_memory) || short(right_state, right_memory) {
        return Err(Refusal::TooShort);
    }
    Ok(())
}

// Asks for the lengths, and then both images for their ranges, and loads none.
#[tactic(auto, unfolding(crate::specs::OnBoth::lengths_met, crate::specs::OnBoth::ranges_met))]
#[inline(always)]
pub(crate) fn ask_ranges(
    left_state: &[u8],
    left_memory: &[u8],
    right_state: &[u8],
    right_memory: &[u8],
) -> Result<(), Refusal>
    ensures { result ≡ ranges_met (both_lent left_state.now left_memory.now right_state.now right_memory.now) }
{
    ask_lengths(left_state, left_memory, right_state, right_memory)?;
    if legal(left_state) && legal(right_state) {
        return Ok(());
    }
    Err(Refusal::OutOfRange)
}

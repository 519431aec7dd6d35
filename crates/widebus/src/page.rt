// One page of a chip's memory, handed back as a part of the caller's own buffer.
ghost use Rattle.std.specs.Prelude.{◌≡◌};
ghost use Rattle.widebus.specs.Page.{handed_of, part_of, page_of};

use crate::selection::Side;
use constants::refusal::Refusal;
use constants::sizes::{MEMORY_SIZE, PAGES, WIDTH};

// The named page of the left memory or the right, nothing copied.
#[tactic(auto, unfolding(crate::specs::Page::page_in, crate::specs::Page::page_of))]
pub fn page<'a>(side: Side, left: &'a [u8], right: &'a [u8], page: u8) -> Result<&'a [u8], Refusal>
    ensures { handed_of (part_of result) ≡ page_of side left.now right.now page }
{
    if left.len() < MEMORY_SIZE || right.len() < MEMORY_SIZE {
        return Err(Refusal::TooShort);
    }
    if page >= PAGES {
        return Err(Refusal::NoPage);
    }
    let memory = match side {
        Side::Left => left,
        Side::Right => right,
    };
    let start = usize::from(page) * WIDTH;
    Ok(&memory[start..start + WIDTH])
}

// One page of a chip's memory: where it lies in the caller's own buffer, as an exported function cannot return a part of it.
ghost use Rattle.std.specs.Prelude.{◌≡◌};
ghost use Rattle.hostwide.specs.Page.{page_reply, part_reply, page_reply_of};
ghost use Rattle.widebus.specs.Page.{part_of};

use constants::refusal::{Refusal, TAKEN};
use constants::sizes::{MEMORY_SIZE, WIDTH};
use widebus::selection::Side;

// Numbers for side and refusal, place and length through references: C's interface (host/ssd1815b.h).

// The part's place in that side's memory and its length go to where the host wants them, 0 both where it is refused.
#[unsafe(no_mangle)]
pub extern "C" fn ssd1815b_wide_page<'a>(
    left_memory: &'a [u8],
    right_memory: &'a [u8],
    side: u8,
    page: u8,
    place: &mut usize,
    length: &mut usize,
) -> u8
    ensures { page_reply result place.new length.new ≡ page_reply_of side left_memory.now right_memory.now page }
{
    match part(left_memory, right_memory, side, page) {
        Ok(part) => {
            *place = usize::from(page) * WIDTH;
            *length = part.len();
            TAKEN
        }
        Err(refusal) => {
            *place = 0;
            *length = 0;
            u8::from(refusal)
        }
    }
}

// The page of the side with a number; that a memory is too short goes before the number.
fn part<'a>(left: &'a [u8], right: &'a [u8], side: u8, page: u8) -> Result<&'a [u8], Refusal>
    ensures { part_reply page (part_of result) ≡ page_reply_of side left.now right.now page }
{
    if left.len() < MEMORY_SIZE || right.len() < MEMORY_SIZE {
        return Err(Refusal::TooShort);
    }
    widebus::page::page(Side::try_from(side)?, left, right, page)
}

// One page of a memory as it is shown, and the bits of a RAM row, which lie in it.
ghost use Rattle.std.specs.Prelude.{◌≡◌, ◌<◌, ◌/◌, ◌%◌, ◌^◌, get_or};
ghost use Rattle.constants.specs.Sizes.{width, pages};
ghost use Rattle.picture.specs.Frame.{line};
ghost use Rattle.picture.specs.Upright.{upright_byte};

use constants::sizes::{MEMORY_SIZE, WIDTH};
use std::array;

// All bits of a byte.
const ALL_BITS: u8 = 255;

// A page as it is shown from left to right, all bits turned round where reverse is 1. Put into its callers, where it is no array in memory.
#[inline(always)]
pub fn shown_page(memory: &[u8; MEMORY_SIZE], page: u8, direction: u8, reverse: u8) -> [u8; WIDTH]
    requires { (page < pages) × (reverse < 2) }
    ensures { result ≡ line width (upright_byte direction reverse memory.now page) }
{
    let flip = ALL_BITS * reverse;
    let first = usize::from(page) * WIDTH;
    if direction == 0 {
        return array::from_fn(|x| memory[first + x] ^ flip);
    }
    let last = first + (WIDTH - 1);
    array::from_fn(|x| memory[last - x] ^ flip)
}

// A bit of each byte of a page. With the bit known where it is drawn 16 places are drawn at once; with the bit as a number a frame takes 12 to 16 % longer.
#[inline(always)]
pub fn bits_of(page: &[u8; WIDTH], bit: u8) -> [u8; WIDTH]
    requires { bit < 8 }
    ensures { result ≡ line width (λ x. get_or page.now x 0 / 2 ^ bit % 2) }
{
    match bit {
        0 => bits::<0>(page),
        1 => bits::<1>(page),
        2 => bits::<2>(page),
        3 => bits::<3>(page),
        4 => bits::<4>(page),
        5 => bits::<5>(page),
        6 => bits::<6>(page),
        _ => bits::<7>(page),
    }
}

// The bit that is known.
fn bits<const BIT: u8>(page: &[u8; WIDTH]) -> [u8; WIDTH]
    requires { BIT < 8 }
    ensures { result ≡ line width (λ x. get_or page.now x 0 / 2 ^ BIT % 2) }
{
    array::from_fn(
        |x|
            requires { (x < width) × (BIT < 8) }
            ensures { result ≡ get_or page.entry.now x 0 / 2 ^ BIT % 2 }
        { (page[x] >> BIT) & 1 },
    )
}

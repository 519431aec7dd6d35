// A frame of one shade: what registers tell of a chip's whole frame.
ghost use Rattle.widepicture.specs.OneShade.{Tells, told_of};

use bus::registers::Registers;
use picture::rows::ALL_ROWS;

// The shade that registers tell of all places, 0 dark or 1 lit, or none: display off makes all dark, before any other rule, and entire on lights all where all 64 rows are in use.
pub fn shade_of(registers: Registers) -> Option<u8>
    ensures { Tells registers (told_of result) }
{
    if registers.on == 0 {
        return Some(0);
    }
    if registers.entire == 1 {
        if registers.multiplex == ALL_ROWS {
            return Some(1);
        }
    }
    None
}

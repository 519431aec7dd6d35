// One row of the frame, drawn into its own 132 bytes.
ghost use Rattle.std.specs.Prelude.{◌≡◌, ◌≤◌, length};
ghost use Rattle.constants.specs.Sizes.{width, height};
ghost use Rattle.picture.specs.Scan.{row_shows};
ghost use Rattle.picture.specs.Rows.{scan_of};
ghost use Rattle.picture.specs.Frame.{segment, shown_bit, line};

use crate::page::{bits_of, shown_page};
use crate::rows::{ALL_ROWS, PanelRow, RamRow, row_shows};
use bus::registers::Registers;
use constants::sizes::{MEMORY_SIZE, WIDTH};

// Draws one row of the frame into its own 132 bytes. Where all 64 rows are in use entire on lights every one, and the rule is not asked (DECISIONS 38). Put into its callers' loops, so that rows of one shade become one fill.
#[inline(always)]
pub fn draw_row(registers: Registers, memory: &[u8; MEMORY_SIZE], row: PanelRow, places: &mut [u8])
    requires { length places.old ≡ width }
    ensures { places.new ≡ line width (segment registers memory.now (row_shows (scan_of registers) row)) }
{
    if registers.on == 0 {
        places.fill(0);
        return;
    }
    if registers.entire == 1 {
        if registers.multiplex == ALL_ROWS {
            places.fill(1);
            return;
        }
    }
    match row_shows(registers, row) {
        None => places.fill(0),
        Some(ram) => {
            if registers.entire == 1 {
                places.fill(1);
            } else {
                places.copy_from_slice(&shown_bits(registers, memory, ram));
            }
        }
    }
}

// The bits of a RAM row as they are shown, its columns in the column direction.
#[inline(always)]
fn shown_bits(registers: Registers, memory: &[u8; MEMORY_SIZE], row: RamRow) -> [u8; WIDTH]
    requires { row.0 ≤ height }
    ensures { result ≡ line width (shown_bit registers memory.now row) }
{
    let reverse = registers.reverse & 1;
    let page = shown_page(memory, row.page(), registers.column_direction, reverse);
    bits_of(&page, row.bit())
}

// The whole frame of bits: what each row shows is worked out for all rows first, and the memory is brought upright once, so that a row is a bit of a page as it lies.
ghost use Rattle.std.specs.Prelude.{◌≡◌, ◌≢◌, ℕ, ◌<◌, length, get_or, None};
ghost use Rattle.constants.specs.Sizes.{width, pages, height, frame_rows};
ghost use Rattle.picture.specs.Shown.{shown_of};
ghost use Rattle.picture.specs.Frame.{line, grid, frame};
ghost use Rattle.picture.specs.Upright.{upright_byte, WithinRam, RowsOf, seen};

use crate::page::{bits_of, shown_page};
use crate::rows::{PanelRow, RamRow, row_shows};
use bus::registers::Registers;
use constants::sizes::{FRAME_ROWS, FRAME_SIZE, MEMORY_SIZE, PAGES, WIDTH};
use std::array;

// Draws the frame of a display that is on and not entirely on.
pub fn draw_whole(registers: Registers, memory: &[u8; MEMORY_SIZE], places: &mut [u8; FRAME_SIZE])
    requires { (registers.on ≢ 0) × (registers.entire ≢ 1) }
    ensures { places.new ≡ frame registers memory.now }
{
    let rows = rows_shown(registers);
    if registers.column_direction == 0 && registers.reverse & 1 == 0 {
        draw_upright(&rows, memory, places);
    } else {
        draw_turned(registers, &rows, memory, places);
    }
}

// The RAM row that each row of the frame shows, or none. `y as u8`, here and in draw.rt: `try_from` would be a branch that is never taken.
fn rows_shown(registers: Registers) -> [Option<RamRow>; FRAME_ROWS]
    ensures { RowsOf registers result }
{
    array::from_fn(|y| row_shows(registers, PanelRow(y as u8)))
}

// Draws the frame of a memory that is not upright as it lies. A function of its own, so that only such frames clear an array.
fn draw_turned(
    registers: Registers,
    rows: &[Option<RamRow>; FRAME_ROWS],
    memory: &[u8; MEMORY_SIZE],
    places: &mut [u8; FRAME_SIZE],
)
    requires { (registers.on ≢ 0) × (registers.entire ≢ 1) × RowsOf registers rows.now }
    ensures { places.new ≡ frame registers memory.now }
{
    let mut upright = [0; MEMORY_SIZE];
    let reverse = registers.reverse & 1;
    bring_upright(registers.column_direction, reverse, memory, &mut upright);
    draw_upright(rows, &upright, places);
}

// Brings each page upright. The part is cut by hand, as in draw.rt.
fn bring_upright(
    direction: u8,
    reverse: u8,
    memory: &[u8; MEMORY_SIZE],
    upright: &mut [u8; MEMORY_SIZE],
)
    requires { reverse < 2 }
    ensures { upright.new ≡ grid width pages (upright_byte direction reverse memory.now) }
{
    for p in 0..PAGES {
        let start = usize::from(p) * WIDTH;
        let end = start + WIDTH;
        upright[start..end].copy_from_slice(&shown_page(memory, p, direction, reverse));
    }
}

// Draws each row by the RAM row that it shows, from a memory that is upright. The part is cut by hand, as in draw.rt; and the loop is not one with that, since a closure would have to be told in words of calls what `grid` says at once.
fn draw_upright(
    rows: &[Option<RamRow>; FRAME_ROWS],
    upright: &[u8; MEMORY_SIZE],
    places: &mut [u8; FRAME_SIZE],
)
    requires { (y : ℕ) → y < frame_rows → WithinRam height (shown_of (get_or rows.now y None)) }
    ensures { places.new ≡ grid width frame_rows (λ y. seen upright.now (shown_of (get_or rows.now y None))) }
{
    for (y, row) in rows.iter().enumerate() {
        let start = y * WIDTH;
        let end = start + WIDTH;
        draw_shown(*row, upright, &mut places[start..end]);
    }
}

// Draws one row by the RAM row that it shows.
fn draw_shown(shown: Option<RamRow>, upright: &[u8; MEMORY_SIZE], places: &mut [u8])
    requires { WithinRam height (shown_of shown) × (length places.old ≡ width) }
    ensures { places.new ≡ line width (seen upright.now (shown_of shown)) }
{
    match shown {
        None => places.fill(0),
        Some(row) => {
            let page = shown_page(upright, row.page(), 0, 0);
            places.copy_from_slice(&bits_of(&page, row.bit()));
        }
    }
}

// The call that draws the wide frame, lent states and memories of both chips and a frame.
ghost use Rattle.std.specs.Prelude.{◌≡◌, ◌≤◌, length};
ghost use Rattle.constants.specs.Refusals.{number_met};
ghost use Rattle.constants.specs.Sizes.{memory_size, frame_rows};
ghost use Rattle.picture.specs.Frame.{frame};
ghost use Rattle.picture.specs.Draw.{drawn};
ghost use Rattle.widebus.specs.Pair.{chips_of, both_lent};
ghost use Rattle.widepicture.specs.WideFrame.{wide_frame, first_column};
ghost use Rattle.widepicture.specs.WideDraw.{draw_wide, rows_written};

use crate::whole::shade_of;
use bus::registers::Registers;
use constants::refusal::Refusal;
use constants::sizes::{FRAME_ROWS, WIDE_FRAME_SIZE, WIDE_WIDTH, WIDTH};
use picture::draw::draw_line;
use picture::rows::PanelRow;
use widebus::both::{Both, ask};
use widebus::selection::Side;

// Draws the wide frame, or refuses and writes nothing.
pub fn draw(
    left_state: &[u8],
    left_memory: &[u8],
    right_state: &[u8],
    right_memory: &[u8],
    frame: &mut [u8],
) -> Result<(), Refusal>
    ensures { drawn (number_met result) frame.new ≡ draw_wide (both_lent left_state.now left_memory.now right_state.now right_memory.now) frame.old }
{
    let Some(places) = frame.first_chunk_mut() else {
        return Err(Refusal::TooShort);
    };
    let registers = ask(left_state, left_memory, right_state, right_memory)?;
    draw_both(registers, left_memory, right_memory, places);
    Ok(())
}

// Draws both halves, or the whole frame at once where the registers of both chips tell one shade, since each narrow frame is then drawn at once too.
fn draw_both(
    registers: Both,
    left_memory: &[u8],
    right_memory: &[u8],
    places: &mut [u8; WIDE_FRAME_SIZE],
)
    requires { (memory_size ≤ length left_memory.now) × (memory_size ≤ length right_memory.now) }
    ensures { places.new ≡ wide_frame (chips_of registers left_memory.now right_memory.now) }
{
    let left = shade_of(registers.left);
    let right = shade_of(registers.right);
    if let (Some(shade), Some(other)) = (left, right) {
        if shade == other {
            places.fill(shade);
            return;
        }
    }
    draw_half(Side::Left, registers.left, left_memory, places);
    draw_half(Side::Right, registers.right, right_memory, places);
}

// Draws each row of one chip into its half of a wide row. A loop for each chip is what keeps the wide frame near twice the time of one. The part is cut by hand and `y` is below 65, as in picture's draw.rt.
fn draw_half(side: Side, registers: Registers, memory: &[u8], places: &mut [u8; WIDE_FRAME_SIZE])
    requires { memory_size ≤ length memory.now }
    ensures { places.new ≡ rows_written (first_column side) frame_rows (frame registers memory.now) places.old }
{
    let first = first_column(side);
    for y in 0..FRAME_ROWS {
        let start = y * WIDE_WIDTH + first;
        let end = start + WIDTH;
        draw_line(
            registers,
            memory,
            PanelRow(y as u8),
            &mut places[start..end],
        );
    }
}

// The place of a row at which a chip's half begins. A `From` would not say what number of a side it is.
fn first_column(side: Side) -> usize
    ensures { result ≡ first_column side }
{
    match side {
        Side::Left => 0,
        Side::Right => WIDTH,
    }
}

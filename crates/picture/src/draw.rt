// The calls that draw: a whole frame, lent state image, memory and frame; and one row of it.
ghost use Rattle.std.specs.Prelude.{◌≡◌};
ghost use Rattle.constants.specs.Refusals.{number_met};
ghost use Rattle.picture.specs.Frame.{frame};
ghost use Rattle.picture.specs.Draw.{drawn, draw};
ghost use Rattle.picture.specs.DrawLine.{draw_line};

use crate::row::draw_row;
use crate::rows::PanelRow;
use crate::whole::draw_whole;
use bus::image::ask;
use bus::registers::Registers;
use constants::refusal::Refusal;
use constants::sizes::{FRAME_ROWS, FRAME_SIZE, HEIGHT, MEMORY_SIZE, WIDTH};

// Draws the frame, or refuses and writes nothing.
pub fn draw(state: &[u8], memory: &[u8], frame: &mut [u8]) -> Result<(), Refusal>
    ensures { drawn (number_met result) frame.new ≡ draw state.now memory.now frame.old }
{
    let Some(places) = frame.first_chunk_mut() else {
        return Err(Refusal::TooShort);
    };
    let registers = ask(state, memory)?;
    let Some(memory) = memory.first_chunk() else {
        return Err(Refusal::TooShort);
    };
    draw_frame(registers, memory, places);
    Ok(())
}

// Draws the frame. Registers and memory are no struct together: the row rule takes the one alone and pages the other, and an upright memory is drawn in the memory's place. Bits are drawn with all rows in view; each row of one shade by itself, which the compiler makes one fill of them.
fn draw_frame(registers: Registers, memory: &[u8; MEMORY_SIZE], places: &mut [u8; FRAME_SIZE])
    ensures { places.new ≡ frame registers memory.now }
{
    if registers.on == 0 || registers.entire == 1 {
        draw_rows(registers, memory, places);
    } else {
        draw_whole(registers, memory, places);
    }
}

// Draws each row into its own part of the frame. The part is cut by hand: after a loop over `chunks_exact_mut` a proof knows no place of the frame.
fn draw_rows(registers: Registers, memory: &[u8; MEMORY_SIZE], places: &mut [u8; FRAME_SIZE])
    ensures { places.new ≡ frame registers memory.now }
{
    for y in 0..FRAME_ROWS {
        let start = y * WIDTH;
        let end = start + WIDTH;
        draw_row(
            registers,
            memory,
            PanelRow(y as u8),
            &mut places[start..end],
        );
    }
}

// Draws one row of the frame into its own 132 bytes, for a frame that has other places beside them; does nothing where the row is no row of the frame, the memory is too short or the part is not 132 bytes.
pub fn draw_line(registers: Registers, memory: &[u8], row: PanelRow, places: &mut [u8])
    ensures { places.new ≡ draw_line registers memory.now row places.old }
{
    if row.0 > HEIGHT || places.len() != WIDTH {
        return;
    }
    if let Some(memory) = memory.first_chunk() {
        draw_row(registers, memory, row, places);
    }
}

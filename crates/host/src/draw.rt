// The frame, drawn.
ghost use Rattle.std.specs.Prelude.{◌≡◌};
ghost use Rattle.picture.specs.Draw.{drawn, draw};

use constants::refusal::number_met;

// In C's form (lib.rt).

// Draws the frame, or refuses 1 or 2 and writes nothing.
#[unsafe(no_mangle)]
pub extern "C" fn ssd1815b_draw(state: &[u8], memory: &[u8], frame: &mut [u8]) -> u8
    ensures { drawn result frame.new ≡ draw state.now memory.now frame.old }
{
    number_met(picture::draw::draw(state, memory, frame))
}

// The wide frame, drawn.
ghost use Rattle.std.specs.Prelude.{◌≡◌};
ghost use Rattle.picture.specs.Draw.{drawn};
ghost use Rattle.widebus.specs.Pair.{both_lent};
ghost use Rattle.widepicture.specs.WideDraw.{draw_wide};

use constants::refusal::number_met;

// A number for the refusal, and four lent slices: C's interface (host/ssd1815b.h).

// Draws the wide frame, or refuses 1 or 2 and writes nothing.
#[unsafe(no_mangle)]
pub extern "C" fn ssd1815b_wide_draw(
    left_state: &[u8],
    left_memory: &[u8],
    right_state: &[u8],
    right_memory: &[u8],
    frame: &mut [u8],
) -> u8
    ensures { drawn result frame.new ≡ draw_wide (both_lent left_state.now left_memory.now right_state.now right_memory.now) frame.old }
{
    number_met(widepicture::draw::draw(left_state, left_memory, right_state, right_memory, frame))
}

// A frame listed as text.
ghost use Rattle.std.specs.Prelude.{◌≡◌};
ghost use Rattle.framelisting.specs.Listing.{listed};
ghost use Rattle.host.specs.List.{list_reply, of_listed};

use constants::refusal::hand_count;

// In C's form (lib.rt).

// Lists a frame, after a stopped run's number and offset: the text's length goes to where the host wants it, 0 where it is refused.
#[unsafe(no_mangle)]
pub extern "C" fn ssd1815b_list(
    number: u8,
    offset: usize,
    frame: &[u8],
    text: &mut [u8],
    length: &mut usize,
) -> u8
    ensures { list_reply result length.new text.new ≡ of_listed (listed number offset frame.now text.old) }
{
    let listed = framelisting::list(number, offset, frame, text);
    hand_count(listed, length)
}

// A frame, one chip's or the wide one, and a stopped run's number and offset, as text into a lent buffer.
#![tactic(auto)]

ghost use Rattle.std.specs.Prelude.{◌≡◌, ◌*◌, ◌^◌, ◌<◌};
ghost use Rattle.constants.specs.Sizes.{frame_rows};
ghost use Rattle.framelisting.specs.Listing.{outcome, listed_of, listed_across, listed, listed_wide};
ghost use Rattle.framelisting.specs.LongestListing.{AtMost};

use crate::frame::put_listing;
use constants::refusal::Refusal;
use constants::sizes::{FRAME_ROWS, LONGEST_LISTING, LONGEST_WIDE_LISTING, WIDE_WIDTH, WIDTH};

mod frame;
mod row;
mod text;

// Lists a frame into a lent buffer, after a stopped run's number and offset, and answers the text's length; number 0 is taken, and says nothing of a run.
// A number and no Refusal: C lists whatever number it was handed, and any number from 1 to 255 is promised a line (`listed`).
pub fn list(number: u8, offset: usize, frame: &[u8], text: &mut [u8]) -> Result<usize, Refusal>
    ensures { outcome (listed_of result) text.new ≡ listed number offset frame.now text.old }
{
    list_across::<WIDTH, LONGEST_LISTING>(number, offset, frame, text)
}

// Lists a wide frame in the same way.
pub fn list_wide(number: u8, offset: usize, frame: &[u8], text: &mut [u8]) -> Result<usize, Refusal>
    ensures { outcome (listed_of result) text.new ≡ listed_wide number offset frame.now text.old }
{
    list_across::<WIDE_WIDTH, LONGEST_WIDE_LISTING>(number, offset, frame, text)
}

// Lists a frame that is so wide, and whose listing is never longer than so many bytes.
fn list_across<const ACROSS: usize, const LONGEST: usize>(
    number: u8,
    offset: usize,
    frame: &[u8],
    text: &mut [u8],
) -> Result<usize, Refusal>
    requires width_bound { frame_rows * ACROSS < 2 ^ 64 }
    requires at_most { AtMost ACROSS LONGEST }
    ensures { outcome (listed_of result) text.new ≡ listed_across ACROSS number offset frame.now text.old }
{
    let size = FRAME_ROWS * ACROSS;
    if frame.len() < size {
        return Err(Refusal::TooShort);
    }
    // A buffer that holds any listing is written at once; another is measured first.
    if LONGEST <= text.len() {
        return Ok(put_listing(text, number, offset, ACROSS, frame));
    }
    let length = put_listing(&mut text[..0], number, offset, ACROSS, frame);
    if text.len() < length {
        return Err(Refusal::TooShort);
    }
    put_listing(text, number, offset, ACROSS, frame);
    Ok(length)
}

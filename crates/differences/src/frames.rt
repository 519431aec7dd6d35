// Where two frames differ.
ghost use Rattle.std.specs.Prelude.{◌≡◌, true, take};
ghost use Rattle.constants.specs.Sizes.{frame_size};
ghost use Rattle.differences.specs.Compared.{compared_of};
ghost use Rattle.differences.specs.Compare.{outcome, any_above, compare_frames};

use crate::list::{list_all, whole};
use crate::run::Run;
use constants::refusal::Refusal;
use constants::sizes::{FRAME_SIZE, LONGEST_FRAME_LIST};

// Bytes of five rows, which are passed over together where they are the same.
const FIVE_ROWS: usize = 660;

// Lists each run of differing places of two frames into a lent buffer, or refuses and writes nothing.
pub fn compare_frames(first: &[u8], second: &[u8], list: &mut [u8]) -> Result<usize, Refusal>
    ensures { outcome (compared_of result) list.new ≡ compare_frames first.now second.now list.old }
{
    let first = whole::<FRAME_SIZE>(first)?;
    let second = whole::<FRAME_SIZE>(second)?;
    let seen = look(first, second);
    if seen.above {
        return Err(Refusal::FrameByteAbove);
    }
    if seen.same {
        return Ok(0);
    }
    let above = any_above(second);
    if above {
        return Err(Refusal::FrameByteAbove);
    }
    list_all::<Run, FRAME_SIZE, FIVE_ROWS, LONGEST_FRAME_LIST>(first, second, list)
}

// What one look at two frames tells, 251 ns for 374 in two: whether a byte of the first is above 1, and whether both are the same; `same: false` tells nothing.
#[derive(Drop)]
struct Seen {
    above: bool,
    same: bool,
}

// Looks at two frames, at all of their bytes and deciding at the end, so that many are looked at together.
fn look(first: &[u8; FRAME_SIZE], second: &[u8; FRAME_SIZE]) -> Seen
    ensures { (result.above ≡ any_above first.now) × (result.same ≡ true → first.now ≡ second.now) }
{
    let mut largest = 0u8;
    let mut differing = 0u8;
    for (was, is) in first.iter().zip(second) {
        largest = largest.max(*was);
        differing = differing.max(*was ^ *is);
    }
    Seen {
        above: 1 < largest,
        same: differing == 0,
    }
}

// Whether one of a frame's bytes is above 1. It looks at all of them, many together: `iter().any` takes 3,469 ns for 105.
fn any_above(frame: &[u8; FRAME_SIZE]) -> bool
    ensures { result ≡ any_above frame.now }
{
    let mut largest = 0u8;
    for byte in frame {
        largest = largest.max(*byte);
    }
    1 < largest
}

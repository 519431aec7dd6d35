// From a trace's bytes to the text that the listing program prints for it.
#![tactic(auto)]

pub mod word;

ghost use Rattle.std.specs.Prelude.{◌≡◌, ◌≤◌, length};
ghost use Rattle.constants.specs.Sizes.{longest_listing};
ghost use Rattle.tracelisting.specs.TraceListing.{listing_of_trace, text_for, printed, printed_of};

use bus::start::Hung;
use constants::refusal::number_met;
use constants::sizes::{FRAME_SIZE, IMAGE_SIZE, LONGEST_LISTING, LONGEST_TRACE, MEMORY_SIZE};

// Puts what the listing program prints for its input, from the start as the module hangs, into a buffer that is long enough for any listing, and answers the text's length.
pub fn list_input(hung: Hung, input: &[u8], text: &mut [u8]) -> usize
    ensures { printed result text.new ≡ printed_of (text_for hung input.now) text.old }
{
    if LONGEST_TRACE < input.len() {
        return put_notice(b"input too long\n", text);
    }
    list_trace(hung, input, text)
}

// Lists what a trace of any length leaves on the glass, from the start as the module hangs; answers the text's length, 0 where the buffer is too short for some listing.
// No Result: what is promised is `printed`, which cannot fail, and programs lend room for any listing.
fn list_trace(hung: Hung, trace: &[u8], text: &mut [u8]) -> usize
    ensures { printed result text.new ≡ printed_of (listing_of_trace hung trace.now) text.old }
{
    if text.len() < LONGEST_LISTING {
        return 0;
    }
    let mut state = [0u8; IMAGE_SIZE];
    let mut memory = [0u8; MEMORY_SIZE];
    let mut frame = [0u8; FRAME_SIZE];
    let _ = bus::start::start(hung, &mut state, &mut memory);
    let stop = trace::run::run(&mut state, &mut memory, trace);
    let _ = picture::draw::draw(&state, &memory, &mut frame);
    let number = number_met(stop.outcome);
    framelisting::list(number, stop.offset, &frame, text).unwrap_or(0)
}

// Puts a line into such a buffer, and answers its length.
fn put_notice(line: &[u8], text: &mut [u8]) -> usize
    requires { length line.now ≤ longest_listing }
    ensures { printed result text.new ≡ printed_of line.now text.old }
{
    if text.len() < LONGEST_LISTING {
        return 0;
    }
    text[..line.len()].copy_from_slice(line);
    line.len()
}

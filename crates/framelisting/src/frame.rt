// The whole listing.
ghost use Rattle.std.specs.Prelude.{◌*◌, ◌≤◌, length};
ghost use Rattle.framelisting.specs.Put.{Countable, Put};
ghost use Rattle.framelisting.specs.Puts.{Puts};
ghost use Rattle.constants.specs.Sizes.{frame_rows};
ghost use Rattle.framelisting.specs.Text.{header, lines, refused_text, listing_across};

use crate::text::Text;
use constants::refusal::TAKEN;
use constants::sizes::FRAME_ROWS;

// Puts the listing at the start of the buffer, for a frame that is so wide, and answers its length.
#[tactic(auto, using(crate::proofs::LengthsOfText::listing_length))]
pub fn put_listing(
    buffer: &mut [u8],
    number: u8,
    offset: usize,
    width: usize,
    frame: &[u8],
) -> usize
    requires width_in_bounds { frame_rows * width ≤ length frame.now }
    requires countable { Countable 0 (listing_across width number offset frame.now) }
    ensures { Put buffer.old 0 (listing_across width number offset frame.now) result buffer.new }
{
    let mut text = Text { buffer, at: 0 };
    text.put_refused(number, offset);
    text.put_header(width);
    text.put_lines(width, frame);
    text.put_bytes(b"end\n");
    text.at
}

impl<'a> Text<'a> {
    // Puts what a stopped run first prints; a run that was taken prints nothing.
    #[tactic(auto, using(crate::proofs::LengthsOfText::refused_length))]
    fn put_refused(&mut self, number: u8, offset: usize)
        requires { Countable self.old.at (refused_text number offset) }
        ensures { Puts self.old (refused_text number offset) self.new }
    {
        if number == TAKEN {
            return;
        }
        self.put_bytes(b"refused ");
        self.put_number(usize::from(number));
        self.put_bytes(b" at ");
        self.put_number(offset);
        self.put(b'\n');
    }

    // Puts the line that says how wide the frame is, and that it has 65 rows.
    #[tactic(auto, using(crate::proofs::LengthsOfText::header_length))]
    fn put_header(&mut self, width: usize)
        requires { Countable self.old.at (header width frame_rows) }
        ensures { Puts self.old (header width frame_rows) self.new }
    {
        self.put_bytes(b"frame ");
        self.put_number(width);
        self.put_bytes(b" 65\n");
    }

    // Puts the lines of the 65 rows.
    #[tactic(auto, using(crate::proofs::RowsOfFrame::within))]
    fn put_lines(&mut self, width: usize, frame: &[u8])
        requires width_in_bounds { frame_rows * width ≤ length frame.now }
        requires countable { Countable self.old.at (lines width frame.now frame_rows 0) }
        ensures { Puts self.old (lines width frame.now frame_rows 0) self.new }
    {
        // No `chunks_exact`: a frame 0 wide is allowed here, and its rows are listed.
        for p in 0..FRAME_ROWS {
            let start = p * width;
            let end = start + width;
            self.put_line(p, &frame[start..end]);
        }
    }
}

// A row of the frame as a line of text.
ghost use Rattle.std.specs.Prelude.{◌≡◌, ◌+◌, ◌^◌, ◌≤◌, ◌<◌, length, drop};
ghost use Rattle.framelisting.specs.Put.{Countable};
ghost use Rattle.framelisting.specs.Puts.{Puts};
ghost use Rattle.framelisting.specs.Runs.{any_lit, leading, runs};
ghost use Rattle.framelisting.specs.Text.{run_text, runs_text, line};

use crate::text::Text;

// The bytes of a run whose places have three digits.
const RUN_ROOM: usize = 8;

impl<'a> Text<'a> {
    // Puts the line of row p; a row with no lit place has none.
    #[tactic(auto, using(crate::proofs::LengthsOfText::line_length))]
    pub fn put_line(&mut self, p: usize, row: &[u8])
        requires row_len_bound { length row.now + 1 < 2 ^ 64 }
        requires countable { Countable self.old.at (line p row.now) }
        ensures { Puts self.old (line p row.now) self.new }
    {
        if any_lit(row) {
            self.put_number(p);
            self.put_runs(row);
            self.put(b'\n');
        }
    }

    // Puts the runs of a row, left to right. The place after a run is dark, and is passed over with it.
    fn put_runs(&mut self, row: &[u8])
        requires row_len_bound { length row.now + 1 < 2 ^ 64 }
        requires countable { Countable self.old.at (runs_text (runs row.now)) }
        ensures { Puts self.old (runs_text (runs row.now)) self.new }
    {
        let mut x = 0;
        // x goes past a whole run at once, as no `for` does; with the places counted by `take_while` from each x, a listing of letters takes 28 % more instructions.
        while x < row.len() {
            if row[x] == 0 {
                x += 1;
            } else {
                let end = run_end(row, x + 1);
                self.put_run(x, end - 1);
                x = end + 1;
            }
        }
    }

    // Puts a run: a space, its first place, "-", its last.
    #[tactic(auto, using(crate::proofs::LengthsOfText::run_length))]
    fn put_run(&mut self, first: usize, last: usize)
        requires { Countable self.old.at (run_text (record { first = first; last = last })) }
        ensures { Puts self.old (run_text (record { first = first; last = last })) self.new }
    {
        if first <= last && last < 1000 && self.has_room(RUN_ROOM) {
            // The digits of a run of one place are worked out once.
            if first == last {
                self.put_small_run(first, first);
            } else {
                self.put_small_run(first, last);
            }
            return;
        }
        self.put(b' ');
        self.put_number(first);
        self.put(b'-');
        self.put_number(last);
    }

    // Puts a run of places of up to three digits where the buffer has room for it. Each call has a body of its own, so that the text's place stays in a register.
    #[inline(always)]
    fn put_small_run(&mut self, first: usize, last: usize)
        requires { (first < 1000) × (last < 1000) × (self.old.at + 8 ≤ length self.old.buffer.now) }
        ensures { Puts self.old (run_text (record { first = first; last = last })) self.new }
    {
        self.put_inside(b' ');
        self.put_small(first);
        self.put_inside(b'-');
        self.put_small(last);
    }
}

// Whether a row has a lit place.
fn any_lit(row: &[u8]) -> bool
    ensures { result ≡ any_lit row.now }
{
    row.iter().fold(0, |seen, place| seen | *place) != 0
}

// The place after the lit places from a place on; with `take_while` a listing of letters takes 4 % longer.
fn run_end(row: &[u8], from: usize) -> usize
    requires { from ≤ length row.now }
    ensures { result ≡ from + leading (drop from row.now) }
{
    for x in from..row.len() {
        if row[x] == 0 {
            return x;
        }
    }
    row.len()
}

// The runs of differing places of one row.
ghost use Rattle.std.specs.Prelude.{◌≡◌, ℕ, true, ◌&&◌, ◌+◌, ◌-◌, ◌*◌, ◌≤◌, ◌<◌, eqb, length};
ghost use Rattle.std.proofs.lemmas.List.Edits.{sets};
ghost use Rattle.std.proofs.Common.{lit≤};
ghost use Rattle.constants.specs.Sizes.{width, frame_entry_size};
ghost use Rattle.differences.specs.Runs.{more, row_runs};
ghost use Rattle.differences.specs.Found.{run_bytes, runs_found};
ghost use Rattle.differences.specs.Laws.{run_bytes_sized, runs_found_few, runs_found_none};
ghost use Rattle.differences.specs.Put.{Room, Put, Uniform, OneRun};

use crate::list::{Entry, ROW};
use constants::sizes::{FRAME_ENTRY_SIZE, LAST_COLUMN};

// A run: its row, its first and last column, and what its places hold in the first frame and in the second.
#[derive(Clone, Copy)]
pub struct Run {
    pub row: u8,
    pub first: u8,
    pub last: u8,
    pub in_first: u8,
    pub in_second: u8,
}

impl Run {
    // Puts the run as entry number `at`, byte by byte, as a differing byte is put (src/byte.rt).
    fn put_at(self, list: &mut [u8], at: usize)
        requires { at * frame_entry_size + frame_entry_size ≤ length list.old }
        ensures { list.new ≡ sets list.old (at * frame_entry_size) (run_bytes self) }
    {
        let start = at * FRAME_ENTRY_SIZE;
        list[start] = self.row;
        list[start + 1] = self.first;
        list[start + 2] = self.last;
        list[start + 3] = self.in_first;
        list[start + 4] = self.in_second;
    }
}

impl Entry for Run {
    ghost SIZE = { frame_entry_size };

    ghost bytes = { run_bytes };

    ghost found = { runs_found };

    ghost sized = { run_bytes_sized };

    ghost small = { lit≤ tt };

    ghost few = { runs_found_few };

    ghost none = { runs_found_none };

    const SIZE: usize = FRAME_ENTRY_SIZE;

    // The places where a run begins: each place is compared with the one before it, in both rows, which `windows` of two rows zipped would say no plainer.
    fn count(_row: u8, first: &[u8; ROW], second: &[u8; ROW]) -> u8 {
        if first == second {
            return 0;
        }
        let mut count = u8::from(first[0] != second[0]);
        for x in 1..ROW {
            let differs = first[x] != second[x];
            let goes_on = same_way(first[x], second[x], first[x - 1], second[x - 1]);
            count += u8::from(differs & !goes_on);
        }
        count
    }

    // A row that is the same in both has no run, and one that differs in one way throughout is one.
    fn put(list: &mut [u8], at: usize, row: u8, first: &[u8; ROW], second: &[u8; ROW]) -> usize {
        if first == second {
            return at;
        }
        if one_run(first, second) {
            let run = Run {
                row,
                first: 0,
                last: LAST_COLUMN,
                in_first: first[0],
                in_second: second[0],
            };
            run.put_at(list, at);
            return at + 1;
        }
        put_runs(list, at, row, first, second)
    }
}

// Whether a row differs in one way throughout: asked for speed, as `false` tells nothing.
fn one_run(first: &[u8; ROW], second: &[u8; ROW]) -> bool
    ensures { result ≡ true → OneRun width first.now second.now }
{
    first[0] != second[0] && uniform(first) && uniform(second)
}

// Whether all places of a row hold the same. It looks at all of them, many together: `iter().all` stops at the first that differs, and takes 33 ns for 5.
fn uniform(row: &[u8; ROW]) -> bool
    ensures { result ≡ true → Uniform width row.now }
{
    let mut uniform = true;
    for place in row {
        uniform &= *place == row[0];
    }
    uniform
}

// Puts the runs of a row: each from the differing place where it begins to its end, and the next from there on.
// A `while`: `x` goes on after each run's last place, and a `for` goes on by one. Columns are below 132 (`as u8`).
fn put_runs(list: &mut [u8], at: usize, row: u8, first: &[u8; ROW], second: &[u8; ROW]) -> usize
    requires { Room frame_entry_size list.old at (runs_found row first.now second.now) }
    ensures { Put frame_entry_size run_bytes list.old at (runs_found row first.now second.now) result list.new }
{
    let mut next = at;
    let mut x = 0;
    while x < ROW {
        if first[x] != second[x] {
            let last = run_last(first, second, x);
            let run = Run {
                row,
                first: x as u8,
                last: last as u8,
                in_first: first[x],
                in_second: second[x],
            };
            run.put_at(list, next);
            next += 1;
            x = last;
        }
        x += 1;
    }
    next
}

// The last place of the run that begins at a place, each place after it compared with that one in both rows.
fn run_last(first: &[u8; ROW], second: &[u8; ROW], from: usize) -> usize
    requires { from < width }
    ensures { result ≡ from + more first.now second.now (width - (from + 1)) from }
{
    let mut last = from;
    for x in from + 1..ROW {
        if !same_way(first[x], second[x], first[from], second[from]) {
            return last;
        }
        last = x;
    }
    last
}

// Whether two places hold the same in the first frame, and the same in the second.
fn same_way(was: u8, is: u8, other_was: u8, other_is: u8) -> bool
    ensures { result ≡ (eqb was other_was && eqb is other_is) }
{
    (was, is) == (other_was, other_is)
}

// The reader: a cursor over the caller's own bytes. Its methods are thin: what stands at its place is found by the function on slice and offset.
ghost use Rattle.std.specs.Prelude.{◌≡◌, drop};
ghost use Rattle.trace.specs.Front.{front_of};
ghost use Rattle.trace.specs.ReaderWalk.{New, Moved, Next};

use crate::records::{Front, front_at};

// A trace and a place in it.
#[derive(Clone, Copy)]
pub struct Reader<'a> {
    pub trace: &'a [u8],
    pub at: usize,
}

impl<'a> Reader<'a> {
    // A reader at the trace's first byte.
    pub fn new(trace: &'a [u8]) -> Reader<'a>
        ensures { New trace.entry result }
    {
        Reader { trace, at: 0 }
    }

    // The reader at another place.
    pub fn moved(self, at: usize) -> Reader<'a>
        ensures { Moved self.entry at result }
    {
        Reader { at, ..self }
    }

    // What stands at the reader's place.
    pub fn next(self) -> Front
        ensures { Next self.entry result }
    {
        front_at(self.trace, self.at)
    }
}

// What a reader finds at an offset of the trace.
pub fn read_at(trace: &[u8], at: usize) -> Front
    ensures { result ≡ front_of (drop at trace.now) }
{
    Reader::new(trace).moved(at).next()
}

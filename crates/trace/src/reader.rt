// A reader that holds the caller's trace and a place in it. It is thin over `first_place`, `record_at` and `place_after`, which take a plain slice; `nth`
// stands above it for callers that hold none.
ghost use Rattle.std.specs.Prelude.{◌≡◌};
ghost use Rattle.trace.specs.Format.{record_at, place_after, first_place};
ghost use Rattle.trace.specs.Words.{next_says};

use crate::{Record, first_place, place_after, record_at};

// No `Iterator`: `next` looks at a record, and `moved` goes on to the one behind it, while an iterator's `next` would do both under the name of the first.
#[derive(Clone, Copy)]
pub struct Reader<'a> {
    pub trace: &'a [u8],
    pub place: usize,
}

impl<'a> Reader<'a> {
    // A reader at the first record. One of a refused trace yields no record, however often it is moved.
    pub fn new(trace: &'a [u8]) -> Reader<'a>
        ensures { (result.trace ≡ trace.entry) × (result.place ≡ first_place trace.now) }
    {
        Reader {
            trace,
            place: first_place(trace),
        }
    }

    // The record at the reader's place.
    pub fn next(self) -> Option<Record>
        ensures { next_says result ≡ next_says (record_at self.entry.trace.now self.entry.place) }
    {
        record_at(self.trace, self.place)
    }

    // The reader at the next record; where there is none it stays.
    pub fn moved(self) -> Reader<'a>
        ensures { (result.trace ≡ self.entry.trace) × (result.place ≡ place_after self.entry.trace.now self.entry.place) }
    {
        Reader {
            trace: self.trace,
            place: place_after(self.trace, self.place),
        }
    }
}

// The record at a place of a plain slice.
pub fn nth(trace: &[u8], place: usize) -> Option<Record>
    ensures { next_says result ≡ next_says (record_at trace.now place) }
{
    Reader { trace, place }.next()
}

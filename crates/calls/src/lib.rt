// Calls as data, for a program that makes them in large numbers: a call, and what it said; `chance` makes calls up, `windows` the kept numbers of those that
// take them.
#![tactic(auto)]

ghost use Rattle.std.specs.Prelude.{◌<◌};

pub mod chance;
pub mod windows;

use casa::Done;
use model::{Access, Kept, Refusal, Victim};
use pool::Pool;

// ---- answers

const KINDS: usize = 27;

// What a call said, of so many kinds.
#[derive(Clone, Copy)]
pub enum Said {
    Noted,
    Found(Access),
    Wrote(usize),
    Total(u64),
    Dropped,
    Refused(Refusal),
}

impl Said {
    // What was answered, where `served` makes the words of a call that was served.
    pub fn of<T, F: FnOnce(T) -> Said>(answer: Result<T, Refusal>, served: F) -> Said
        requires { F.IsAlwaysCallable served }
    {
        answer.map_or_else(Said::Refused, served)
    }

    // The number of its kind, which digests absorb: that of a refusal is the scope's, for which there is room up to 19.
    pub fn kind(self) -> usize
        ensures { result < KINDS }
    {
        match self {
            Said::Noted => 0,
            Said::Refused(why) => why.number() as usize,
            Said::Found(Access::Hit) => 20,
            Said::Found(Access::Fault(None)) => 21,
            Said::Found(Access::Fault(Some(Victim::Clean(_)))) => 22,
            Said::Found(Access::Fault(Some(Victim::Dirty(_)))) => 23,
            Said::Wrote(_) => 24,
            Said::Total(_) => 25,
            Said::Dropped => 26,
        }
    }

    // The page of a victim, the pages written or the cost; nothing else goes with its kind.
    pub fn value(self) -> u64 {
        match self {
            Said::Found(Access::Fault(Some(Victim::Clean(page) | Victim::Dirty(page)))) => {
                page as u64
            }
            Said::Wrote(pages) => pages as u64,
            Said::Total(cost) => cost,
            _ => 0,
        }
    }
}

// How many answers were of each kind.
#[derive(Clone, Copy)]
pub struct Counts([u64; KINDS]);

impl Counts {
    pub fn new() -> Counts {
        Counts([0; KINDS])
    }

    pub fn add(&mut self, said: Said) {
        let kind = said.kind();
        self.0[kind] = self.0[kind].wrapping_add(1);
    }

    // How many were of the same kind.
    pub fn of(&self, said: Said) -> u64 {
        self.0[said.kind()]
    }
}

// ---- one call

// What a call asks for: what the letter of a trace does, or the total.
#[derive(Clone, Copy)]
pub enum Request {
    Read,
    Write,
    Flush,
    Drop,
    Total,
}

// A call, with how many bytes of each memory are lent. A write's bytes grow from `value`. Only a read or a write looks at the kept numbers.
#[derive(Clone, Copy)]
pub struct Call {
    pub request: Request,
    pub page: usize,
    pub start: usize,
    pub length: usize,
    pub value: u8,
    pub frame_bytes: usize,
    pub store_bytes: usize,
    pub out_bytes: usize,
    pub kept: Option<Kept>,
}

// The pool that a call hands back, and what it said.
#[derive(Clone, Copy)]
pub struct Left {
    pub pool: Pool,
    pub said: Said,
}

impl Left {
    // What a call of CASA left, where `served` makes the words of one that was served.
    pub fn by<T, F: FnOnce(T) -> Said>(done: Done<T>, served: F) -> Left
        requires { F.IsAlwaysCallable served }
    {
        let Done { pool, answer } = done;
        Left {
            pool,
            said: Said::of(answer, served),
        }
    }

    // The answer, and every field of the pool.
    pub fn absorbed(self, digest: u32) -> u32 {
        let answer = [self.said.kind() as u64, self.said.value()];
        digest::absorb_pool(digest::absorb_numbers(digest, 8, &answer), self.pool)
    }
}

// The longest stretch that is written.
pub const STRETCH: usize = 32;

// Bytes that differ, so that a stretch in the wrong place is seen.
pub fn stretch_bytes(value: u8) -> [u8; STRETCH] {
    let mut bytes = [0; STRETCH];
    let mut next = value;
    for byte in bytes.iter_mut() {
        *byte = next;
        next = next.wrapping_add(29);
    }
    bytes
}

fn read(pool: Pool, call: Call, frames: &mut [u8], store: &mut [u8], out: &mut [u8]) -> Left {
    let done = match call.kept {
        Some(kept) => casa::read_page_measured(pool, kept, call.page, frames, store, out),
        None => casa::read_page(pool, call.page, frames, store, out),
    };
    Left::by(done, Said::Found)
}

fn write(pool: Pool, call: Call, frames: &mut [u8], store: &mut [u8]) -> Left {
    let stretch = stretch_bytes(call.value);
    let bytes = &stretch[..call.length.min(STRETCH)];
    let done = match call.kept {
        Some(kept) => {
            casa::write_page_measured(pool, kept, call.page, call.start, bytes, frames, store)
        }
        None => casa::write_page(pool, call.page, call.start, bytes, frames, store),
    };
    Left::by(done, Said::Found)
}

fn serve(pool: Pool, call: Call, frames: &mut [u8], store: &mut [u8], out: &mut [u8]) -> Left {
    match call.request {
        Request::Read => read(pool, call, frames, store, out),
        Request::Write => write(pool, call, frames, store),
        Request::Flush => Left::by(casa::flush(pool, frames, store), Said::Wrote),
        Request::Drop => Left::by(
            casa::drop_page(pool, call.page, frames, store),
            |()| Said::Dropped,
        ),
        Request::Total => Left {
            pool,
            said: Said::of(casa::total(pool), Said::Total),
        },
    }
}

// Makes the call on as much of each memory as it says.
pub fn make(pool: Pool, call: Call, frames: &mut [u8], store: &mut [u8], out: &mut [u8]) -> Left {
    let m = call.frame_bytes.min(frames.len());
    let n = call.store_bytes.min(store.len());
    let k = call.out_bytes.min(out.len());
    serve(pool, call, &mut frames[..m], &mut store[..n], &mut out[..k])
}

// The same calls on a pool that is lent, and brought up to date where it stands: for a loop that holds one pool. Each is thin over the call by value, and
// answers alike. Both forms stay: who lends a pool keeps it, and who hands one in may have no place of its own where it stands.
#![tactic(auto)]

ghost use Rattle.std.specs.Prelude.{◌≡◌, []};
ghost use Rattle.model.specs.Times.{unmeasured, measured};
ghost use Rattle.model.specs.Run as run;
ghost use Rattle.casa.specs.Calls.{after, served_left, flushed_left, dropped_left};

use casa::{Done, Served};
use model::{Answer, Kept, Refusal};
use pool::Pool;

// Reads a page into `out`. Refused: 2, 3, 4, 5, 6.
pub fn read_page_in(
    pool: &mut Pool,
    page: usize,
    frames: &mut [u8],
    store: &mut [u8],
    out: &mut [u8],
) -> Answer
    ensures { served_left (record { pool = pool.new; answer = result }) frames.new store.new out.new
        ≡ after pool.old frames.old store.old (run.read unmeasured page out.old) }
{
    let done = casa::read_page(*pool, page, frames, store, out);
    *pool = done.pool;
    done.answer
}

// Writes `bytes` into a page from its byte `start` on. Refused: 2, 3, 4, 5, 6.
pub fn write_page_in(
    pool: &mut Pool,
    page: usize,
    start: usize,
    bytes: &[u8],
    frames: &mut [u8],
    store: &mut [u8],
) -> Answer
    ensures { served_left (record { pool = pool.new; answer = result }) frames.new store.new []
        ≡ after pool.old frames.old store.old (run.write unmeasured page start bytes.now) }
{
    let done = casa::write_page(*pool, page, start, bytes, frames, store);
    *pool = done.pool;
    done.answer
}

// Reads a page into `out`, with the costs that are measured on the drive once both windows are full. Refused: 2, 13, 3, 4, 5, 6.
pub fn read_page_measured_in(
    pool: &mut Pool,
    kept: Kept,
    page: usize,
    frames: &mut [u8],
    store: &mut [u8],
    out: &mut [u8],
) -> Answer
    ensures { served_left (record { pool = pool.new; answer = result }) frames.new store.new out.new
        ≡ after pool.old frames.old store.old (run.read (measured kept) page out.old) }
{
    let done = casa::read_page_measured(*pool, kept, page, frames, store, out);
    *pool = done.pool;
    done.answer
}

// Writes `bytes` into a page, with the same costs. Refused: 2, 13, 3, 4, 5, 6.
pub fn write_page_measured_in(
    pool: &mut Pool,
    kept: Kept,
    page: usize,
    start: usize,
    bytes: &[u8],
    frames: &mut [u8],
    store: &mut [u8],
) -> Answer
    ensures { served_left (record { pool = pool.new; answer = result }) frames.new store.new []
        ≡ after pool.old frames.old store.old (run.write (measured kept) page start bytes.now) }
{
    let done = casa::write_page_measured(*pool, kept, page, start, bytes, frames, store);
    *pool = done.pool;
    done.answer
}

// Writes every changed page to the store. Refused: 2, 3, 6.
pub fn flush_in(pool: &mut Pool, frames: &[u8], store: &mut [u8]) -> Result<usize, Refusal>
    ensures { flushed_left (record { pool = pool.new; answer = result }) frames.now store.new ≡
        after pool.old frames.now store.old run.flush }
{
    let done = casa::flush(*pool, frames, store);
    *pool = done.pool;
    done.answer
}

// Cuts a page for good. Refused: 2, 3, 4, 6.
pub fn drop_page_in(
    pool: &mut Pool,
    page: usize,
    frames: &[u8],
    store: &mut [u8],
) -> Result<(), Refusal>
    ensures { dropped_left (record { pool = pool.new; answer = result }) frames.now store.new ≡
        after pool.old frames.now store.old (run.drop page) }
{
    let done = casa::drop_page(*pool, page, frames, store);
    *pool = done.pool;
    done.answer
}

// A caller that lends a pool of its own is promised what the call by value promises: both answer alike.
pub fn read_page_own(
    pool: Pool,
    page: usize,
    frames: &mut [u8],
    store: &mut [u8],
    out: &mut [u8],
) -> Served
    ensures { served_left result frames.new store.new out.new ≡ after pool
        frames.old store.old (run.read unmeasured page out.old) }
{
    let mut own = pool;
    let answer = read_page_in(&mut own, page, frames, store, out);
    Done { pool: own, answer }
}

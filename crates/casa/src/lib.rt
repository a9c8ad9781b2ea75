// The public calls of the page buffer, on a pool that is handed in and handed back: open, read, write, flush, drop and total, a read and a write also in a form
// that takes kept numbers. Every call takes any numbers, any bytes and any pool; what cannot be served is refused with the scope's number, and a refused call
// changes nothing. Frame memory and store are lent apart, since a flush and a drop only look at the one and write the other.
#![tactic(auto)]

ghost use Rattle.std.specs.Prelude.{◌≡◌, []};
ghost use Rattle.model.specs.Words.{costing_says};
ghost use Rattle.model.specs.Times.{unmeasured, measured};
ghost use Rattle.model.specs.Run as run;
ghost use Rattle.model.specs.Numbers.{numbers_held};
ghost use Rattle.casa.specs.Calls.{open_by, open_after, open_left, after, served_left, flushed_left, dropped_left};

use model::{Access, Kept, Numbers, Refusal, USUAL_READ, USUAL_WRITE};
use pool::Pool;

// What a call hands back: the pool, and its answer or why it is refused. Refused, it is the pool that was handed in.
#[derive(Clone, Copy)]
pub struct Done<T> {
    pub pool: Pool,
    pub answer: Result<T, Refusal>,
}

// Of opening and of a drop: there is no further answer.
pub type Opened = Done<()>;

pub type Dropped = Done<()>;

// Of a read or a write.
pub type Served = Done<Access>;

// Of a flush: how many pages it wrote.
pub type Flushed = Done<usize>;

// ---- open

// With costs that are meant as they stand.
fn open_with(numbers: Numbers) -> Opened
    ensures { open_left result ≡ open_by (numbers_held numbers) }
{
    if !numbers.in_limits() {
        return Done {
            pool: Pool::fresh(Numbers::default()),
            answer: Err(Refusal::OutOfLimits),
        };
    }
    Done {
        pool: Pool::fresh(numbers),
        answer: Ok(()),
    }
}

// Opens a pool of so many frames over a store of so many pages. Both costs 0 mean the usual drive. Refused: 1.
pub fn open(numbers: Numbers) -> Opened
    ensures { open_left result ≡ open_after (numbers_held numbers) }
{
    if numbers.read_cost == 0 && numbers.write_cost == 0 {
        return open_with(Numbers {
            read_cost: USUAL_READ,
            write_cost: USUAL_WRITE,
            ..numbers
        });
    }
    open_with(numbers)
}

// ---- read

// Reads a page: `out` becomes its bytes. Refused: 2, 3, 4, 5, 6. It is the form that takes kept numbers, with nothing measured yet.
pub fn read_page(
    pool: Pool,
    page: usize,
    frames: &mut [u8],
    store: &mut [u8],
    out: &mut [u8],
) -> Served
    ensures { served_left result frames.new store.new out.new
        ≡ after pool frames.old store.old (run.read unmeasured page out.old) }
{
    let kept = costs::fresh(1);
    read_page_measured(pool, kept, page, frames, store, out)
}

// Reads a page, with the costs that are measured on the drive once both windows are full. Refused: 2, 13, 3, 4, 5, 6.
pub fn read_page_measured(
    pool: Pool,
    kept: Kept,
    page: usize,
    frames: &mut [u8],
    store: &mut [u8],
    out: &mut [u8],
) -> Served
    ensures { served_left result frames.new store.new out.new
        ≡ after pool frames.old store.old (run.read (measured kept) page out.old) }
{
    let size = pool.numbers.page_bytes;
    let fit = out.len() == size;
    let sound = pool.is_sound();
    let timed = costs::kept_fits(kept);
    let verdict = serve::request_verdict(
        sound,
        timed,
        pool.numbers,
        pool.served,
        frames.len(),
        store.len(),
        page,
        fit,
    );
    match verdict {
        Err(why) => Done {
            pool,
            answer: Err(why),
        },
        Ok(()) => {
            let read = fine::read(pool, kept, page, frames, store, out);
            Done {
                pool: read.pool,
                answer: read.answer,
            }
        }
    }
}

// ---- write

// Writes `bytes` into a page, from its byte `start` on. Refused: 2, 3, 4, 5, 6. With nothing measured yet, as the read.
pub fn write_page(
    pool: Pool,
    page: usize,
    start: usize,
    bytes: &[u8],
    frames: &mut [u8],
    store: &mut [u8],
) -> Served
    ensures { served_left result frames.new store.new []
        ≡ after pool frames.old store.old (run.write unmeasured page start bytes.now) }
{
    let kept = costs::fresh(1);
    write_page_measured(pool, kept, page, start, bytes, frames, store)
}

// Writes `bytes` into a page, with the costs that are measured on the drive once both windows are full. Refused: 2, 13, 3, 4, 5, 6.
pub fn write_page_measured(
    pool: Pool,
    kept: Kept,
    page: usize,
    start: usize,
    bytes: &[u8],
    frames: &mut [u8],
    store: &mut [u8],
) -> Served
    ensures { served_left result frames.new store.new []
        ≡ after pool frames.old store.old (run.write (measured kept) page start bytes.now) }
{
    let size = pool.numbers.page_bytes;
    let fit = serve::stretch_fits(size, start, bytes.len());
    let sound = pool.is_sound();
    let timed = costs::kept_fits(kept);
    let verdict = serve::request_verdict(
        sound,
        timed,
        pool.numbers,
        pool.served,
        frames.len(),
        store.len(),
        page,
        fit,
    );
    match verdict {
        Err(why) => Done {
            pool,
            answer: Err(why),
        },
        Ok(()) => {
            let wrote = fine::write(pool, kept, page, start, bytes, frames, store);
            Done {
                pool: wrote.pool,
                answer: wrote.answer,
            }
        }
    }
}

// ---- flush

// Writes every changed page to the store. Refused: 2, 3, 6. It names no page, no bytes and no kept numbers: it is refused as a fitting request for page 0 is,
// which every sound pool has.
pub fn flush(pool: Pool, frames: &[u8], store: &mut [u8]) -> Flushed
    ensures { flushed_left result frames.now store.new ≡ after pool frames.now store.old run.flush }
{
    let sound = pool.is_sound();
    let verdict = serve::request_verdict(
        sound,
        true,
        pool.numbers,
        pool.served,
        frames.len(),
        store.len(),
        0,
        true,
    );
    match verdict {
        Err(why) => Done {
            pool,
            answer: Err(why),
        },
        Ok(()) => Done {
            pool: fine::flush(pool, frames, store),
            answer: Ok(pool.lists.dirty.len),
        },
    }
}

// ---- drop

// Cuts a page for good: its bytes in the store become zero, and a frame that has it is free again, what is in it lost. The frame memory is lent to be measured
// alone. Refused: 2, 3, 4, 6, as a request for the page is whose bytes fit, without kept numbers.
pub fn drop_page(pool: Pool, page: usize, frames: &[u8], store: &mut [u8]) -> Dropped
    ensures { dropped_left result frames.now store.new ≡ after pool frames.now store.old (run.drop page) }
{
    let sound = pool.is_sound();
    let verdict = serve::request_verdict(
        sound,
        true,
        pool.numbers,
        pool.served,
        frames.len(),
        store.len(),
        page,
        true,
    );
    match verdict {
        Err(why) => Done {
            pool,
            answer: Err(why),
        },
        Ok(()) => Done {
            pool: fine::drop(pool, page, frames, store),
            answer: Ok(()),
        },
    }
}

// ---- total

// The cost of all physical reads and writes: here alone they meet. Refused: 2.
pub fn total(pool: Pool) -> Result<u64, Refusal>
    ensures { costing_says result ≡ (after pool [] [] run.total).said }
{
    if !pool.is_sound() {
        return Err(Refusal::BrokenPool);
    }
    Ok(pool.reads.0 * pool.numbers.read_cost + pool.writes.0 * pool.numbers.write_cost)
}

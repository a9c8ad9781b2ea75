// Calls that are not refused, on a sound pool: the step on the lists, and what it does to the lent bytes. A flush and a drop return
// the pool alone: their answers are given above.
#![tactic(auto)]

ghost use Rattle.std.specs.Prelude.{◌≡◌, true, [], ◌+◌, ◌≤◌, ◌<◌, length};
ghost use Rattle.model.specs.Words.{flushed, dropped};
ghost use Rattle.model.specs.Refusals.{Ready};
ghost use Rattle.model.specs.Target.{costs, costs_of};
ghost use Rattle.model.specs.Times.{measured, kept_fits, in_force};
ghost use Rattle.model.specs.Run as run;
ghost use Rattle.pool.specs.Pool.{numbers_in, Sound};
ghost use Rattle.fine.specs.Serving.{served_after, step_left, pool_left};

use costs::Costs;
use model::Kept;
use pool::Pool;
use step::Step;

// The costs in force: a step of the target can be reckoned with them.
fn drive(pool: &Pool, kept: Kept) -> Costs
    requires { Sound pool.now × (kept_fits kept ≡ true) }
    ensures { costs result.read result.write ≡ in_force (measured kept) (costs_of (numbers_in pool.now)) }
{
    Costs {
        read: costs::in_force(kept, kept.reads.sum, pool.numbers.read_cost),
        write: costs::in_force(kept, kept.writes.sum, pool.numbers.write_cost),
    }
}

// A read: the step on the lists with the costs in force, the page into its frame, and its bytes out.
pub fn read(
    pool: Pool,
    kept: Kept,
    page: usize,
    frames: &mut [u8],
    store: &mut [u8],
    out: &mut [u8],
) -> Step
    requires sound { Sound pool × (kept_fits kept ≡ true) }
    requires ready { Ready (numbers_in pool) pool.served (length frames.old) (length store.old) × (page < pool.numbers.pages) }
    requires out_len { length out.old ≡ pool.numbers.page_bytes }
    ensures { step_left result frames.new store.new out.new
        ≡ served_after pool frames.old store.old (run.read (measured kept) page out.old) }
{
    let size = pool.numbers.page_bytes;
    let drive = drive(&pool, kept);
    let read = step::read(pool, drive, page);
    serve::bring(frames, store, size, read.frame, page, read.answer);
    pages::copy_out(out, frames, read.frame, size);
    read
}

// A write: the step on the lists with the costs in force, the page into its frame, and the stretch over it.
pub fn write(
    pool: Pool,
    kept: Kept,
    page: usize,
    start: usize,
    bytes: &[u8],
    frames: &mut [u8],
    store: &mut [u8],
) -> Step
    requires sound { Sound pool × (kept_fits kept ≡ true) }
    requires ready { Ready (numbers_in pool) pool.served (length frames.old) (length store.old) × (page < pool.numbers.pages) }
    requires bytes_bound { start + length bytes.now ≤ pool.numbers.page_bytes }
    ensures { step_left result frames.new store.new []
        ≡ served_after pool frames.old store.old (run.write (measured kept) page start bytes.now) }
{
    let size = pool.numbers.page_bytes;
    let drive = drive(&pool, kept);
    let wrote = step::write(pool, drive, page);
    serve::bring(frames, store, size, wrote.frame, page, wrote.answer);
    pages::overlay(frames, wrote.frame, start, bytes, size);
    wrote
}

// A flush: the bytes of every dirty frame to the store, and the step on the lists.
pub fn flush(pool: Pool, frames: &[u8], store: &mut [u8]) -> Pool
    requires sound { Sound pool }
    requires ready { Ready (numbers_in pool) pool.served (length frames.now) (length store.old) }
    ensures { pool_left result (flushed pool.lists.dirty.len) frames.now store.new ≡ served_after pool frames.now store.old run.flush }
{
    let size = pool.numbers.page_bytes;
    dirty::write_back_all(store, frames, pool.lists.dirty.frames(), &pool.page, size);
    step::flush_lists(pool)
}

// A drop: zeros over the page in the store, and the step on the lists.
pub fn drop(pool: Pool, page: usize, frames: &[u8], store: &mut [u8]) -> Pool
    requires sound { Sound pool }
    requires ready { Ready (numbers_in pool) pool.served (length frames.now) (length store.old) × (page < pool.numbers.pages) }
    ensures { pool_left result dropped frames.now store.new ≡ served_after pool frames.now store.old (run.drop page) }
{
    let size = pool.numbers.page_bytes;
    pages::wipe(store, page, size);
    cut::drop_lists(pool, page)
}

// CASA's calls that record what they serve: each serves its call and adds the record of it to a trace. A refused call records nothing, and the recorder's
// answer is then the call's refusal. A call that is served stays served though its record is refused: the answer says 11 where the buffer is full.
#![tactic(auto)]

ghost use Rattle.std.specs.Prelude.{◌≡◌, [], ◌*◌, get_or};
ghost use Rattle.model.specs.Times.{unmeasured};
ghost use Rattle.model.specs.Run as run;
ghost use Rattle.pool.specs.Pool.{numbers_in};
ghost use Rattle.casa.specs.Calls.{pools, after, world_of, served_left, flushed_left, dropped_left};
ghost use Rattle.trace.specs.declared.Record.TheVariants.{Read, Write, Flush, Drop};
ghost use Rattle.recorder.specs.Calls.{begin_after, recorded_left};
ghost use Rattle.recorder.specs.Runs.{tape, value_of, recorded_by};
ghost use Rattle.record_casa.specs.Calls.{written_record, call_verdict};

use casa::Done;
use model::Access;
use pool::Pool;
use recorder::{Recorded, Recorder};
use trace::Record;

// What a call leaves, and what its record does.
#[derive(Clone, Copy)]
pub struct Noted<T> {
    pub done: Done<T>,
    pub recorded: Recorded,
}

// ---- begin

// Begins a trace of the calls on a pool, with the numbers that it holds. A sound pool's costs are never 0, 0, which a file means otherwise than `open`
// does; those of a broken one go to the file as they stand. Refused: 1, 11.
pub fn begin(pool: Pool, notes: &[u8], buffer: &mut [u8]) -> Recorded
    ensures { recorded_left result buffer.new ≡ begin_after (numbers_in pool) notes.now buffer.old }
{
    recorder::begin(pool.numbers, notes, buffer)
}

// ---- the record of a call

// Byte 0 of a frame of `size` bytes; 0 where the frame memory does not reach so far, as whole numbers.
fn first_byte(frames: &[u8], frame: usize, size: usize) -> u8
    ensures { result ≡ get_or frames.now (frame * size) 0 }
{
    let n = frames.len();
    if frame != 0 {
        if n / frame < size {
            return 0;
        }
    }
    let at = frame * size;
    if at < n {
        return frames[at];
    }
    0
}

// The record of a write that was served, from the pool and the frame memory that it left: its value is byte 0 of the page, whichever bytes were written.
pub fn written(pool: Pool, page: usize, frames: &[u8]) -> Record
    ensures { result ≡ written_record pool page frames.now }
{
    Record::Write(
        page,
        first_byte(
            frames,
            pool.lists.dirty.places[0] as usize,
            pool.numbers.page_bytes,
        ),
    )
}

// ---- the calls

// Reads a page: `out` becomes its bytes. Refused as `casa::read_page` is; its record as `recorder::add` is.
pub fn read_page(
    pool: Pool,
    page: usize,
    frames: &mut [u8],
    store: &mut [u8],
    out: &mut [u8],
    recorder: Recorder,
    buffer: &mut [u8],
) -> Noted<Access>
    ensures out_after { served_left result.done frames.new store.new out.new
        ≡ after pool frames.old store.old (run.read unmeasured page out.old) }
    ensures buffer_after { recorded_left result.recorded buffer.new
        ≡ recorded_by (call_verdict pool frames.old store.old (run.read unmeasured page out.old)) (Read page)
        (tape recorder buffer.old) }
{
    let done = casa::read_page(pool, page, frames, store, out);
    let recorded = recorder::add_served(recorder, done.answer, Record::Read(page), buffer);
    Noted { done, recorded }
}

// Writes `bytes` into a page, from its byte `start` on. Refused as `casa::write_page` is; its record as `recorder::add` is.
pub fn write_page(
    pool: Pool,
    page: usize,
    start: usize,
    bytes: &[u8],
    frames: &mut [u8],
    store: &mut [u8],
    recorder: Recorder,
    buffer: &mut [u8],
) -> Noted<Access>
    ensures store_after { served_left result.done frames.new store.new []
        ≡ after pool frames.old store.old (run.write unmeasured page start bytes.now) }
    ensures buffer_after { recorded_left result.recorded buffer.new
        ≡ recorded_by (call_verdict pool frames.old store.old (run.write unmeasured page start bytes.now))
        (Write page (value_of pools (world_of pool frames.old store.old) unmeasured page start bytes.now))
        (tape recorder buffer.old) }
{
    let done = casa::write_page(pool, page, start, bytes, frames, store);
    let what = written(done.pool, page, frames);
    let recorded = recorder::add_served(recorder, done.answer, what, buffer);
    Noted { done, recorded }
}

// Writes every changed page to the store. Refused as `casa::flush` is; its record as `recorder::add` is.
pub fn flush(
    pool: Pool,
    frames: &[u8],
    store: &mut [u8],
    recorder: Recorder,
    buffer: &mut [u8],
) -> Noted<usize>
    ensures store_after { flushed_left result.done frames.now store.new
        ≡ after pool frames.now store.old run.flush }
    ensures buffer_after { recorded_left result.recorded buffer.new
        ≡ recorded_by (call_verdict pool frames.now store.old run.flush) Flush (tape recorder buffer.old) }
{
    let done = casa::flush(pool, frames, store);
    let recorded = recorder::add_served(recorder, done.answer, Record::Flush, buffer);
    Noted { done, recorded }
}

// Cuts a page. Refused as `casa::drop_page` is; its record as `recorder::add` is.
pub fn drop_page(
    pool: Pool,
    page: usize,
    frames: &[u8],
    store: &mut [u8],
    recorder: Recorder,
    buffer: &mut [u8],
) -> Noted<()>
    ensures store_after { dropped_left result.done frames.now store.new
        ≡ after pool frames.now store.old (run.drop page) }
    ensures buffer_after { recorded_left result.recorded buffer.new
        ≡ recorded_by (call_verdict pool frames.now store.old (run.drop page)) (Drop page) (tape recorder buffer.old) }
{
    let done = casa::drop_page(pool, page, frames, store);
    let recorded = recorder::add_served(recorder, done.answer, Record::Drop(page), buffer);
    Noted { done, recorded }
}

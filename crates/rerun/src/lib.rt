// A trace, read back and run on other memory: a digest of what each record shows there, for whoever recorded it to compare.
#![tactic(auto)]

use calls::chance::World;
use calls::{Call, Request};
use model::Refusal;
use trace::{Record, reader};

fn call_for(world: World, record: Record) -> Call {
    let (request, page, value) = match record {
        Record::Read(page) => (Request::Read, page, 0),
        Record::Write(page, value) => (Request::Write, page, value),
        Record::Flush => (Request::Flush, 0, 0),
        Record::Drop(page) => (Request::Drop, page, 0),
    };
    Call {
        request,
        page,
        start: 0,
        length: 1,
        value,
        frame_bytes: world.frame_bytes,
        store_bytes: world.store_bytes,
        out_bytes: world.numbers.page_bytes,
        kept: None,
    }
}

// A digest of what the records show on a fresh pool of at most 8 frames, frames and store of zero bytes; or why the reader refuses the trace.
pub fn run_again(trace: &[u8], world: World) -> Result<u32, Refusal> {
    let trailer = trace::check(trace)?;
    let opened = casa::open(trace::recorded_on(trailer));
    let mut frames = [0; 256];
    let mut store = [0; 512];
    let mut out = [0; 32];
    let mut pool = opened.pool;
    let mut shown = digest::FULL;
    for record in (0..trailer.records).filter_map(|place| reader::nth(trace, place)) {
        let call = call_for(world, record);
        let left = calls::make(pool, call, &mut frames, &mut store, &mut out);
        shown = left.absorbed(shown);
        pool = left.pool;
    }
    Ok(shown)
}

// Loads for counting instructions of the measured calls and of the reports, called from C. They stand in a library of their own, apart from those of `bench`:
// in one that has both forms of a read, neither is compiled into the loop. Numbers and requests come from outside, so that the compiler can make no use of
// them, and every call of a pool beside which times are kept is linked.
#![tactic(auto)]

use model::{Kept, Numbers, Window};
use pool::Pool;

// What is kept after a request of the windows: 4 reports a read's time, 5 a write's, 6 starts windows of so many times. Any other leaves it.
fn note(kept: Kept, op: u8, number: u16, reads: &mut [u16], writes: &mut [u16]) -> Kept {
    match op {
        4 => times::report_read(kept, number, reads, writes).kept,
        5 => times::report_write(kept, number, reads, writes).kept,
        6 => times::start(usize::from(number), reads, writes).kept,
        _ => kept,
    }
}

// The pool after a request of it: 0 reads a page, 1 writes eight bytes of it, 2 flushes, 3 drops it. Any other leaves it.
fn serve(
    pool: Pool,
    kept: Kept,
    op: u8,
    page: usize,
    frames: &mut [u8],
    store: &mut [u8],
    out: &mut [u8],
) -> Pool {
    match op {
        0 => casa::read_page_measured(pool, kept, page, frames, store, out).pool,
        1 => casa::write_page_measured(pool, kept, page, 0, &[1; 8], frames, store).pool,
        2 => casa::flush(pool, frames, store).pool,
        3 => casa::drop_page(pool, page, frames, store).pool,
        _ => pool,
    }
}

// What a run leaves: the pool, and what is kept of its windows.
#[derive(Clone, Copy)]
struct House {
    pool: Pool,
    kept: Kept,
}

// All requests in order, each with a page, a time or a length.
fn serve_all(
    house: House,
    ops: &[u8],
    numbers: &[u16],
    frames: &mut [u8],
    store: &mut [u8],
    out: &mut [u8],
    reads: &mut [u16],
    writes: &mut [u16],
) -> House {
    let House { mut pool, mut kept } = house;
    for (op, number) in ops.iter().zip(numbers) {
        kept = note(kept, *op, *number, reads, writes);
        pool = serve(pool, kept, *op, usize::from(*number), frames, store, out);
    }
    House { pool, kept }
}

// What a run left, in one number, so that nothing is left out: it tells of the total cost, of the target and of what is kept.
fn told(house: House) -> u64 {
    let House { pool, kept } = house;
    let cost = match casa::total(pool) {
        Ok(cost) => cost,
        Err(why) => why.number(),
    };
    let numbers = [
        pool.target,
        kept.n as u64,
        kept.reads.fill as u64,
        kept.reads.next as u64,
        kept.reads.sum,
        kept.writes.fill as u64,
        kept.writes.next as u64,
        kept.writes.sum,
    ];
    // Another number for almost any other one, and for almost any other before it.
    numbers
        .iter()
        .fold(cost, |mixed, number| mixed.rotate_left(5) ^ *number)
}

// Opens a pool and serves the requests with kept numbers made by hand.
#[unsafe(no_mangle)]
pub extern "C" fn bench_times(
    b: usize,
    size: usize,
    count: usize,
    n: usize,
    read_fill: usize,
    read_next: usize,
    read_sum: u64,
    write_fill: usize,
    write_next: usize,
    write_sum: u64,
    ops: &[u8],
    pages: &[u16],
    frames: &mut [u8],
    store: &mut [u8],
    out: &mut [u8],
    reads: &mut [u16],
    writes: &mut [u16],
) -> u64 {
    let pool = casa::open(Numbers {
        frames: b,
        page_bytes: size,
        pages: count,
        read_cost: 1,
        write_cost: 4,
    })
    .pool;
    let kept = Kept {
        n,
        reads: Window {
            fill: read_fill,
            next: read_next,
            sum: read_sum,
        },
        writes: Window {
            fill: write_fill,
            next: write_next,
            sum: write_sum,
        },
    };
    let house = House { pool, kept };
    told(serve_all(house, ops, pages, frames, store, out, reads, writes))
}

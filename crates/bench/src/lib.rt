// Loads for counting instructions, called from C. Numbers and requests come from outside, so that the compiler can make no use of them, and every public
// call is linked.
#![tactic(auto)]

pub mod record;

use model::Numbers;
use pool::Pool;

// One request: 0 reads a page, 1 writes eight bytes of it, 3 drops it, anything else flushes.
fn serve(
    pool: Pool,
    op: u8,
    page: usize,
    frames: &mut [u8],
    store: &mut [u8],
    out: &mut [u8],
) -> Pool {
    match op {
        0 => casa::read_page(pool, page, frames, store, out).pool,
        1 => casa::write_page(pool, page, 0, &[1; 8], frames, store).pool,
        3 => casa::drop_page(pool, page, frames, store).pool,
        _ => casa::flush(pool, frames, store).pool,
    }
}

// All requests in order.
fn serve_all(
    pool: Pool,
    ops: &[u8],
    pages: &[u16],
    frames: &mut [u8],
    store: &mut [u8],
    out: &mut [u8],
) -> Pool {
    let mut now = pool;
    for (op, page) in ops.iter().zip(pages) {
        now = serve(now, *op, usize::from(*page), frames, store, out);
    }
    now
}

// The last of n totals that is refused, which is none: each is a test of soundness and two products.
fn ask(mut pool: Pool, n: u64) -> u64 {
    let mut refused = 0;
    for k in 0..n {
        pool.target = k;
        if casa::total(pool).is_err() {
            refused = k;
        }
    }
    refused
}

// Opens a pool, serves the requests, then asks n totals. What comes back is the physical reads, so that nothing is left out.
#[unsafe(no_mangle)]
pub extern "C" fn bench_serve(
    b: usize,
    size: usize,
    count: usize,
    ops: &[u8],
    pages: &[u16],
    frames: &mut [u8],
    store: &mut [u8],
    out: &mut [u8],
    n: u64,
) -> u64 {
    let opened = casa::open(Numbers {
        frames: b,
        page_bytes: size,
        pages: count,
        read_cost: 1,
        write_cost: 4,
    });
    let last = serve_all(opened.pool, ops, pages, frames, store, out);
    ask(last, n).max(last.reads.0)
}

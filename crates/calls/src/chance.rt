// Calls by chance, from a fixed sequence of numbers, and the pools that they are made on.
ghost use Rattle.std.specs.Prelude.{◌<◌, ◌≤◌};

use crate::{Call, Request};
use model::Numbers;

// The next number of a fixed sequence (MINSTD).
pub fn next(seed: usize) -> usize {
    seed % 2147483647 * 48271 % 2147483647
}

// A number below n.
pub fn below(n: usize, chance: usize) -> usize
    requires { 1 ≤ n }
    ensures { result < n }
{
    chance % n
}

// A store's first bytes.
pub fn fill(store: &mut [u8]) {
    let mut seed = 1;
    for byte in store.iter_mut() {
        seed = next(seed);
        *byte = (seed % 256) as u8;
    }
}

// ---- the pool of a run

// The numbers of a pool, and the sizes of its memory.
#[derive(Clone, Copy)]
pub struct World {
    pub numbers: Numbers,
    pub frame_bytes: usize,
    pub store_bytes: usize,
}

impl World {
    // Twice as many pages as frames, and three.
    pub fn of(frames: usize) -> World
        requires { frames ≤ 64 }
    {
        let page_bytes = 16 + frames % 9;
        let pages = 2 * frames + 3;
        let (read_cost, write_cost) = costs_by(frames);
        World {
            numbers: Numbers {
                frames,
                page_bytes,
                pages,
                read_cost,
                write_cost,
            },
            frame_bytes: pages::area(frames, page_bytes),
            store_bytes: pages::area(pages, page_bytes),
        }
    }
}

// Costs far apart, equal, both 0 for the usual drive, and either one the larger.
fn costs_by(frames: usize) -> (u64, u64) {
    match frames % 8 {
        0 => (1, 1000),
        1 => (1000, 1),
        2 => (0, 0),
        3 => (1, 1),
        _ => ((1 + frames % 11) as u64, (1 + frames % 13) as u64),
    }
}

// ---- calls

// Half of the requests go to a third of the pages.
fn page_by(pages: usize, chance: usize) -> usize {
    let among = if chance % 2 == 0 {
        pages / 3 + 1
    } else {
        pages
    };
    (chance / 2).checked_rem(among).unwrap_or(0)
}

fn length_by(page_bytes: usize, start: usize, chance: usize) -> usize {
    if start < page_bytes {
        return 1 + chance % (page_bytes - start);
    }
    1
}

// A call without kept numbers that is not refused on a sound pool. `chance` decides on page, stretch and bytes.
pub fn right_call(world: World, request: Request, chance: usize) -> Call {
    let start = (chance / 512)
        .checked_rem(world.numbers.page_bytes)
        .unwrap_or(0);
    let length = length_by(world.numbers.page_bytes, start, chance / 16384);
    Call {
        request,
        page: page_by(world.numbers.pages, chance),
        start,
        length,
        value: (chance / 524288 % 256) as u8,
        frame_bytes: world.frame_bytes,
        store_bytes: world.store_bytes,
        out_bytes: world.numbers.page_bytes,
        kept: None,
    }
}

// The call with one thing wrong: one too few, one too many, or far off.
fn wrong_call(mut call: Call, world: World, which: usize) -> Call {
    match which {
        0 => call.page = world.numbers.pages,
        1 => call.page = usize::MAX,
        2 => call.frame_bytes = call.frame_bytes.wrapping_sub(1),
        3 => call.frame_bytes = call.frame_bytes.wrapping_add(1),
        4 => call.store_bytes = call.store_bytes.wrapping_sub(1),
        5 => call.store_bytes = call.store_bytes.wrapping_add(1),
        6 => call.out_bytes = call.out_bytes.wrapping_sub(1),
        7 => call.out_bytes = call.out_bytes.wrapping_add(1),
        8 => call.length = 0,
        9 => call.start = world.numbers.page_bytes,
        _ => call.start = usize::MAX,
    }
    call
}

// Of 50 calls one is a flush, one the total, and three are drops; the others are reads and writes.
fn request_by(chance: usize) -> Request {
    match chance % 50 {
        0 => Request::Flush,
        1 => Request::Total,
        2..=25 => Request::Read,
        26..=46 => Request::Write,
        _ => Request::Drop,
    }
}

// One call in 20 has something wrong, which the request may not mind.
pub fn random_call(world: World, seed: usize) -> Call {
    let first = next(seed);
    let second = next(first);
    let call = right_call(world, request_by(first), second);
    if first / 50 % 20 == 0 {
        return wrong_call(call, world, first / 1000 % 11);
    }
    call
}

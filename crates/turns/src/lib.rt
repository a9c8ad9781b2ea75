// What a run does turn by turn: on which pool which call is made, and what of it counts. `change` spoils pools.
#![tactic(auto)]

mod change;

use calls::chance::World;
use calls::{Call, Request, chance, windows};
use model::MOST_SERVED;
use pool::Pool;

// A sequence, by how many letters there are, the number whose digits at that base are its own, and its length; random calls; random calls, each followed by
// every call on a changed pool; or random calls with kept numbers.
#[derive(Clone, Copy)]
pub enum Plan {
    Sequence {
        letters: usize,
        number: usize,
        length: usize,
    },
    Random,
    Broken,
    Timed,
}

// A call that is told is absorbed; the pool of one that stays is the run's from then on. `seed` is where chance goes on.
#[derive(Clone, Copy)]
pub struct Turn {
    pub pool: Pool,
    pub call: Call,
    pub told: bool,
    pub stays: bool,
    pub seed: usize,
}

// ---- a sequence

// The digit with which `rest` digits are left, leading zeros too.
fn digit(number: usize, base: usize, rest: usize) -> usize {
    if base == 0 {
        return 0;
    }
    (1..rest).fold(number, |left, _| left / base) % base
}

fn request_by(letter: usize) -> Request {
    match letter {
        0..=2 => Request::Read,
        3..=5 => Request::Write,
        6 => Request::Flush,
        _ => Request::Drop,
    }
}

// The i-th call of a sequence: letters 0 to 2 read that page, 3 to 5 write to one, 6 flushes, 7 to 9 drop pages 1, 2 and 0. Stretches differ from call to
// call, and overlap.
fn small_call(world: World, i: usize, letter: usize) -> Call {
    let page = letter % 3;
    Call {
        request: request_by(letter),
        page,
        start: i % 12 * 5 % 12,
        length: i % 4 + 1,
        value: (i % 16 * 16 + page) as u8,
        frame_bytes: world.frame_bytes,
        store_bytes: world.store_bytes,
        out_bytes: world.numbers.page_bytes,
        kept: None,
    }
}

// Only what the last call leaves is told.
fn letter_turn(world: World, pool: Pool, letter: usize, length: usize, rest: usize) -> Turn {
    Turn {
        pool,
        call: small_call(world, length.wrapping_sub(rest), letter),
        told: rest == 1,
        stays: true,
        seed: 0,
    }
}

// ---- by chance

// A random call takes two numbers of the sequence, a change of the pool two, and the calls on it one.
fn after_call(seed: usize) -> usize {
    chance::next(chance::next(seed))
}

fn after_change(seed: usize) -> usize {
    chance::next(chance::next(chance::next(seed)))
}

// A random call, after which chance goes on at `next`.
fn random_turn(world: World, pool: Pool, seed: usize, told: bool, next: usize) -> Turn {
    Turn {
        pool,
        call: chance::random_call(world, seed),
        told,
        stays: true,
        seed: next,
    }
}

// What the five calls on a changed pool ask for, by how many of them are left.
fn request_with(rest: usize) -> Request {
    match rest {
        5 => Request::Read,
        4 => Request::Write,
        3 => Request::Flush,
        2 => Request::Drop,
        _ => Request::Total,
    }
}

// One of the five calls on a changed pool, which is the same for all; what they do to the bytes stays.
fn changed_turn(world: World, pool: Pool, seed: usize, rest: usize) -> Turn {
    let next = after_change(seed);
    Turn {
        pool: change::changed_pool(pool, seed),
        call: chance::right_call(world, request_with(rest), next),
        told: true,
        stays: false,
        seed: if rest == 1 { next } else { seed },
    }
}

// Six turns belong together: a random call, and five on a changed pool.
fn broken_turn(world: World, pool: Pool, seed: usize, rest: usize) -> Turn {
    match rest % 6 {
        0 => random_turn(world, pool, seed, false, after_call(seed)),
        left => changed_turn(world, pool, seed, left),
    }
}

// ---- with kept numbers

// 65 pages: a target that no number of frames allows.
const FAR_TARGET: u64 = 4259840;

// A pool that is broken, one that has served all its calls, or mostly the pool as it is.
fn strained(mut pool: Pool, chance: usize) -> Pool {
    match chance % 16 {
        0 => pool.target = FAR_TARGET,
        1 => pool.served = MOST_SERVED,
        _ => {}
    }
    pool
}

// A random call with kept numbers, which take three more numbers of the sequence. What becomes of a pool that was strained for it does not stay.
fn timed_turn(world: World, pool: Pool, seed: usize) -> Turn {
    let how = chance::next(after_call(seed));
    let of_reads = chance::next(how);
    let of_writes = chance::next(of_reads);
    let call = chance::random_call(world, seed);
    Turn {
        pool: strained(pool, how / 9216),
        call: windows::timed_call(call, how, of_reads, of_writes),
        told: true,
        stays: 1 < how / 9216 % 16,
        seed: of_writes,
    }
}

// The turn with which so many are left. A random run takes as many numbers of the sequence for one as a broken run for six.
pub fn turn_of(plan: Plan, world: World, pool: Pool, seed: usize, rest: usize) -> Turn {
    match plan {
        Plan::Sequence {
            letters,
            number,
            length,
        } => letter_turn(world, pool, digit(number, letters, rest), length, rest),
        Plan::Random => random_turn(world, pool, seed, true, after_change(after_call(seed))),
        Plan::Broken => broken_turn(world, pool, seed, rest),
        Plan::Timed => timed_turn(world, pool, seed),
    }
}

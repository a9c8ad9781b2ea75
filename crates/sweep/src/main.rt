// Makes the public calls in large numbers and prints digests of all that they leave: every short sequence on a small pool, random runs at every number of
// frames, calls on pools in which one thing was changed, and calls with kept numbers. tests/sweep.py says what must be printed.
#![tactic(auto)]

ghost use Rattle.std.specs.Prelude.{◌≤◌};

use calls::chance::{self, World};
use calls::{Counts, Left, Said};
use model::{Access, Numbers, Refusal, Victim};
use pool::Pool;
use std::io;
use turns::{Plan, Turn};

// ---- what came out

// The digest of the calls so far, and how many gave each kind of answer.
#[derive(Clone, Copy)]
struct Tally {
    digest: u32,
    counts: Counts,
}

impl Tally {
    fn new() -> Tally {
        Tally {
            digest: digest::FULL,
            counts: Counts::new(),
        }
    }

    // The answer of a call, its pool and every byte of memory are absorbed.
    fn absorb(&mut self, left: Left, frames: &[u8], store: &[u8], out: &[u8]) {
        let with_pool = left.absorbed(self.digest);
        let with_frames = digest::absorb_bytes(with_pool, frames);
        let with_store = digest::absorb_bytes(with_frames, store);
        self.digest = digest::absorb_bytes(with_store, out);
        self.counts.add(left.said);
    }
}

fn tell_digest(rt: &impl Print, digest: u32) -> io::Result<()> {
    println!(rt; " {}", digest::printed(digest))
}

// How often each of these kinds of answers came.
fn tell_kinds(rt: &impl Print, what: &str, counts: &Counts, kinds: &[Said]) -> io::Result<()> {
    print!(rt; " {what}")?;
    for said in kinds {
        print!(rt; " {}", counts.of(*said))?;
    }
    Ok(())
}

// Faults without a victim, with a clean one and with a dirty one; refusals 2 to 6, and 13 for kept numbers of windows.
fn tell_counts(rt: &impl Print, counts: &Counts) -> io::Result<()> {
    let faults = [
        Said::Found(Access::Fault(None)),
        Said::Found(Access::Fault(Some(Victim::Clean(0)))),
        Said::Found(Access::Fault(Some(Victim::Dirty(0)))),
    ];
    let refused = [
        Said::Refused(Refusal::BrokenPool),
        Said::Refused(Refusal::WrongMemory),
        Said::Refused(Refusal::NoSuchPage),
        Said::Refused(Refusal::WrongBytes),
        Said::Refused(Refusal::Spent),
    ];
    let windows = [Said::Refused(Refusal::BrokenWindows)];
    tell_kinds(rt, "hits", counts, &[Said::Found(Access::Hit)])?;
    tell_kinds(rt, "faults", counts, &faults)?;
    tell_kinds(rt, "flushes", counts, &[Said::Wrote(0)])?;
    tell_kinds(rt, "totals", counts, &[Said::Total(0)])?;
    tell_kinds(rt, "drops", counts, &[Said::Dropped])?;
    tell_kinds(rt, "refused", counts, &refused)?;
    tell_kinds(rt, "windows", counts, &windows)?;
    println!(rt)
}

// ---- a run

// How far a run has come.
#[derive(Clone, Copy)]
struct Run {
    tally: Tally,
    pool: Pool,
    seed: usize,
}

impl Run {
    fn new(tally: Tally, world: World) -> Run {
        Run {
            tally,
            pool: casa::open(world.numbers).pool,
            seed: world.numbers.frames,
        }
    }

    // The call of a turn is made, and what it leaves counts as the turn says.
    fn take(&mut self, turn: Turn, frames: &mut [u8], store: &mut [u8], out: &mut [u8]) {
        let left = calls::make(turn.pool, turn.call, frames, store, out);
        if turn.told {
            self.tally.absorb(left, frames, store, out);
        }
        if turn.stays {
            self.pool = left.pool;
        }
        self.seed = turn.seed;
    }

    // All turns, by how many are left.
    fn take_all(
        mut self,
        plan: Plan,
        world: World,
        turns: usize,
        frames: &mut [u8],
        store: &mut [u8],
        out: &mut [u8],
    ) -> Tally {
        for rest in (1..=turns).rev() {
            let turn = turns::turn_of(plan, world, self.pool, self.seed, rest);
            self.take(turn, frames, store, out);
        }
        self.tally
    }
}

// ---- every short sequence on a small pool

fn small_world(read_cost: u64, write_cost: u64) -> World {
    World {
        numbers: Numbers {
            frames: 2,
            page_bytes: 16,
            pages: 3,
            read_cost,
            write_cost,
        },
        frame_bytes: 32,
        store_bytes: 48,
    }
}

fn sequence(tally: Tally, plan: Plan, world: World, length: usize) -> Tally {
    let mut frames = [0xEE; 32];
    let mut store = [0; 48];
    let mut out = [0; 16];
    chance::fill(&mut store);
    let run = Run::new(tally, world);
    run.take_all(plan, world, length, &mut frames, &mut store, &mut out)
}

// Every sequence of one length over so many letters, in order.
fn sequences(letters: usize, length: usize, count: usize, world: World) -> Tally {
    let mut tally = Tally::new();
    for number in 0..count {
        let plan = Plan::Sequence {
            letters,
            number,
            length,
        };
        tally = sequence(tally, plan, world, length);
    }
    tally
}

// Those of every length up to the longest, a line each.
fn lengths(
    rt: &impl Print,
    name: &str,
    letters: usize,
    longest: u32,
    world: World,
) -> io::Result<()> {
    for length in 1..=longest {
        let count = letters.saturating_pow(length);
        let tally = sequences(letters, length as usize, count, world);
        let read_cost = world.numbers.read_cost;
        let write_cost = world.numbers.write_cost;
        print!(rt; "{name} {read_cost} {write_cost} {length}")?;
        tell_digest(rt, tally.digest)?;
    }
    Ok(())
}

// Reads, writes and flushes, seven letters.
fn small(rt: &impl Print, read_cost: u64, write_cost: u64) -> io::Result<()> {
    lengths(rt, "small", 7, 6, small_world(read_cost, write_cost))
}

// Drops among them, ten letters.
fn drops(rt: &impl Print, read_cost: u64, write_cost: u64) -> io::Result<()> {
    lengths(rt, "drops", 10, 5, small_world(read_cost, write_cost))
}

// ---- runs by chance

// The largest memories, each with a byte more: a call may be lent one too many, and the byte past the end must stay.
const FRAME_BYTES: usize = 1537;

const STORE_BYTES: usize = 3145;

const OUT_BYTES: usize = 25;

fn with_spare(bytes: usize, there: usize) -> usize
    ensures { result ≤ there }
{
    bytes.saturating_add(1).min(there)
}

fn run_world(tally: Tally, world: World, plan: Plan, turns: usize) -> Tally {
    let mut frames = [0xEE; FRAME_BYTES];
    let mut store = [0; STORE_BYTES];
    let mut out = [0; OUT_BYTES];
    chance::fill(&mut store);
    let m = with_spare(world.frame_bytes, FRAME_BYTES);
    let n = with_spare(world.store_bytes, STORE_BYTES);
    let k = with_spare(world.numbers.page_bytes, OUT_BYTES);
    let run = Run::new(tally, world);
    run.take_all(
        plan,
        world,
        turns,
        &mut frames[..m],
        &mut store[..n],
        &mut out[..k],
    )
}

// A run for each number of frames, a line each, and last how often each answer came.
fn runs(rt: &impl Print, name: &str, plan: Plan, turns: usize) -> io::Result<()> {
    let mut counts = Counts::new();
    for frames in 1..=64 {
        let tally = Tally {
            counts,
            ..Tally::new()
        };
        let after = run_world(tally, World::of(frames), plan, turns);
        counts = after.counts;
        print!(rt; "{name} {frames}")?;
        tell_digest(rt, after.digest)?;
    }
    print!(rt; "{name}")?;
    tell_counts(rt, &counts)
}

fn main(rt: HostRuntime) -> io::Result<()> {
    small(&rt, 0, 0)?;
    small(&rt, 1, 1)?;
    small(&rt, 3, 2)?;
    drops(&rt, 3, 2)?;
    runs(&rt, "random", Plan::Random, 2000)?;
    runs(&rt, "broken", Plan::Broken, 1500)?;
    runs(&rt, "timed", Plan::Timed, 1000)
}

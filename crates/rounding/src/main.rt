// Makes hits whose steps have to be rounded, and prints what they leave of a target: P8 by the public calls, and steps that end in just a half by `step`,
// with costs that no pool is opened with.
#![tactic(auto)]

use costs::Costs;
use model::{Numbers, Op};
use pool::Pool;
use std::io;

// Two frames: page 0 is clean, page 1 dirty, and a read costs 1, a write 2.
fn balanced() -> Pool {
    let mut frames = [0; 32];
    let mut store = [0; 128];
    let mut out = [0; 16];
    let opened = casa::open(Numbers {
        frames: 2,
        page_bytes: 16,
        pages: 8,
        read_cost: 1,
        write_cost: 2,
    });
    let read = casa::read_page(opened.pool, 0, &mut frames, &mut store, &mut out);
    let wrote = casa::write_page(read.pool, 1, 0, &[7], &mut frames, &mut store);
    wrote.pool
}

// P8: reads the clean page or writes the dirty one.
fn hit_at(rt: &impl Print, op: Op, balanced: Pool, target: u64) -> io::Result<()> {
    let mut frames = [0; 32];
    let mut store = [0; 128];
    let mut out = [0; 16];
    let pool = Pool { target, ..balanced };
    let served = match op {
        Op::Read => casa::read_page(pool, 0, &mut frames, &mut store, &mut out),
        Op::Write => casa::write_page(pool, 1, 0, &[7], &mut frames, &mut store),
    };
    println!(rt; "{op} hit from {target} to {}", served.pool.target)
}

// A half: with costs of 3 and 131,069 a read hit adds 1.5 units, a write hit takes 65,534.5. A broken pool makes no step, and nothing is told.
fn half_at(rt: &impl Print, op: Op, balanced: Pool, target: u64) -> io::Result<()> {
    let pool = Pool { target, ..balanced };
    if pool.is_sound() && 1 < pool.numbers.pages {
        let drive = Costs {
            read: 3,
            write: 131069,
        };
        let step = match op {
            Op::Read => step::read(pool, drive, 0),
            Op::Write => step::write(pool, drive, 1),
        };
        println!(rt; "half, {op} hit from {target} to {}", step.pool.target)?;
    }
    Ok(())
}

fn main(rt: HostRuntime) -> io::Result<()> {
    let pool = balanced();
    for op in [Op::Read, Op::Write] {
        hit_at(&rt, op, pool, 65536)?;
    }
    for target in [0, 131070, 131071] {
        half_at(&rt, Op::Read, pool, target)?;
    }
    for target in [131072, 65535, 65534] {
        half_at(&rt, Op::Write, pool, target)?;
    }
    Ok(())
}

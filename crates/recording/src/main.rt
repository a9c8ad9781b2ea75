// Records runs of calls while they are served, closes each trace, reads it back and runs it on other memory: what each record showed must come again.
// tests/recording.py says what must be printed.
#![tactic(auto)]

ghost use Rattle.std.specs.Prelude.{◌≤◌};

use calls::chance::{self, World};
use model::Refusal;
use record_calls::Run;
use std::io;

// ---- what is printed

fn tell_digest(rt: &impl Print, digest: u32) -> io::Result<()> {
    print!(rt; " {}", digest::printed(digest))
}

fn tell_bytes(rt: &impl Print, bytes: &[u8]) -> io::Result<()> {
    for byte in bytes {
        print!(rt; " {byte}")?;
    }
    Ok(())
}

// ---- a run that is recorded

// 100 calls by chance, on as much of each memory as the pool asks for.
fn record_all(
    run: &mut Run,
    world: World,
    frames: &mut [u8],
    store: &mut [u8],
    out: &mut [u8],
    buffer: &mut [u8],
) {
    let m = world.frame_bytes.min(frames.len());
    let n = world.store_bytes.min(store.len());
    let k = world.numbers.page_bytes.min(out.len());
    let mut seed = world.numbers.frames;
    for _ in 0..100 {
        let call = chance::random_call(world, seed);
        seed = chance::next(chance::next(seed));
        run.make(
            call,
            &mut frames[..m],
            &mut store[..n],
            &mut out[..k],
            buffer,
        );
    }
}

// ---- one recorded run

fn tell_again(rt: &impl Print, again: Result<u32, Refusal>) -> io::Result<()> {
    match again {
        Err(why) => print!(rt; " {why}"),
        Ok(shown) => {
            print!(rt; " again")?;
            tell_digest(rt, shown)
        }
    }
}

// What closing gave, and what comes of the trace when it is read back.
fn tell_closed(
    rt: &impl Print,
    closed: Result<usize, Refusal>,
    world: World,
    buffer: &[u8],
) -> io::Result<()> {
    match closed {
        Err(why) => print!(rt; " {why}"),
        Ok(bytes) => {
            print!(rt; " closed {bytes}")?;
            let n = bytes.min(buffer.len());
            tell_again(rt, rerun::run_again(&buffer[..n], world))
        }
    }
}

fn tell_run(rt: &impl Print, run: Run, world: World, buffer: &mut [u8]) -> io::Result<()> {
    let closed = recorder::close(run.recorder, buffer);
    print!(rt; " records {} buffer", run.recorder.records)?;
    tell_digest(rt, digest::absorb_bytes(digest::FULL, buffer))?;
    print!(rt; " shown")?;
    tell_digest(rt, run.shown)?;
    tell_closed(rt, closed, world, buffer)?;
    println!(rt)
}

// Calls by chance on a pool of so many frames, recorded from opening in a buffer that is lent whole.
fn record_run(rt: &impl Print, frames: usize, buffer: &mut [u8]) -> io::Result<()>
    requires { frames ≤ 8 }
{
    let world = World::of(frames);
    let opened = casa::open(world.numbers);
    let begun = record_casa::begin(opened.pool, b"by chance\n", buffer);
    let mut run = Run {
        pool: opened.pool,
        recorder: begun.recorder,
        shown: digest::FULL,
    };
    let mut memory = [0; 256];
    let mut store = [0; 512];
    let mut out = [0; 32];
    chance::fill(&mut store);
    record_all(&mut run, world, &mut memory, &mut store, &mut out, buffer);
    print!(rt; "run {frames}")?;
    tell_run(rt, run, world, buffer)
}

fn record_runs(rt: &impl Print) -> io::Result<()> {
    for frames in 1..=8 {
        let mut buffer = [170; 512];
        record_run(rt, frames, &mut buffer)?;
    }
    Ok(())
}

// Only the first ten of the records find room, and two bytes are left over: the whole buffer is told.
fn record_little(rt: &impl Print) -> io::Result<()> {
    let mut buffer = [170; 72];
    record_run(rt, 2, &mut buffer)?;
    print!(rt; "bytes")?;
    tell_bytes(rt, &buffer)?;
    println!(rt)
}

fn main(rt: HostRuntime) -> io::Result<()> {
    record_runs(&rt)?;
    record_little(&rt)
}

// Makes each call with every set of refusals at once, and prints what came out: the lowest number is given, and no byte changes.
#![tactic(auto)]

ghost use Rattle.std.specs.Prelude.{◌≤◌, length};

use model::{Kept, Numbers};
use pool::Pool;
use std::io;
use tell::{Told, Wrote};

// What may be wrong with a call, each by its bit of a set.
#[derive(Clone, Copy)]
enum Wrong {
    Pool = 1,
    Memory = 2,
    Page = 4,
    Bytes = 8,
    Served = 16,
    Windows = 32,
}

// A set of what is wrong with a call: it asks for refusals 2 to 6 and 13.
#[derive(Clone, Copy)]
struct Set(usize);

impl Set {
    fn has(self, wrong: Wrong) -> bool {
        self.0 & wrong as usize != 0
    }

    // A pool that is broken, has every call served, or neither.
    fn pool(self) -> Pool {
        let opened = casa::open(Numbers {
            frames: 2,
            page_bytes: 16,
            pages: 8,
            read_cost: 1,
            write_cost: 3,
        });
        let mut pool = opened.pool;
        if self.has(Wrong::Pool) {
            pool.target = 131073;
        }
        if self.has(Wrong::Served) {
            pool.served = 1000000000;
        }
        pool
    }

    fn frame_bytes(self) -> usize
        ensures { result ≤ 32 }
    {
        if self.has(Wrong::Memory) { 31 } else { 32 }
    }

    fn page(self) -> usize {
        if self.has(Wrong::Page) { 8 } else { 0 }
    }

    fn page_bytes(self) -> usize
        ensures { result ≤ 17 }
    {
        if self.has(Wrong::Bytes) { 17 } else { 16 }
    }

    // Of windows of one time with nothing measured yet, or of all zeros.
    fn kept(self) -> Kept {
        costs::fresh(if self.has(Wrong::Windows) { 0 } else { 1 })
    }
}

// What bytes add up to: a refused call leaves them all.
fn sum(bytes: &[u8]) -> u64
    requires { length bytes.now ≤ 128 }
{
    bytes.iter().map(|&byte| u64::from(byte)).sum()
}

fn read_set(rt: &impl Print, set: Set) -> io::Result<()> {
    let mut frames = [1; 32];
    let mut store = [2; 128];
    let mut out = [3; 17];
    let read = casa::read_page_measured(
        set.pool(),
        set.kept(),
        set.page(),
        &mut frames[..set.frame_bytes()],
        &mut store,
        &mut out[..set.page_bytes()],
    );
    println!(rt;
        "read set {} {} bytes {} {} {}",
        set.0,
        Told(read.answer),
        sum(&frames),
        sum(&store),
        sum(&out)
    )
}

fn write_set(rt: &impl Print, set: Set) -> io::Result<()> {
    let mut frames = [1; 32];
    let mut store = [2; 128];
    let wrote = casa::write_page_measured(
        set.pool(),
        set.kept(),
        set.page(),
        0,
        &[3; 17][..set.page_bytes()],
        &mut frames[..set.frame_bytes()],
        &mut store,
    );
    println!(rt;
        "write set {} {} bytes {} {}",
        set.0,
        Told(wrote.answer),
        sum(&frames),
        sum(&store)
    )
}

fn flush_set(rt: &impl Print, set: Set) -> io::Result<()> {
    let frames = [1; 32];
    let mut store = [2; 128];
    let flushed = casa::flush(set.pool(), &frames[..set.frame_bytes()], &mut store);
    let answer = flushed.answer.map(Wrote);
    println!(rt;
        "flush set {} {} bytes {} {}",
        set.0,
        Told(answer),
        sum(&frames),
        sum(&store)
    )
}

fn drop_set(rt: &impl Print, set: Set) -> io::Result<()> {
    let frames = [1; 32];
    let mut store = [2; 128];
    let dropped = casa::drop_page(
        set.pool(),
        set.page(),
        &frames[..set.frame_bytes()],
        &mut store,
    );
    let answer = dropped.answer.map(|()| "dropped");
    println!(rt;
        "drop set {} {} bytes {} {}",
        set.0,
        Told(answer),
        sum(&frames),
        sum(&store)
    )
}

fn total_set(rt: &impl Print, set: Set) -> io::Result<()> {
    println!(rt; "total {}", Told(casa::total(set.pool())))
}

fn main(rt: HostRuntime) -> io::Result<()> {
    for set in (0..64).map(Set) {
        read_set(&rt, set)?;
        write_set(&rt, set)?;
        // The other calls take no kept numbers.
        if !set.has(Wrong::Windows) {
            flush_set(&rt, set)?;
            drop_set(&rt, set)?;
            total_set(&rt, set)?;
        }
    }
    Ok(())
}

// Runs the scope's worked examples that are not proved in its table, on both sides of each edge, and prints what came out.
#![tactic(auto)]

use model::Numbers;
use pool::Pool;
use std::io;
use tell::{Told, Wrote};

const FAR: usize = usize::MAX;

// ---- opening

fn try_open(rt: &impl Print, numbers: Numbers) -> io::Result<()> {
    let Numbers {
        frames,
        page_bytes,
        pages,
        read_cost,
        write_cost,
    } = numbers;
    print!(rt; "open {frames} {page_bytes} {pages} {read_cost} {write_cost} ")?;
    let opened = casa::open(numbers);
    match opened.answer {
        Ok(()) => {
            let Numbers {
                read_cost,
                write_cost,
                ..
            } = opened.pool.numbers;
            println!(rt; "opened with costs {read_cost} {write_cost}")
        }
        Err(why) => println!(rt; "{why}"),
    }
}

fn openings(rt: &impl Print) -> io::Result<()> {
    for (frames, page_bytes, pages, read_cost, write_cost) in [
        (1, 16, 1, 1, 1),
        (64, 4096, 65536, 1000, 1000),
        (0, 16, 8, 1, 3),
        (65, 16, 8, 1, 3),
        (2, 15, 8, 1, 3),
        (2, 4097, 8, 1, 3),
        (2, 16, 0, 1, 3),
        (2, 16, 65537, 1, 3),
        (2, 16, 8, 0, 0),
        (2, 16, 8, 0, 5),
        (2, 16, 8, 5, 0),
        (2, 16, 8, 1001, 1),
        (2, 16, 8, 1, 1001),
        (FAR, FAR, FAR, u64::MAX, u64::MAX),
    ] {
        try_open(
            rt,
            Numbers {
                frames,
                page_bytes,
                pages,
                read_cost,
                write_cost,
            },
        )?;
    }
    Ok(())
}

// ---- calls that are told in a line

// A pool, and what is lent to it.
#[derive(Drop)]
struct PageBuffer<const FRAMES: usize, const STORE: usize> {
    pool: Pool,
    frames: [u8; FRAMES],
    store: [u8; STORE],
}

// Of 2 frames and 8 pages of 16 bytes, with costs 1 and 3.
fn two_frames() -> PageBuffer<32, 128> {
    let opened = casa::open(Numbers {
        frames: 2,
        page_bytes: 16,
        pages: 8,
        read_cost: 1,
        write_cost: 3,
    });
    PageBuffer {
        pool: opened.pool,
        frames: [0; 32],
        store: [0; 128],
    }
}

impl<const FRAMES: usize, const STORE: usize> PageBuffer<FRAMES, STORE> {
    fn read(&mut self, rt: &impl Print, page: usize) -> io::Result<()> {
        self.read_to(rt, page, &mut [0; 16])
    }

    fn read_to(&mut self, rt: &impl Print, page: usize, out: &mut [u8]) -> io::Result<()> {
        let read = casa::read_page(self.pool, page, &mut self.frames, &mut self.store, out);
        self.pool = read.pool;
        println!(rt; "read {page} {}", Told(read.answer))
    }

    fn write(
        &mut self,
        rt: &impl Print,
        page: usize,
        start: usize,
        bytes: &[u8],
    ) -> io::Result<()> {
        let wrote = casa::write_page(
            self.pool,
            page,
            start,
            bytes,
            &mut self.frames,
            &mut self.store,
        );
        self.pool = wrote.pool;
        println!(rt;
            "write {page} {start} {} {}",
            bytes.len(),
            Told(wrote.answer)
        )
    }

    fn flush(&mut self, rt: &impl Print) -> io::Result<()> {
        let flushed = casa::flush(self.pool, &self.frames, &mut self.store);
        self.pool = flushed.pool;
        println!(rt; "flush {}", Told(flushed.answer.map(Wrote)))
    }

    fn tell_counts(&self, rt: &impl Print) -> io::Result<()> {
        let pool = self.pool;
        tell::counts(rt, pool.reads.0, pool.writes.0, pool.served)
    }

    fn tell_total(&self, rt: &impl Print) -> io::Result<()> {
        println!(rt; "total {}", Told(casa::total(self.pool)))
    }

    // The total with other reference numbers in frames 0 and 1: it is refused 2 where they are wrong.
    fn try_numbers(&self, rt: &impl Print, in_0: u32, in_1: u32) -> io::Result<()> {
        let mut pool = self.pool;
        pool.reference[0] = in_0;
        pool.reference[1] = in_1;
        println!(rt; "numbers {in_0} {in_1} {}", Told(casa::total(pool)))
    }
}

// One frame: W 0, R 1 makes two reads and one write.
fn one_frame(rt: &impl Print) -> io::Result<()> {
    let opened = casa::open(Numbers {
        frames: 1,
        page_bytes: 16,
        pages: 2,
        read_cost: 1,
        write_cost: 4,
    });
    let mut buffer = PageBuffer {
        pool: opened.pool,
        frames: [0; 16],
        store: [0; 32],
    };
    buffer.write(rt, 0, 0, &[7])?;
    buffer.read(rt, 1)?;
    buffer.tell_counts(rt)?;
    buffer.tell_total(rt)
}

// Page N - 1, N and one far off; then outputs that lack a byte. Stretches that end at P and past it, and one of no bytes.
fn pages_and_stretches(rt: &impl Print) -> io::Result<()> {
    let mut buffer = two_frames();
    buffer.read(rt, 7)?;
    buffer.read(rt, 8)?;
    buffer.read(rt, FAR)?;
    buffer.read_to(rt, 7, &mut [0; 15])?;
    buffer.read_to(rt, 8, &mut [0; 15])?;
    buffer.write(rt, 7, 0, &[9; 16])?;
    buffer.write(rt, 7, 1, &[9; 16])?;
    buffer.write(rt, 7, 15, &[9])?;
    buffer.write(rt, 7, 16, &[9])?;
    buffer.write(rt, 7, FAR, &[9])?;
    buffer.write(rt, 7, 0, &[])?;
    buffer.tell_counts(rt)
}

// 999,999,999 calls served, and one more.
fn last_calls(rt: &impl Print) -> io::Result<()> {
    let mut buffer = two_frames();
    buffer.pool.served = 999999999;
    buffer.read(rt, 0)?;
    buffer.read(rt, 0)?;
    buffer.write(rt, 0, 0, &[1])?;
    buffer.flush(rt)?;
    buffer.tell_counts(rt)?;
    buffer.tell_total(rt)
}

// Page 0 is read once more after page 1 was written, so it is the later one: behind the flush page 1 is the first victim.
fn order_after_flush(rt: &impl Print) -> io::Result<()> {
    let mut buffer = two_frames();
    buffer.read(rt, 0)?;
    buffer.write(rt, 1, 0, &[7])?;
    buffer.read(rt, 0)?;
    buffer.flush(rt)?;
    buffer.read(rt, 2)?;
    buffer.read(rt, 3)?;
    buffer.tell_counts(rt)
}

// One page in C, and an empty frame; then one page in C and one in D, with two calls served.
fn numbers_by_hand(rt: &impl Print) -> io::Result<()> {
    let mut buffer = two_frames();
    buffer.read(rt, 0)?;
    for (in_0, in_1) in [(1, 0), (1, 1), (2, 0)] {
        buffer.try_numbers(rt, in_0, in_1)?;
    }
    buffer.write(rt, 1, 0, &[7])?;
    for (in_0, in_1) in [(1, 2), (2, 1), (2, 2), (0, 2), (1, 3)] {
        buffer.try_numbers(rt, in_0, in_1)?;
    }
    Ok(())
}

// ---- traces

// The costs as the file has them, and those on which the trace was recorded; then whether a reader yields a record.
fn tell_trace(rt: &impl Print, bytes: &[u8]) -> io::Result<()> {
    print!(rt; "trace of {} ", bytes.len())?;
    match trace::check(bytes) {
        Ok(trailer) => {
            let raw = trailer.numbers;
            let numbers = trace::recorded_on(trailer);
            print!(rt; "read with records {}", trailer.records)?;
            print!(rt; " costs {} {}", raw.read_cost, raw.write_cost)?;
            print!(rt; " recorded on {} {}", numbers.read_cost, numbers.write_cost)?;
        }
        Err(why) => print!(rt; "{why}")?,
    }
    match trace::record_at(bytes, trace::first_place(bytes)) {
        Some(_) => println!(rt; " first there"),
        None => println!(rt; " none"),
    }
}

fn traces(rt: &impl Print) -> io::Result<()> {
    // 19 bytes; 20 bytes with distance 20, no records and numbers that are allowed; the same with costs 0, 0, and with b = 65.
    tell_trace(rt, &[0; 19])?;
    tell_trace(rt, b"\x14\0\0\0\0\0\0\0\x02\0\x10\0\x08\0\0\0\x01\0\x03\0")?;
    tell_trace(rt, b"\x14\0\0\0\0\0\0\0\x02\0\x10\0\x08\0\0\0\0\0\0\0")?;
    tell_trace(rt, b"\x14\0\0\0\0\0\0\0\x41\0\x10\0\x08\0\0\0\x01\0\x03\0")?;
    // One record, R 7, and one that is not, R 8; R 7 and then R 8, of which a reader yields neither.
    tell_trace(
        rt,
        b"R\0\x07\0\x18\0\0\0\x01\0\0\0\x02\0\x10\0\x08\0\0\0\x01\0\x03\0",
    )?;
    tell_trace(
        rt,
        b"R\0\x08\0\x18\0\0\0\x01\0\0\0\x02\0\x10\0\x08\0\0\0\x01\0\x03\0",
    )?;
    tell_trace(
        rt,
        b"R\0\x07\0R\0\x08\0\x1c\0\0\0\x02\0\0\0\x02\0\x10\0\x08\0\0\0\x01\0\x03\0",
    )
}

fn main(rt: HostRuntime) -> io::Result<()> {
    openings(&rt)?;
    one_frame(&rt)?;
    pages_and_stretches(&rt)?;
    last_calls(&rt)?;
    order_after_flush(&rt)?;
    numbers_by_hand(&rt)?;
    traces(&rt)
}

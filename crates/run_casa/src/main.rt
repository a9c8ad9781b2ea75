// Reads one trace from standard input, serves each record on a store of zero bytes, and prints the listing. What is refused prints only that.
// A branch that is marked 'Never' is not taken on a trace that `trace::check` finds fine. It prints all the same, so that a fault in the reason would show.
#![tactic(auto)]

ghost use Rattle.std.specs.Prelude.{◌≡◌, ◌≤◌, IfOk, length};
ghost use Rattle.casa.specs.Calls.{open_left, open_after};
ghost use Rattle.trace.specs.Format.{numbers_in, recorded_on};
ghost use Rattle.run_casa.specs.declared.TheConstants.{MOST_FRAMES, MOST_STORE, MOST_PAGE};

use casa::Opened;
use model::{Access, Answer, Refusal, Victim};
use pool::Pool;
use std::io::Read;
use std::{fmt, io};
use tell::Told;
use trace::{Record, Trailer, reader};

// A longer file is refused 9; larger memory is refused 10.
const LONGEST: usize = 16384;

const MOST_FRAMES: usize = 8192;

const MOST_STORE: usize = 32768;

const MOST_PAGE: usize = 4096;

// ---- what is printed

// A refusal is a line of its own; 8 names its record.
fn tell_refused(rt: &impl Print, why: Refusal) -> io::Result<()> {
    match why {
        Refusal::BadRecord(record) => println!(rt; "{why} at {record}"),
        _ => println!(rt; "{why}"),
    }
}

// Result, victim and pages written back of a read or a write. Never says 'refused': the record names a page of the pool, memory and output have its sizes, and
// a trace has far fewer records than calls are served.
#[derive(Clone, Copy)]
struct Found(Answer);

impl fmt::Display for Found {
    fn fmt<W: fmt::Write>(&self, f: &mut fmt::Formatter<W>) -> fmt::Result {
        match self.0 {
            Ok(Access::Hit) => f.write_str("hit - 0"),
            Ok(Access::Fault(None)) => f.write_str("fault - 0"),
            Ok(Access::Fault(Some(Victim::Clean(page)))) => write!(f, "fault {page} 0"),
            Ok(Access::Fault(Some(Victim::Dirty(page)))) => write!(f, "fault {page} 1"),
            Err(why) => write!(f, "{why} - 0"),
        }
    }
}

// The lengths of the lists, and the target.
#[derive(Clone, Copy)]
struct Lists(Pool);

impl fmt::Display for Lists {
    fn fmt<W: fmt::Write>(&self, f: &mut fmt::Formatter<W>) -> fmt::Result {
        let pool = self.0;
        write!(
            f,
            "{} {} {}",
            pool.lists.clean.len, pool.lists.dirty.len, pool.target
        )
    }
}

// ---- a record

// A pool, and what is lent to it.
#[derive(Drop)]
struct PageBuffer<'a> {
    pool: Pool,
    frames: &'a mut [u8],
    store: &'a mut [u8],
    out: &'a mut [u8],
}

impl PageBuffer<'_> {
    // Serves the k-th record, and tells it in a line. A flush and a drop never say 'refused' either; of a page that was cut byte 0 is 0.
    fn serve(&mut self, rt: &impl Print, k: usize, record: Record) -> io::Result<()> {
        let frames = &mut *self.frames;
        let store = &mut *self.store;
        match record {
            Record::Read(page) => {
                let read = casa::read_page(self.pool, page, frames, store, self.out);
                self.pool = read.pool;
                // Never without a byte: a page has at least 16.
                let byte = self.out.first().copied().unwrap_or(0);
                self.tell_request(rt, k, 'R', page, read.answer, byte)
            }
            Record::Write(page, byte) => {
                let wrote = casa::write_page(self.pool, page, 0, &[byte], frames, store);
                self.pool = wrote.pool;
                self.tell_request(rt, k, 'W', page, wrote.answer, byte)
            }
            Record::Flush => {
                let flushed = casa::flush(self.pool, frames, store);
                self.pool = flushed.pool;
                let answer = flushed.answer;
                println!(rt; "{k} F - - - {} {} -", Told(answer), Lists(self.pool))
            }
            Record::Drop(page) => {
                let dropped = casa::drop_page(self.pool, page, frames, store);
                self.pool = dropped.pool;
                let answer = dropped.answer.map(|()| "- - 1");
                println!(rt; "{k} D {page} {} {} 0", Told(answer), Lists(self.pool))
            }
        }
    }

    // The line of a read or a write, which ends in byte 0 of its page.
    fn tell_request(
        &self,
        rt: &impl Print,
        k: usize,
        letter: char,
        page: usize,
        answer: Answer,
        byte: u8,
    ) -> io::Result<()> {
        println!(rt;
            "{k} {letter} {page} {} {} {byte}",
            Found(answer),
            Lists(self.pool)
        )
    }

    fn tell_end(&self, rt: &impl Print) -> io::Result<()> {
        let pool = self.pool;
        println!(rt;
            "end {} {} {}",
            pool.reads.0,
            pool.writes.0,
            Told(casa::total(pool))
        )
    }
}

// ---- the whole

// The trailer of a trace that is fine, and how many bytes its pool takes, for which there is room.
#[derive(Clone, Copy)]
struct Fitting {
    trailer: Trailer,
    frame_bytes: usize,
    store_bytes: usize,
    page_bytes: usize,
    ghost in_room: { (frame_bytes ≤ MOST_FRAMES) × (store_bytes ≤ MOST_STORE) × (page_bytes ≤ MOST_PAGE) },
}

// Refused: 9; 7, 1, 8; 10.
fn judge(bytes: &[u8]) -> Result<Fitting, Refusal> {
    if LONGEST < bytes.len() {
        return Err(Refusal::LongFile);
    }
    let trailer = trace::check(bytes)?;
    let numbers = trailer.numbers;
    let page_bytes = numbers.page_bytes;
    // Never: `trace::check` has tested the limits. They are tested again so that the sizes are known to fit.
    if 64 < numbers.frames || MOST_PAGE < page_bytes || 65536 < numbers.pages {
        return Err(Refusal::OutOfLimits);
    }
    let frame_bytes = pages::area(numbers.frames, page_bytes);
    let store_bytes = pages::area(numbers.pages, page_bytes);
    if MOST_FRAMES < frame_bytes || MOST_STORE < store_bytes {
        return Err(Refusal::LargePool);
    }
    Ok(Fitting {
        trailer,
        frame_bytes,
        store_bytes,
        page_bytes,
    })
}

// A pool with the numbers on which the trace was recorded. Never refused where `trace::check` finds the trace fine (`trace-opens`).
fn open_recorded(trailer: Trailer) -> Opened
    ensures { open_left result ≡ open_after (recorded_on (numbers_in trailer)) }
{
    casa::open(trace::recorded_on(trailer))
}

fn run(rt: &impl Print, bytes: &[u8], fitting: Fitting) -> io::Result<()> {
    let mut frames = [0; MOST_FRAMES];
    let mut store = [0; MOST_STORE];
    let mut out = [0; MOST_PAGE];
    let opened = open_recorded(fitting.trailer);
    if let Err(why) = opened.answer {
        tell_refused(rt, why)?;
    }
    println!(rt; "request op page result victim writes clean dirty target byte")?;
    let mut buffer = PageBuffer {
        pool: opened.pool,
        frames: &mut frames[..fitting.frame_bytes],
        store: &mut store[..fitting.store_bytes],
        out: &mut out[..fitting.page_bytes],
    };
    for place in 0..fitting.trailer.records {
        match reader::nth(bytes, place) {
            Some(record) => buffer.serve(rt, place + 1, record)?,
            // Never: `trace::check` has read them all.
            None => tell_refused(rt, Refusal::BadRecord(place + 1))?,
        }
    }
    buffer.tell_end(rt)
}

// Reads on after a short read, until the buffer is full or the input ends: how many bytes came. A `while`: how far a read gets is the input's choice.
fn read_full(rt: &impl Input, buffer: &mut [u8]) -> io::Result<usize>
    ensures bound { IfOk result (λ n. n ≤ length buffer.old) }
{
    let mut reader = rt.reader();
    let mut n = 0;
    while n < buffer.len() {
        let more = reader.read(&mut buffer[n..])?;
        if more == 0 {
            break;
        }
        n += more;
    }
    Ok(n)
}

fn main(rt: HostRuntime) -> io::Result<()> {
    let mut input = [0; LONGEST + 1];
    let n = read_full(&rt, &mut input)?;
    let bytes = &input[..n];
    match judge(bytes) {
        Ok(fitting) => run(&rt, bytes, fitting),
        Err(why) => tell_refused(&rt, why),
    }
}

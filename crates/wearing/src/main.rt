// Serves the same requests on a drive that stays young and on one that wears: what each call did there is reported behind it. Once both windows are full the
// target's steps part, and then a victim. tests/times.py says what must be printed.
#![tactic(auto)]

use model::{Access, Answer, Kept, Numbers, Victim};
use pool::Pool;
use std::io;
use tell::Told;

const READ_TIME: u16 = 100;

// What the first write takes. On a drive that wears, each further one takes `slower` more.
const WRITE_TIME: u16 = 200;

// A call of a script, on a page.
#[derive(Clone, Copy)]
enum Call {
    Read(usize),
    Write(usize),
    Cut(usize),
}

use Call::{Cut, Read, Write};

// Of either drive.
const SCRIPT: [Call; 12] = [
    Write(0),
    Write(1),
    Read(2),
    Cut(7),
    Read(2),
    Cut(7),
    Read(2),
    Cut(7),
    Read(2),
    Read(3),
    Read(2),
    Write(1),
];

// A pool and what is lent to it; the times so far, two windows and what is kept of them; what the next write will take, and how much slower the one after it.
#[derive(Drop)]
struct Drive {
    pool: Pool,
    frames: [u8; 48],
    store: [u8; 128],
    kept: Kept,
    reads: [u16; 2],
    writes: [u16; 2],
    write_time: u16,
    slower: u16,
}

impl Drive {
    // Three frames on the usual drive, and windows of two times.
    fn open(slower: u16) -> Self {
        let mut reads = [0; 2];
        let mut writes = [0; 2];
        let opened = casa::open(Numbers {
            frames: 3,
            page_bytes: 16,
            pages: 8,
            read_cost: 0,
            write_cost: 0,
        });
        let started = times::start(2, &mut reads, &mut writes);
        Drive {
            pool: opened.pool,
            frames: [0; 48],
            store: [0; 128],
            kept: started.kept,
            reads,
            writes,
            write_time: WRITE_TIME,
            slower,
        }
    }

    // ---- reports

    fn report_read(&mut self) {
        let timed = times::report_read(self.kept, READ_TIME, &mut self.reads, &self.writes);
        self.kept = timed.kept;
    }

    fn report_write(&mut self) {
        let timed = times::report_write(self.kept, self.write_time, &self.reads, &mut self.writes);
        self.kept = timed.kept;
        self.write_time = self.write_time.wrapping_add(self.slower);
    }

    // Of a fault a read, and before it a write if the victim was dirty.
    fn report(&mut self, answer: Answer) {
        if let Ok(Access::Fault(victim)) = answer {
            if let Some(Victim::Dirty(_)) = victim {
                self.report_write();
            }
            self.report_read();
        }
    }

    // ---- calls, told in a line

    // Makes a call, reports it, and starts its line. A drop is one write; none is refused here.
    fn serve(&mut self, rt: &impl Print, call: Call) -> io::Result<()> {
        let kept = self.kept;
        let frames = &mut self.frames;
        let store = &mut self.store;
        match call {
            Read(page) => {
                let mut out = [0; 16];
                let read = casa::read_page_measured(self.pool, kept, page, frames, store, &mut out);
                self.pool = read.pool;
                self.report(read.answer);
                print!(rt; "read {page} {}", Told(read.answer))
            }
            Write(page) => {
                let wrote = casa::write_page_measured(
                    self.pool,
                    kept,
                    page,
                    0,
                    &[7],
                    frames,
                    store,
                );
                self.pool = wrote.pool;
                self.report(wrote.answer);
                print!(rt; "write {page} {}", Told(wrote.answer))
            }
            Cut(page) => {
                let dropped = casa::drop_page(self.pool, page, frames, store);
                self.pool = dropped.pool;
                self.report_write();
                print!(rt; "drop {page} {}", Told(dropped.answer.map(|()| "dropped")))
            }
        }
    }

    // The end of a call's line: the target, and of either window how many times it has and their sum.
    fn tell_state(&self, rt: &impl Print) -> io::Result<()> {
        let Kept { reads, writes, .. } = self.kept;
        print!(rt; " target {}", self.pool.target)?;
        print!(rt; " reads {} {}", reads.fill, reads.sum)?;
        println!(rt; " writes {} {}", writes.fill, writes.sum)
    }

    fn tell_end(&self, rt: &impl Print) -> io::Result<()> {
        let pool = self.pool;
        println!(rt;
            "physical reads {} writes {} total {}",
            pool.reads.0,
            pool.writes.0,
            Told(casa::total(pool))
        )
    }
}

// Pages 0 and 1 are dirty, page 2 is clean. Page 7 is in no frame: a drop of it is a write, and leaves the lists. After the second one both windows are full.
fn play_on(rt: &impl Print, what: &str, slower: u16) -> io::Result<()> {
    let mut drive = Drive::open(slower);
    println!(rt; "{what}")?;
    for call in SCRIPT {
        drive.serve(rt, call)?;
        drive.tell_state(rt)?;
    }
    drive.tell_end(rt)
}

fn main(rt: HostRuntime) -> io::Result<()> {
    play_on(&rt, "a young drive", 0)?;
    play_on(&rt, "a drive that wears", 800)
}

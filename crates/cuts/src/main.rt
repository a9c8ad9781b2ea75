// Cuts pages for good and prints what each drop leaves: zeros in the store, one physical write, and a frame that the next fault uses. The store starts with 9
// in every byte, so that a zero comes from a drop.
#![tactic(auto)]

use model::Numbers;
use pool::Pool;
use std::io;
use tell::{Told, Wrote};

// A call of a script, on a page. A write has the mark that becomes byte 0 of it.
#[derive(Clone, Copy)]
enum Call {
    Read(usize),
    Write(usize, u8),
    Flush,
    Cut(usize),
}

use Call::{Cut, Flush, Read, Write};

// A pool, and what is lent to it.
#[derive(Drop)]
struct PageBuffer {
    pool: Pool,
    frames: [u8; 64],
    store: [u8; 128],
}

impl PageBuffer {
    // Four frames.
    fn open() -> Self {
        let opened = casa::open(Numbers {
            frames: 4,
            page_bytes: 16,
            pages: 8,
            read_cost: 1,
            write_cost: 3,
        });
        PageBuffer {
            pool: opened.pool,
            frames: [0; 64],
            store: [9; 128],
        }
    }

    // Makes a call, and starts its line.
    fn serve(&mut self, rt: &impl Print, call: Call) -> io::Result<()> {
        let frames = &mut self.frames;
        let store = &mut self.store;
        match call {
            Read(page) => {
                let mut out = [0xEE; 16];
                let read = casa::read_page(self.pool, page, frames, store, &mut out);
                self.pool = read.pool;
                print!(rt; "read {page} {} byte {}", Told(read.answer), out[0])
            }
            Write(page, mark) => {
                let wrote = casa::write_page(self.pool, page, 0, &[mark], frames, store);
                self.pool = wrote.pool;
                print!(rt; "write {page} {}", Told(wrote.answer))
            }
            Flush => {
                let flushed = casa::flush(self.pool, frames, store);
                self.pool = flushed.pool;
                print!(rt; "flush {}", Told(flushed.answer.map(Wrote)))
            }
            Cut(page) => {
                let dropped = casa::drop_page(self.pool, page, frames, store);
                self.pool = dropped.pool;
                print!(rt; "drop {page} {}", Told(dropped.answer.map(|()| "dropped")))
            }
        }
    }

    // The end of a call's line: how many frames are empty, and the last of E, which the next fault takes.
    fn tell_empty(&self, rt: &impl Print) -> io::Result<()> {
        let empty = self.pool.lists.empty;
        let n = empty.len;
        match empty.places.get(..n).and_then(|frames| frames.last()) {
            Some(frame) => println!(rt; " empty {n} last {frame}"),
            None => println!(rt; " empty {n}"),
        }
    }

    fn tell_counts(&self, rt: &impl Print) -> io::Result<()> {
        print!(rt; "target {} ", self.pool.target)?;
        tell::counts(rt, self.pool.reads.0, self.pool.writes.0, self.pool.served)
    }

    fn play(&mut self, rt: &impl Print, script: &[Call]) -> io::Result<()> {
        for &call in script {
            self.serve(rt, call)?;
            self.tell_empty(rt)?;
        }
        self.tell_counts(rt)
    }
}

// Page 1 is saved, pages 2 and 3 are not, and no frame is empty. Then the frame of page 1 goes to page 5, with no victim; of the frames of pages 2 and 3 the
// one that came back last is used first, and neither page is written.
fn cut_week(rt: &impl Print) -> io::Result<()> {
    let mut week = PageBuffer::open();
    week.play(
        rt,
        &[
            Write(1, 101),
            Write(2, 102),
            Flush,
            Write(2, 104),
            Write(3, 105),
            Read(4),
            Read(1),
            Read(2),
        ],
    )?;
    week.play(rt, &[Cut(1), Read(5), Cut(2), Cut(3), Read(2), Read(3)])
}

// Page 0 was saved once and changed since: the flush behind its drop writes page 1 alone. Then it is absent, and a second drop frees no frame: empty frames
// have page number 0, and not page 0.
fn cut_twice(rt: &impl Print) -> io::Result<()> {
    let mut buffer = PageBuffer::open();
    buffer.play(
        rt,
        &[
            Write(0, 101),
            Flush,
            Write(0, 103),
            Write(1, 104),
            Cut(0),
            Flush,
            Cut(0),
            Read(0),
            Read(1),
        ],
    )
}

fn main(rt: HostRuntime) -> io::Result<()> {
    cut_week(&rt)?;
    cut_twice(&rt)
}

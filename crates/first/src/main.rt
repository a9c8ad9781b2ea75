// A first program: opens a pool, writes a mark into a page, reads the page back, flushes, and prints what came out and what it cost.
#![tactic(auto)]

use model::{Access, Numbers};
use std::io;

fn main(rt: HostRuntime) -> io::Result<()> {
    // 2 frames and 8 pages of 16 bytes; both costs 0 mean the usual drive, on which a read costs 1 and a write 10.
    let mut frames = [0u8; 32];
    let mut store = [0u8; 128];
    let mut out = [0u8; 16];
    let opened = casa::open(Numbers {
        frames: 2,
        page_bytes: 16,
        pages: 8,
        read_cost: 0,
        write_cost: 0,
    });

    let wrote = casa::write_page(opened.pool, 7, 0, &[77], &mut frames, &mut store);
    let read = casa::read_page(wrote.pool, 7, &mut frames, &mut store, &mut out);
    match read.answer {
        Ok(Access::Hit) => println!(rt; "a hit; byte 0 is {}", out[0])?,
        Ok(Access::Fault(_)) => println!(rt; "a fault; byte 0 is {}", out[0])?,
        Err(_) => println!(rt; "refused; byte 0 is still {}", out[0])?,
    }

    println!(rt; "in the store, before the flush: {}", store[112])?;
    let flushed = casa::flush(read.pool, &frames, &mut store);
    match flushed.answer {
        Ok(pages) => println!(rt; "pages written: {pages}")?,
        Err(_) => println!(rt; "refused; pages written: 0")?,
    }
    println!(rt; "in the store, after it: {}", store[112])?;

    match casa::total(flushed.pool) {
        Ok(cost) => println!(rt; "total cost: {cost}"),
        Err(_) => println!(rt; "refused; total cost: 0"),
    }
}

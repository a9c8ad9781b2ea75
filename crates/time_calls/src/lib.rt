// Calls of `times` as data, for a program that makes them in large numbers: start and both reports, on as many places as are lent. `change` makes up what is
// lent to them.
#![tactic(auto)]

pub mod change;

use model::Kept;
use times::Timed;

// The longest time.
pub const MOST_TIME: u16 = u16::MAX;

// What a call asks for: a start, the report of a read or that of a write.
#[derive(Clone, Copy)]
pub enum Request {
    Start,
    Read,
    Write,
}

// Kept numbers, and how many places of either window are lent with them.
#[derive(Clone, Copy)]
pub struct Lent {
    pub kept: Kept,
    pub reads: usize,
    pub writes: usize,
}

impl Lent {
    // With n places of both.
    pub fn whole(kept: Kept, n: usize) -> Lent {
        Lent {
            kept,
            reads: n,
            writes: n,
        }
    }
}

// Makes the call on as many places as are lent.
pub fn make(
    request: Request,
    lent: Lent,
    time: u16,
    reads: &mut [u16],
    writes: &mut [u16],
) -> Timed {
    let m = lent.reads.min(reads.len());
    let k = lent.writes.min(writes.len());
    let reads = &mut reads[..m];
    let writes = &mut writes[..k];
    match request {
        Request::Start => times::start(lent.kept.n, reads, writes),
        Request::Read => times::report_read(lent.kept, time, reads, writes),
        Request::Write => times::report_write(lent.kept, time, reads, writes),
    }
}

// One time in eight is 0, one the shortest, and one the longest.
pub fn time_by(chance: usize) -> u16 {
    match chance % 8 {
        0 => 0,
        1 => 1,
        2 => MOST_TIME,
        _ => (chance / 8 % 65536) as u16,
    }
}

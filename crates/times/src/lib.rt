// Times measured on the drive: the start of the two windows that the caller lends, and a report of each time. What is kept of the windows goes to the serving
// calls.
#![tactic(auto)]

ghost use Rattle.std.specs.Prelude.{◌≡◌, ◌&&◌, eqb, Ok, Err};
ghost use Rattle.model.specs.Times.{length_fits};
ghost use Rattle.model.specs.Refusals.{first};
ghost use Rattle.times.specs.Reports.{windows, read_took, write_took, windows_right, report_rows, start_after, report_after, timed_left};

use model::{Kept, Refusal};

// What the start of two windows and a report return: the numbers that are kept, and the answer.
#[derive(Clone, Copy)]
pub struct Timed {
    pub kept: Kept,
    pub answer: Result<(), Refusal>,
}

// ---- what a call returns

fn refused(kept: Kept, why: Refusal) -> Timed
    ensures { (result.kept ≡ kept) × (result.answer ≡ Err why) }
{
    Timed {
        kept,
        answer: Err(why),
    }
}

fn noted(kept: Kept) -> Timed
    ensures { (result.kept ≡ kept) × (result.answer ≡ Ok tt) }
{
    Timed {
        kept,
        answer: Ok(()),
    }
}

// ---- start

// Whether two windows may be started: both n long, and n in range.
fn may_start(n: usize, reads: usize, writes: usize) -> bool
    ensures { result ≡ (length_fits n && (eqb reads n && eqb writes n)) }
{
    if !costs::length_fits(n) {
        return false;
    }
    if reads != n {
        return false;
    }
    writes == n
}

// Starts two windows of n times: their places become 0. Refused: 13.
pub fn start(n: usize, reads: &mut [u16], writes: &mut [u16]) -> Timed
    ensures { timed_left result reads.new writes.new ≡ start_after n reads.old writes.old }
{
    if !may_start(n, reads.len(), writes.len()) {
        return refused(costs::fresh(0), Refusal::BrokenWindows);
    }
    window::clear(reads);
    window::clear(writes);
    noted(costs::fresh(n))
}

// ---- reports

// Whether what is kept of both windows is true of them.
fn both_right(kept: Kept, reads: &[u16], writes: &[u16]) -> bool
    ensures { result ≡ windows_right (windows kept reads.now writes.now) }
{
    if !costs::length_fits(kept.n) {
        return false;
    }
    if !window::right(kept.n, kept.reads, reads) {
        return false;
    }
    window::right(kept.n, kept.writes, writes)
}

// Refusal 13 or 12 of a report, of a write's time as of a read's: the rows ask for the time alone.
fn verdict(kept: Kept, time: u16, reads: &[u16], writes: &[u16]) -> Result<(), Refusal>
    ensures { result ≡ first (report_rows (windows kept reads.now writes.now) (read_took time)) }
{
    let kept_true = both_right(kept, reads, writes);
    let some_time = time != 0;
    if !kept_true {
        return Err(Refusal::BrokenWindows);
    }
    if !some_time {
        return Err(Refusal::ZeroTime);
    }
    Ok(())
}

// Reports the time of a physical read. Refused: 13, 12.
pub fn report_read(kept: Kept, time: u16, reads: &mut [u16], writes: &[u16]) -> Timed
    ensures { timed_left result reads.new writes.now ≡ report_after (windows kept reads.old writes.now) (read_took time) }
{
    match verdict(kept, time, reads, writes) {
        Err(why) => refused(kept, why),
        Ok(()) => {
            let placed = window::place(kept.n, kept.reads, reads, time);
            let mut after = kept;
            after.reads = placed;
            noted(after)
        }
    }
}

// Reports the time of a physical write. Refused: 13, 12.
pub fn report_write(kept: Kept, time: u16, reads: &[u16], writes: &mut [u16]) -> Timed
    ensures { timed_left result reads.now writes.new ≡ report_after (windows kept reads.now writes.old) (write_took time) }
{
    match verdict(kept, time, reads, writes) {
        Err(why) => refused(kept, why),
        Ok(()) => {
            let placed = window::place(kept.n, kept.writes, writes, time);
            let mut after = kept;
            after.writes = placed;
            noted(after)
        }
    }
}

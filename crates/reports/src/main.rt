// Reports times to windows of many sizes, and prints digests of all that the calls leave. Behind each report every call is made on copies of which one thing
// was changed: most of them are refused. tests/times.py says what must be printed.
#![tactic(auto)]

ghost use Rattle.std.specs.Prelude.{◌≤◌};

use calls::chance::{below, next};
use calls::{Counts, Said};
use model::{Kept, Refusal, Window};
use std::io;
use time_calls::change::{Change, changed_copies};
use time_calls::{Lent, MOST_TIME, Request, make, time_by};
use times::Timed;

// So many places are there for either window, of which the largest run uses all but one.
const ROOM: usize = 32770;

// ---- what came out

// The digest of a run's calls so far, and how many calls of all runs gave each kind of answer.
#[derive(Clone, Copy)]
struct Tally {
    digest: u32,
    counts: Counts,
}

fn absorb_kept(digest: u32, said: Said, kept: Kept) -> u32 {
    let numbers = [
        said.kind() as u64,
        kept.n as u64,
        kept.reads.fill as u64,
        kept.reads.next as u64,
        kept.reads.sum,
        kept.writes.fill as u64,
        kept.writes.next as u64,
        kept.writes.sum,
    ];
    digest::absorb_numbers(digest, 8, &numbers)
}

impl Tally {
    // The answer of a call, the kept numbers that it hands back, and both windows with the place behind them are absorbed.
    fn absorb(&mut self, timed: Timed, reads: &[u16], writes: &[u16]) {
        let said = Said::of(timed.answer, |()| Said::Noted);
        let with_kept = absorb_kept(self.digest, said, timed.kept);
        let with_reads = digest::absorb_times(with_kept, reads);
        self.digest = digest::absorb_times(with_reads, writes);
        self.counts.add(said);
    }
}

fn tell_run(rt: &impl Print, n: usize, digest: u32) -> io::Result<()> {
    println!(rt; "reports {n} {}", digest::printed(digest))
}

fn tell_counts(rt: &impl Print, counts: &Counts) -> io::Result<()> {
    let noted = counts.of(Said::Noted);
    let zero = counts.of(Said::Refused(Refusal::ZeroTime));
    let broken = counts.of(Said::Refused(Refusal::BrokenWindows));
    println!(rt; "reports noted {noted} refused {zero} {broken}")
}

// ---- a run

// How far a run has come.
#[derive(Clone, Copy)]
struct Run {
    tally: Tally,
    kept: Kept,
    seed: usize,
}

// The first places get the longest time.
fn fill_up(times: &mut [u16], filled: usize) {
    let end = filled.min(times.len());
    times[..end].fill(MOST_TIME);
}

// What suits both windows then.
fn filled_up(n: usize, filled: usize) -> Kept
    requires { (1 ≤ n) × (filled ≤ 32769) }
{
    let window = Window {
        fill: filled,
        next: below(n, filled),
        sum: filled as u64 * u64::from(MOST_TIME),
    };
    Kept {
        n,
        reads: window,
        writes: window,
    }
}

impl Run {
    // Starts with n times, of which the first so many are then filled by hand.
    fn new(counts: Counts, n: usize, filled: usize, reads: &mut [u16], writes: &mut [u16]) -> Run
        requires { (1 ≤ n) × (filled ≤ 32769) }
    {
        let mut tally = Tally {
            digest: digest::FULL,
            counts,
        };
        let lent = Lent::whole(costs::fresh(n), n);
        let started = make(Request::Start, lent, 0, reads, writes);
        tally.absorb(started, reads, writes);
        fill_up(reads, filled);
        fill_up(writes, filled);
        Run {
            tally,
            kept: filled_up(n, filled),
            seed: n,
        }
    }

    // A report by chance.
    fn report(&mut self, n: usize, reads: &mut [u16], writes: &mut [u16]) {
        self.seed = next(self.seed);
        let request = if self.seed % 2 == 0 {
            Request::Read
        } else {
            Request::Write
        };
        let lent = Lent::whole(self.kept, n);
        let timed = make(request, lent, time_by(self.seed / 2), reads, writes);
        self.kept = timed.kept;
        self.tally.absorb(timed, reads, writes);
    }

    // Every call, on copies of which one thing was changed.
    fn try_all(
        &mut self,
        n: usize,
        reads: &[u16],
        writes: &[u16],
        other_reads: &mut [u16],
        other_writes: &mut [u16],
    )
        requires { 1 ≤ n }
    {
        let chance = next(self.seed);
        let then = next(chance);
        let change = Change {
            kept: self.kept,
            n,
            chance,
            then,
        };
        for request in [Request::Start, Request::Read, Request::Write] {
            let lent = changed_copies(change, reads, writes, other_reads, other_writes);
            let timed = make(request, lent, time_by(then), other_reads, other_writes);
            self.tally.absorb(timed, other_reads, other_writes);
        }
        self.seed = then;
    }

    // The copies have as many places as the windows: n, and a spare one.
    fn take_all(&mut self, n: usize, turns: usize, reads: &mut [u16], writes: &mut [u16])
        requires { (1 ≤ n) × (n ≤ 32769) }
    {
        let mut other_reads = [0; ROOM];
        let mut other_writes = [0; ROOM];
        let other_reads = &mut other_reads[..n + 1];
        let other_writes = &mut other_writes[..n + 1];
        for _ in 0..turns {
            self.report(n, reads, writes);
            self.try_all(n, reads, writes, other_reads, other_writes);
        }
    }
}

// A run on windows that have one place more than n, which stays; its own digest is told in a line.
fn run_of(
    rt: &impl Print,
    counts: &mut Counts,
    n: usize,
    filled: usize,
    turns: usize,
    reads: &mut [u16],
    writes: &mut [u16],
) -> io::Result<()>
    requires { (1 ≤ n) × (n ≤ 32769) × (filled ≤ 32769) }
{
    let m = reads.len().min(n + 1);
    let k = writes.len().min(n + 1);
    let reads = &mut reads[..m];
    let writes = &mut writes[..k];
    let mut run = Run::new(*counts, n, filled, reads, writes);
    run.take_all(n, turns, reads, writes);
    *counts = run.tally.counts;
    tell_run(rt, n, run.tally.digest)
}

// Windows of 1 to 40 times, from none filled on; either goes round three times.
fn small(
    rt: &impl Print,
    counts: &mut Counts,
    reads: &mut [u16],
    writes: &mut [u16],
) -> io::Result<()> {
    for n in 1..=40 {
        run_of(rt, counts, n, 0, 8 * n + 20, reads, writes)?;
    }
    Ok(())
}

// Windows that are nearly full or full, up to the largest and one that is too large.
fn large(
    rt: &impl Print,
    counts: &mut Counts,
    reads: &mut [u16],
    writes: &mut [u16],
) -> io::Result<()> {
    run_of(rt, counts, 1000, 995, 8, reads, writes)?;
    run_of(rt, counts, 32767, 32764, 8, reads, writes)?;
    run_of(rt, counts, 32768, 32768, 8, reads, writes)?;
    run_of(rt, counts, 32769, 32769, 8, reads, writes)
}

fn main(rt: HostRuntime) -> io::Result<()> {
    let mut reads = [0xEEEE; ROOM];
    let mut writes = [0xEEEE; ROOM];
    let mut counts = Counts::new();
    small(&rt, &mut counts, &mut reads, &mut writes)?;
    large(&rt, &mut counts, &mut reads, &mut writes)?;
    tell_counts(&rt, &counts)
}

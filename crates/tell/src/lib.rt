// What the programs print alike, to standard output: what a call answers, and what a pool counted.
#![tactic(auto)]

use model::Refusal;
use std::{fmt, io};

// What a call answers, within a line: what `Ok` has, or the refusal.
#[derive(Clone, Copy)]
pub struct Told<T>(pub Result<T, Refusal>);

impl<T: fmt::Display> fmt::Display for Told<T> {
    fn fmt<W: fmt::Write>(&self, f: &mut fmt::Formatter<W>) -> fmt::Result {
        match &self.0 {
            Ok(answer) => write!(f, "{answer}"),
            Err(why) => write!(f, "{why}"),
        }
    }
}

// What a flush has to say of the pages that it wrote.
#[derive(Clone, Copy)]
pub struct Wrote(pub usize);

impl fmt::Display for Wrote {
    fn fmt<W: fmt::Write>(&self, f: &mut fmt::Formatter<W>) -> fmt::Result {
        write!(f, "wrote {}", self.0)
    }
}

// What was counted, a line of its own.
pub fn counts(rt: &impl Print, reads: u64, writes: u64, served: u64) -> io::Result<()> {
    println!(rt; "physical reads {reads} writes {writes} served {served}")
}

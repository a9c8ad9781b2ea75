// The scope's words, how programs print an answer and a refusal by its number, and the limits. No other function stands here: specs/ says what is right, and
// proofs/ shows what follows from it.
#![tactic(auto)]

ghost use Rattle.std.specs.Prelude.{◌≡◌, Some};
ghost use Rattle.model.specs.Numbers.{between, numbers_held, in_limits};
ghost use Rattle.model.specs.Words.{number_of};
ghost use Rattle.model.specs.Printed.{op_text, victim_text, access_text, refusal_text};

use std::fmt;

// The usual drive, which opening with both costs 0 means.
pub const USUAL_READ: u64 = 1;

pub const USUAL_WRITE: u64 = 10;

// So many calls are served in one opening.
pub const MOST_SERVED: u64 = 1000000000;

// The numbers that a pool is opened with and keeps.
#[derive(Clone, Copy, Default)]
pub struct Numbers {
    // b, P and N: frames, 1 to 64; bytes of a page, 16 to 4,096; pages of the store, 1 to 65,536.
    pub frames: usize,
    pub page_bytes: usize,
    pub pages: usize,
    // r and w: what a physical read and a physical write cost, each 1 to 1,000.
    pub read_cost: u64,
    pub write_cost: u64,
}

fn between(low: u64, x: u64, high: u64) -> bool
    ensures { result ≡ between low x high }
{
    low <= x && x <= high
}

impl Numbers {
    // Whether they are in their limits.
    pub fn in_limits(&self) -> bool
        ensures { result ≡ in_limits (numbers_held self.now) }
    {
        between(1, self.frames as u64, 64)
            & between(16, self.page_bytes as u64, 4096)
            & between(1, self.pages as u64, 65536)
            & between(1, self.read_cost, 1000)
            & between(1, self.write_cost, 1000)
    }
}

// What a request asks of a page.
#[derive(Clone, Copy)]
pub enum Op {
    Read,
    Write,
}

// Where a page is: at a place of C or of D. A page that no frame has is at none.
#[derive(Clone, Copy)]
pub enum Place {
    InClean(usize),
    InDirty(usize),
}

// Which frame a fault takes: the one at a place of E, of C or of D. There is always one, so none of the three stands for none.
#[derive(Clone, Copy)]
pub enum Choice {
    OfEmpty(usize),
    OfClean(usize),
    OfDirty(usize),
}

// The page that has to leave the frame that a fault takes, if the frame is not empty.
#[derive(Clone, Copy)]
pub enum Victim {
    Clean(usize),
    Dirty(usize),
}

// What a served read or write finds: the page in a frame, or no frame that has it.
#[derive(Clone, Copy)]
pub enum Access {
    Hit,
    Fault(Option<Victim>),
}

// Why something is refused. `number` gives the scope's number of each.
#[derive(Clone, Copy)]
pub enum Refusal {
    OutOfLimits,
    BrokenPool,
    WrongMemory,
    NoSuchPage,
    WrongBytes,
    Spent,
    NotATrace,
    BadRecord(usize),
    LongFile,
    LargePool,
    NoRoom,
    ZeroTime,
    BrokenWindows,
}

// What a read or a write answers.
pub type Answer = Result<Access, Refusal>;

// What is kept of a window of times: how many of its places are filled, which comes next, and the sum of its times.
#[derive(Clone, Copy, Default)]
pub struct Window {
    pub fill: usize,
    pub next: usize,
    pub sum: u64,
}

// What is kept of the two windows of `n` times, those of physical reads and those of physical writes.
#[derive(Clone, Copy, Default)]
pub struct Kept {
    pub n: usize,
    pub reads: Window,
    pub writes: Window,
}

impl Refusal {
    // The scope's number.
    pub fn number(self) -> u64
        ensures { result ≡ number_of self }
    {
        match self {
            Refusal::OutOfLimits => 1,
            Refusal::BrokenPool => 2,
            Refusal::WrongMemory => 3,
            Refusal::NoSuchPage => 4,
            Refusal::WrongBytes => 5,
            Refusal::Spent => 6,
            Refusal::NotATrace => 7,
            Refusal::BadRecord(_) => 8,
            Refusal::LongFile => 9,
            Refusal::LargePool => 10,
            Refusal::NoRoom => 11,
            Refusal::ZeroTime => 12,
            Refusal::BrokenWindows => 13,
        }
    }
}

// ---- as the programs print it

impl fmt::Display for Op {
    ghost output = { λ x. Some (op_text x) };

    fn fmt<W: fmt::Write>(&self, f: &mut fmt::Formatter<W>) -> fmt::Result {
        f.write_str(match self {
            Op::Read => "read",
            Op::Write => "write",
        })
    }
}

impl fmt::Display for Victim {
    ghost output = { λ x. Some (victim_text x) };

    fn fmt<W: fmt::Write>(&self, f: &mut fmt::Formatter<W>) -> fmt::Result {
        match self {
            Victim::Clean(page) => write!(f, "clean {page}"),
            Victim::Dirty(page) => write!(f, "dirty {page}"),
        }
    }
}

impl fmt::Display for Access {
    ghost output = { λ x. Some (access_text x) };

    fn fmt<W: fmt::Write>(&self, f: &mut fmt::Formatter<W>) -> fmt::Result {
        match self {
            Access::Hit => f.write_str("hit"),
            Access::Fault(None) => f.write_str("fault"),
            Access::Fault(Some(victim)) => write!(f, "fault {victim}"),
        }
    }
}

impl fmt::Display for Refusal {
    ghost output = { λ x. Some (refusal_text x) };

    fn fmt<W: fmt::Write>(&self, f: &mut fmt::Formatter<W>) -> fmt::Result {
        write!(f, "refused {}", self.number())
    }
}

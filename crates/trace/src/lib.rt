// Trace files: the trailer that points back, the records, and the refusals 7, 1 and 8. Every function takes any bytes. A trace is read one record at a
// time from the caller's bytes.
#![tactic(auto)]

pub mod reader;

ghost use Rattle.std.specs.Prelude.{◌≡◌, ◌+◌, ◌*◌, ◌≤◌, ◌<◌, ◌^◌, length};
ghost use Rattle.model.specs.Numbers.{in_limits, holding};
ghost use Rattle.trace.specs.Format.{number_at, trailer_at, numbers_in, recorded_on, points_back, judged, header_of};
ghost use Rattle.trace.specs.Format.{record_of, record_in, record_at, first_bad, checked_of, place_after, first_place};
ghost use Rattle.trace.specs.Words.{checked_says, next_says};

use model::{Numbers, Refusal};

// The trailer, raw as in the file.
#[derive(Clone, Copy)]
pub struct Trailer {
    pub distance: usize,
    pub records: usize,
    pub numbers: Numbers,
}

#[derive(Clone, Copy)]
pub enum Record {
    Read(usize),
    Write(usize, u8),
    Flush,
    Drop(usize),
}

const TRAILER: usize = 20;

// The drive on which the stored files were recorded.
const RECORDED_READ: u64 = 1;

const RECORDED_WRITE: u64 = 4;

// ---- numbers

// The number that the `width` bytes from byte `at` on spell.
#[tactic(auto, using(crate::proofs::Rules::spells), unfolding(little::specs::Little::AllBelow))]
fn number(bytes: &[u8], at: usize, width: usize) -> usize
    requires { (width ≤ 4) × (at + width ≤ length bytes.now) }
    ensures { (result ≡ number_at at width bytes.now) × (result < 256 ^ width) }
{
    little::get(&bytes[at..at + width]) as usize
}

// ---- the trailer

// The trailer whose 20 bytes start at byte `at`.
#[tactic(auto, unfolding(crate::specs::Format::trailer_at))]
fn trailer_at(bytes: &[u8], at: usize) -> Trailer
    requires { at + 20 ≤ length bytes.now }
    ensures { (result ≡ trailer_at bytes.now at) × (result.records < 2 ^ 32) }
{
    Trailer {
        distance: number(bytes, at, 4),
        records: number(bytes, at + 4, 4),
        numbers: Numbers {
            frames: number(bytes, at + 8, 2),
            page_bytes: number(bytes, at + 10, 2),
            pages: number(bytes, at + 12, 4),
            read_cost: number(bytes, at + 16, 2) as u64,
            write_cost: number(bytes, at + 18, 2) as u64,
        },
    }
}

// Whether the trailer of a file of n bytes points back at its first record: as whole numbers, so that no distance wraps.
#[tactic(auto, unfolding(crate::specs::Format::points_back))]
fn points_back(n: usize, distance: usize, records: usize) -> bool
    requires { records < 2 ^ 32 }
    ensures { result ≡ points_back n distance records }
{
    distance == TRAILER + 4 * records && distance <= n
}

// The numbers of a trace, on the drive on which it was recorded: the trailer's, and where both its costs are 0 those of the stored files. Whoever runs the
// trace opens with these, since both costs 0 mean another drive to open.
#[tactic(auto, unfolding(model::specs::Numbers::on_drive))]
pub fn recorded_on(trailer: Trailer) -> Numbers
    ensures { result ≡ holding (recorded_on (numbers_in trailer)) }
{
    let numbers = trailer.numbers;
    if numbers.read_cost == 0 && numbers.write_cost == 0 {
        return Numbers {
            read_cost: RECORDED_READ,
            write_cost: RECORDED_WRITE,
            ..numbers
        };
    }
    numbers
}

// Whether a pool can be opened with the trailer's numbers.
pub fn numbers_allowed(trailer: Trailer) -> bool
    ensures { result ≡ in_limits (recorded_on (numbers_in trailer)) }
{
    recorded_on(trailer).in_limits()
}

// The trailer of a file of n bytes, or refusal 7 or 1, in that order.
#[tactic(auto, unfolding(crate::specs::Format::judged))]
fn judge(n: usize, trailer: Trailer) -> Result<Trailer, Refusal>
    requires { trailer.records < 2 ^ 32 }
    ensures { result ≡ judged n trailer }
{
    if !points_back(n, trailer.distance, trailer.records) {
        return Err(Refusal::NotATrace);
    }
    if !numbers_allowed(trailer) {
        return Err(Refusal::OutOfLimits);
    }
    Ok(trailer)
}

// ---- records

// The record that a letter, a value and a page make, or none where 8 would refuse it.
#[tactic(auto, unfolding(crate::specs::Format::record_of))]
fn record_of(letter: u8, value: u8, page: usize, pages: usize) -> Option<Record>
    ensures { result ≡ record_of pages letter value page }
{
    match letter {
        b'R' if value == 0 && page < pages => Some(Record::Read(page)),
        b'W' if page < pages => Some(Record::Write(page, value)),
        b'F' if value == 0 && page == 0 => Some(Record::Flush),
        b'D' if value == 0 && page < pages => Some(Record::Drop(page)),
        _ => None,
    }
}

// The record whose four bytes start at byte `at`, or none where 8 would refuse it.
#[tactic(auto, unfolding(crate::specs::Format::record_in))]
fn record_in(bytes: &[u8], at: usize, pages: usize) -> Option<Record>
    requires { at + 4 ≤ length bytes.now }
    ensures { result ≡ record_in bytes.now at pages }
{
    record_of(bytes[at], bytes[at + 1], number(bytes, at + 2, 2), pages)
}

// The number, from 1, of the first of the records that 8 refuses.
#[tactic(auto, using(crate::proofs::Rules::searches))]
fn first_bad(bytes: &[u8], start: usize, records: usize, pages: usize) -> Option<usize>
    requires { start + 4 * records ≤ length bytes.now }
    ensures { result ≡ first_bad bytes.now pages start 0 records }
{
    for k in 0..records {
        if record_in(bytes, start + 4 * k, pages).is_none() {
            return Some(k + 1);
        }
    }
    None
}

// ---- the public functions

// The trailer, or refusal 7 or 1. No record is looked at.
#[tactic(auto, unfolding(crate::specs::Format::header_of))]
pub fn header(bytes: &[u8]) -> Result<Trailer, Refusal>
    ensures { checked_says result ≡ checked_says (header_of bytes.now) }
{
    let n = bytes.len();
    if n < TRAILER {
        return Err(Refusal::NotATrace);
    }
    judge(n, trailer_at(bytes, n - TRAILER))
}

// The trailer of a trace whose every record is right, or refusal 7, 1 or 8.
#[tactic(auto, using(crate::proofs::Rules::reads), unfolding(crate::specs::Format::checked_of))]
pub fn check(bytes: &[u8]) -> Result<Trailer, Refusal>
    ensures { checked_says result ≡ checked_says (checked_of bytes.now) }
{
    let trailer = header(bytes)?;
    let start = bytes.len() - trailer.distance;
    match first_bad(bytes, start, trailer.records, trailer.numbers.pages) {
        Some(bad) => Err(Refusal::BadRecord(bad)),
        None => Ok(trailer),
    }
}

// The record at a place, counted from 0. There is none past the last, where 7 or 1 would refuse the bytes, or where 8 would refuse this record; faults of
// other records do not matter.
#[tactic(auto, using(crate::proofs::Rules::reads), unfolding(crate::specs::Format::record_at))]
pub fn record_at(bytes: &[u8], place: usize) -> Option<Record>
    ensures { next_says result ≡ next_says (record_at bytes.now place) }
{
    let trailer = header(bytes).ok()?;
    if place >= trailer.records {
        return None;
    }
    let start = bytes.len() - trailer.distance;
    record_in(bytes, start + 4 * place, trailer.numbers.pages)
}

// The place after the record at `place`; where there is none, the same place.
#[tactic(auto, using(crate::proofs::Rules::follows))]
pub fn place_after(bytes: &[u8], place: usize) -> usize
    ensures { result ≡ place_after bytes.now place }
{
    match record_at(bytes, place) {
        Some(_) => place + 1,
        None => place,
    }
}

// The place at which a reader begins: the first one, or, where 8 refuses the trace, that of the bad record. No record is there, so that a refused trace
// yields none.
#[tactic(auto, using(crate::proofs::Rules::begins), unfolding(crate::specs::Format::first_place))]
pub fn first_place(trace: &[u8]) -> usize
    ensures { result ≡ first_place trace.now }
{
    match check(trace) {
        Ok(_) => 0,
        // A match in the arm: of `Err(_)` after `Err(Refusal::BadRecord(_))` a proof does not learn that it is another refusal.
        Err(why) => match why {
            Refusal::BadRecord(bad) => bad - 1,
            _ => 0,
        },
    }
}

// Recorders made by hand: a right one, or one of which a number was changed, in buffers of different lengths. Prints a digest of all that the calls on them
// leave, and of traces that were closed, read and written once more. tests/recording.py says what must be printed.
#![tactic(auto)]

ghost use Rattle.std.specs.Prelude.{◌≤◌};

use calls::chance;
use model::{Access, Numbers, Refusal};
use recorder::{Recorded, Recorder};
use std::io;
use trace::{Record, reader};

// ---- a right recorder of which one number is changed

// It has two records behind three bytes of notes.
const RIGHT: Recorder = Recorder {
    numbers: Numbers {
        frames: 2,
        page_bytes: 16,
        pages: 8,
        read_cost: 1,
        write_cost: 3,
    },
    start: 3,
    records: 2,
};

fn edge(chance: usize) -> usize {
    match chance % 16 {
        0 => 0,
        1 => 1,
        2 => 15,
        3 => 16,
        4 => 64,
        5 => 65,
        6 => 1000,
        7 => 1001,
        8 => 4096,
        9 => 4097,
        10 => 65535,
        11 => 65536,
        12 => 65537,
        13 => 4294967295,
        14 => usize::MAX - 19,
        _ => usize::MAX,
    }
}

fn changed(mut recorder: Recorder, chance: usize) -> Recorder {
    let number = edge(chance / 10);
    match chance % 10 {
        0 => recorder.numbers.frames = number,
        1 => recorder.numbers.page_bytes = number,
        2 => recorder.numbers.pages = 65535 + chance / 10 % 3,
        3 => recorder.numbers.read_cost = number as u64,
        4 => recorder.numbers.write_cost = number as u64,
        5 => recorder.start = number,
        6 => recorder.records = (number % 4294967296) as u32,
        7 => {
            recorder.numbers.read_cost = 0;
            recorder.numbers.write_cost = 0;
        }
        _ => {}
    }
    recorder
}

// ---- calls on it

fn record_by(chance: usize) -> Record {
    let page = edge(chance / 5);
    match chance % 5 {
        0 => Record::Read(page),
        1 => Record::Write(page, (chance / 80 % 256) as u8),
        2 => Record::Flush,
        3 => Record::Read(chance / 5 % 10),
        _ => Record::Drop(page),
    }
}

fn refused(why: Refusal) -> Result<(), Refusal> {
    Err(why)
}

// The record is added as it stands, or as that of a call which gave this answer.
fn add_by(recorder: Recorder, what: Record, chance: usize, buffer: &mut [u8]) -> Recorded {
    let drop = Record::Drop(edge(chance / 10));
    match chance % 10 {
        0 => recorder::add_served(recorder, refused(Refusal::Spent), what, buffer),
        1 => recorder::add_served(recorder, Ok(Access::Fault(None)), what, buffer),
        2 => recorder::add_served(recorder, Ok(Access::Hit), what, buffer),
        3 => recorder::add_served(
            recorder,
            refused(Refusal::WrongMemory),
            Record::Flush,
            buffer,
        ),
        4 => recorder::add_served(recorder, Ok(3), Record::Flush, buffer),
        5 => recorder::add_served(recorder, refused(Refusal::NoSuchPage), drop, buffer),
        6 => recorder::add_served(recorder, Ok(()), drop, buffer),
        _ => recorder::add(recorder, what, buffer),
    }
}

// ---- a trace that is read and written once more

fn copy(trace: &[u8], buffer: &mut [u8]) -> Result<usize, Refusal> {
    let trailer = trace::check(trace)?;
    let start = trace.len().saturating_sub(trailer.distance);
    let begun = recorder::begin(trailer.numbers, &trace[..start], buffer);
    let mut recorder = begun.recorder;
    for what in (0..trailer.records).filter_map(|place| reader::nth(trace, place)) {
        recorder = recorder::add(recorder, what, buffer).recorder;
    }
    recorder::close(recorder, buffer)
}

fn copy_closed(
    answer: Result<usize, Refusal>,
    from: &[u8],
    buffer: &mut [u8],
) -> Result<usize, Refusal> {
    let bytes = answer?.min(from.len());
    copy(&from[..bytes], buffer)
}

// ---- what they leave

// The number of a refusal and the record that it names; else 0 and how many bytes were closed.
fn absorb_answer(digest: u32, answer: Result<usize, Refusal>) -> u32 {
    let said = match answer {
        Ok(bytes) => [0, bytes as u64],
        Err(why @ Refusal::BadRecord(record)) => [why.number(), record as u64],
        Err(why) => [why.number(), 0],
    };
    digest::absorb_numbers(digest, 8, &said)
}

fn absorb_closed(digest: u32, answer: Result<usize, Refusal>, buffer: &[u8]) -> u32 {
    digest::absorb_bytes(absorb_answer(digest, answer), buffer)
}

fn absorb_recorded(digest: u32, recorded: Recorded, buffer: &[u8]) -> u32 {
    let with_answer = absorb_answer(digest, recorded.answer.map(|()| 0));
    let recorder = recorded.recorder;
    let held = recorder.numbers;
    let numbers = [
        held.frames as u64,
        held.page_bytes as u64,
        held.pages as u64,
        held.read_cost,
        held.write_cost,
        recorder.start as u64,
        u64::from(recorder.records),
    ];
    let with_recorder = digest::absorb_numbers(with_answer, 8, &numbers);
    digest::absorb_bytes(with_recorder, buffer)
}

const BUFFER: usize = 40;

// So many bytes of a buffer are lent.
fn room_by(chance: usize) -> usize
    ensures { result ≤ BUFFER }
{
    (20 + chance % 24).min(BUFFER)
}

// A record is added by a recorder made by hand and the trace closed; then one record more over the trailer, and closed again.
fn try_by_hand(digest: u32, recorder: Recorder, chance: usize) -> u32 {
    let mut buffer = [170; BUFFER];
    let added = add_by(
        recorder,
        record_by(chance),
        chance / 4096,
        &mut buffer[..room_by(chance / 65536)],
    );
    let with_added = absorb_recorded(digest, added, &buffer);
    let closed = recorder::close(recorder, &mut buffer[..room_by(chance / 1024)]);
    let with_closed = absorb_closed(with_added, closed, &buffer);
    let longer = recorder::add(recorder, Record::Flush, &mut buffer).recorder;
    let again = recorder::close(longer, &mut buffer);
    absorb_closed(with_closed, again, &buffer)
}

// A trace with these numbers is begun, a record added, the trace closed, read, and written once more.
fn try_begun(digest: u32, recorder: Recorder, chance: usize) -> u32 {
    let mut buffer = [170; BUFFER];
    let begun = recorder::begin(
        recorder.numbers,
        b"notes",
        &mut buffer[..room_by(chance / 128)],
    );
    let with_begun = absorb_recorded(digest, begun, &buffer);
    let longer = recorder::add(begun.recorder, record_by(chance), &mut buffer).recorder;
    let closed = recorder::close(longer, &mut buffer);
    let with_closed = absorb_closed(with_begun, closed, &buffer);
    let mut other = [85; BUFFER];
    let copied = copy_closed(closed, &buffer, &mut other);
    absorb_closed(with_closed, copied, &other)
}

fn main(rt: HostRuntime) -> io::Result<()> {
    let mut digest = digest::FULL;
    let mut seed = 1;
    for _ in 0..40000 {
        seed = chance::next(chance::next(seed));
        let recorder = changed(RIGHT, seed);
        let chance = chance::next(seed);
        digest = try_by_hand(try_begun(digest, recorder, chance), recorder, chance);
    }
    println!(&rt; "{}", digest::printed(digest))
}

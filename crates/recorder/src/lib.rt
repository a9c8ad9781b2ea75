// The writer of trace files: `begin` copies the notes to the front of a lent buffer, `add` puts one record behind what is there, `close` the trailer. Every
// call takes any recorder and any buffer; what cannot be done is refused with the scope's number, and a refused call changes nothing. `begin` costs its notes,
// `add` and `close` cost the same however long the trace is.
//
// Both costs 0 stay 0, 0 in the file, and whoever runs it opens with 1 and 4; a pool that was opened with 0, 0 works on 1 and 10. So record a pool with the
// numbers that it holds, which in a sound pool are never 0: `record_casa::begin` takes them from it.
#![tactic(auto)]

ghost use Rattle.std.specs.Prelude.{◌≡◌, ◌≤◌, is_some};
ghost use Rattle.model.specs.Numbers.{numbers_held};
ghost use Rattle.trace.specs.Encode.{trailer_of};
ghost use Rattle.recorder.specs.Calls.{numbers_of, found_for, room_for, add_verdict, close_verdict};
ghost use Rattle.recorder.specs.Calls.{begin_after, add_after, close_after, recorded_left, closed_left};
ghost use Rattle.recorder.specs.Runs.{tape, answer_verdict, recorded_by};

use model::{Numbers, Refusal};
use trace::{Record, Trailer};

// The numbers as a trailer holds them, where the records start in the buffer, and how many there are. It holds nothing that could contradict the buffer: that
// is lent to each call, and may be another one.
#[derive(Clone, Copy, Default)]
pub struct Recorder {
    pub numbers: Numbers,
    pub start: usize,
    // As many bits as a trailer has for them.
    pub records: u32,
}

// What `begin` and `add` return.
#[derive(Clone, Copy)]
pub struct Recorded {
    pub recorder: Recorder,
    pub answer: Result<(), Refusal>,
}

const TRAILER: usize = 20;

// What 32 bits hold.
const FARTHEST: usize = 4294967295;

// ---- the verdicts

// The trailer of what is recorded.
fn trailer_of(recorder: Recorder) -> Trailer
    ensures { result ≡ trailer_of recorder.records (numbers_of recorder) }
{
    let records = recorder.records as usize;
    Trailer {
        distance: TRAILER + 4 * records,
        records,
        numbers: recorder.numbers,
    }
}

// Whether the reader would accept the record, in a trace over so many pages.
#[tactic(auto, unfolding(trace::specs::Format::record_of))]
fn accepted(what: Record, pages: usize) -> bool
    ensures { result ≡ is_some (found_for pages what) }
{
    match what {
        Record::Read(page) | Record::Write(page, _) | Record::Drop(page) => page < pages,
        Record::Flush => true,
    }
}

// Whether so many records from byte `start` on and the trailer fit n bytes, and the distance 32 bits: as whole numbers, so that nothing wraps.
#[tactic(auto, unfolding(crate::specs::Calls::room_for))]
fn has_room(start: usize, records: usize, n: usize) -> bool
    requires { records ≤ 4294967296 }
    ensures { result ≡ room_for start records n }
{
    let distance = TRAILER + 4 * records;
    distance <= FARTHEST && distance <= n && start <= n - distance
}

// Refusal 1 or 11 of closing into n bytes. A recorder that begins, with its notes before it and no record yet, is refused alike.
#[tactic(auto, unfolding(crate::specs::Calls::close_verdict))]
fn close_verdict(recorder: Recorder, n: usize) -> Result<(), Refusal>
    ensures { result ≡ close_verdict recorder n }
{
    if !trace::numbers_allowed(trailer_of(recorder)) {
        return Err(Refusal::OutOfLimits);
    }
    if !has_room(recorder.start, recorder.records as usize, n) {
        return Err(Refusal::NoRoom);
    }
    Ok(())
}

// Refusal 1, 8 or 11 of one record more.
#[tactic(auto, unfolding(crate::specs::Calls::add_verdict))]
fn add_verdict(recorder: Recorder, what: Record, n: usize) -> Result<(), Refusal>
    ensures { result ≡ add_verdict recorder what n }
{
    if !trace::numbers_allowed(trailer_of(recorder)) {
        return Err(Refusal::OutOfLimits);
    }
    let number = recorder.records as usize + 1;
    if !accepted(what, recorder.numbers.pages) {
        return Err(Refusal::BadRecord(number));
    }
    if !has_room(recorder.start, number, n) {
        return Err(Refusal::NoRoom);
    }
    Ok(())
}

// ---- the public calls

// Begins a trace: its notes go to the front of the buffer. Refused: 1, 11; then the recorder is all zeros, which `add` and `close` refuse 1.
#[tactic(auto, using(crate::proofs::Laws::begins), unfolding(crate::specs::Calls::begin_after))]
pub fn begin(numbers: Numbers, notes: &[u8], buffer: &mut [u8]) -> Recorded
    ensures { recorded_left result buffer.new ≡ begin_after (numbers_held numbers) notes.now buffer.old }
{
    let size = notes.len();
    let recorder = Recorder {
        numbers,
        start: size,
        records: 0,
    };
    let answer = close_verdict(recorder, buffer.len());
    if answer.is_err() {
        return Recorded {
            recorder: Recorder::default(),
            answer,
        };
    }
    pages::overlay(buffer, 0, 0, notes, size);
    Recorded { recorder, answer }
}

// Adds a record behind those that are there. Refused: 1, 8 with the number that the record would have had, 11.
#[tactic(auto, using(crate::proofs::Laws::adds), unfolding(crate::specs::Calls::add_after))]
pub fn add(recorder: Recorder, what: Record, buffer: &mut [u8]) -> Recorded
    ensures { recorded_left result buffer.new ≡ add_after recorder what buffer.old }
{
    let answer = add_verdict(recorder, what, buffer.len());
    if answer.is_err() {
        return Recorded { recorder, answer };
    }
    let end = recorder.start + 4 * (recorder.records as usize);
    writing::put_record(buffer, end, what);
    let longer = Recorder {
        records: recorder.records + 1,
        ..recorder
    };
    Recorded {
        recorder: longer,
        answer,
    }
}

// Adds the record of a call that gave this answer. A refused call has no record: the answer is then the call's refusal, and nothing changes. A call that was
// served stays served, whatever becomes of its record. Refused: as the call was; else 1, 8, 11.
pub fn add_served<T: Drop>(
    recorder: Recorder,
    answer: Result<T, Refusal>,
    what: Record,
    buffer: &mut [u8],
) -> Recorded
    ensures { recorded_left result buffer.new ≡ recorded_by (answer_verdict answer) what (tape recorder buffer.old) }
{
    match answer {
        Ok(_) => add(recorder, what, buffer),
        Err(why) => Recorded {
            recorder,
            answer: Err(why),
        },
    }
}

// Closes the trace with its trailer, and says how many bytes of the buffer are the trace. The recorder stays as it is: a further record goes over the trailer,
// and the trace is closed again. Refused: 1, 11.
#[tactic(auto, using(crate::proofs::Laws::closes), unfolding(crate::specs::Calls::close_after))]
pub fn close(recorder: Recorder, buffer: &mut [u8]) -> Result<usize, Refusal>
    ensures { closed_left recorder result buffer.new ≡ close_after recorder buffer.old }
{
    close_verdict(recorder, buffer.len())?;
    let end = recorder.start + 4 * (recorder.records as usize);
    writing::put_trailer(buffer, end, trailer_of(recorder));
    Ok(end + TRAILER)
}

// Loads for the recorder's calls. One loop serves all of them: any request may begin the trace anew, so that the compiler cannot tell that the numbers stay
// what they are, and each call tests them.
use model::{Numbers, Refusal};
use recorder::{Recorded, Recorder};
use trace::Record;

// A write has its kind for its value.
fn record_by(op: u8, page: usize) -> Record {
    match op {
        2 => Record::Flush,
        3 => Record::Read(page),
        4 => Record::Drop(page),
        _ => Record::Write(page, op),
    }
}

// Sets the number of a refused record apart from every other answer.
const BAD: u64 = 1 << 63;

// The bytes of a closed trace, 0 for what is begun or recorded, or a refusal.
fn said(answer: Result<usize, Refusal>) -> u64 {
    match answer {
        Ok(bytes) => bytes as u64,
        Err(Refusal::BadRecord(record)) => record as u64 ^ BAD,
        Err(why) => why.number(),
    }
}

fn told(recorded: Recorded) -> (Recorder, u64) {
    (recorded.recorder, said(recorded.answer.map(|()| 0)))
}

// One request, its kind in the lowest byte and the page above it: 0 begins the trace anew with the numbers of the recorder, 1 closes it, anything else adds a
// record.
fn serve(recorder: Recorder, request: u32, notes: &[u8], buffer: &mut [u8]) -> (Recorder, u64) {
    match (request % 256) as u8 {
        0 => told(recorder::begin(recorder.numbers, notes, buffer)),
        1 => (recorder, said(recorder::close(recorder, buffer))),
        op => {
            let what = record_by(op, (request / 256) as usize);
            told(recorder::add(recorder, what, buffer))
        }
    }
}

// Serves the requests in order with a recorder made by hand. What comes back is the last answer.
#[unsafe(no_mangle)]
pub extern "C" fn bench_record(
    frames: usize,
    page_bytes: usize,
    pages: usize,
    read_cost: usize,
    write_cost: usize,
    start: usize,
    records: u32,
    requests: &[u32],
    notes: &[u8],
    buffer: &mut [u8],
) -> u64 {
    let numbers = Numbers {
        frames,
        page_bytes,
        pages,
        read_cost: read_cost as u64,
        write_cost: write_cost as u64,
    };
    let mut recorder = Recorder {
        numbers,
        start,
        records,
    };
    let mut last = 0;
    for request in requests {
        (recorder, last) = serve(recorder, *request, notes, buffer);
    }
    last
}

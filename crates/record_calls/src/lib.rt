// Calls as data, served and recorded at once.
#![tactic(auto)]

use calls::{Call, Left, Request, STRETCH, Said};
use pool::Pool;
use record_casa::Noted;
use recorder::Recorder;

// The pool, its recorder, and a digest of what the recorded calls showed.
#[derive(Clone, Copy)]
pub struct Run {
    pub pool: Pool,
    pub recorder: Recorder,
    pub shown: u32,
}

impl Run {
    // Goes on with what a call left, where `served` makes the words of one that was served. A call without a record is not shown.
    fn take<T, F: FnOnce(T) -> Said>(&mut self, noted: Noted<T>, served: F)
        requires { F.IsAlwaysCallable served }
    {
        let Noted { done, recorded } = noted;
        let left = Left::by(done, served);
        if recorded.answer.is_ok() {
            self.shown = left.absorbed(self.shown);
        }
        self.pool = left.pool;
        self.recorder = recorded.recorder;
    }

    // Makes a call. A total has no record.
    pub fn make(
        &mut self,
        call: Call,
        frames: &mut [u8],
        store: &mut [u8],
        out: &mut [u8],
        buffer: &mut [u8],
    ) {
        let pool = self.pool;
        let recorder = self.recorder;
        let page = call.page;
        match call.request {
            Request::Read => self.take(
                record_casa::read_page(pool, page, frames, store, out, recorder, buffer),
                Said::Found,
            ),
            Request::Write => {
                let stretch = calls::stretch_bytes(call.value);
                let bytes = &stretch[..call.length.min(STRETCH)];
                self.take(
                    record_casa::write_page(
                        pool, page, call.start, bytes, frames, store, recorder, buffer,
                    ),
                    Said::Found,
                );
            }
            Request::Flush => self.take(
                record_casa::flush(pool, frames, store, recorder, buffer),
                Said::Wrote,
            ),
            Request::Drop => self.take(
                record_casa::drop_page(pool, page, frames, store, recorder, buffer),
                |()| Said::Dropped,
            ),
            Request::Total => {}
        }
    }
}

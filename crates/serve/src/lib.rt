// What serving a call asks, whatever the policy: whether it is refused, and why; and the bytes' part of a request.
#![tactic(auto)]

ghost use Rattle.std.specs.Prelude.{◌≡◌, true, ◌≤◌, length};
ghost use Rattle.order.specs.Places.{places};
ghost use Rattle.pages.specs.Pages.{InPages};
ghost use Rattle.model.specs.Numbers.{numbers_held};
ghost use Rattle.model.specs.Bytes.{memory, brought};
ghost use Rattle.model.specs.Refusals.{request_verdict, stretch_fits};
ghost use Rattle.serve.specs.Serve.{AnswerIn};

use model::{Access, Answer, MOST_SERVED, Numbers, Refusal, Victim};

// ---- refusals

// Of a read or a write, and by its rows of a flush and a drop: whether the pool is sound, whether the kept numbers fit, the pool's numbers and served calls,
// the `m` bytes of frame memory and `n` of store that are lent, the page, and whether the caller's own bytes fit. The costs refuse nothing.
// `sound`, `timed` and `fit` are what the caller's own tests answered; each has its row in the list of refusals.
#[tactic(auto, unfolding(model::specs::Refusals::request_verdict))]
pub fn request_verdict(
    sound: bool,
    timed: bool,
    numbers: Numbers,
    served: u64,
    m: usize,
    n: usize,
    page: usize,
    fit: bool,
) -> Result<(), Refusal>
    requires { sound ≡ true → (numbers.frames ≤ places) × (numbers.pages ≤ 65536) × (numbers.page_bytes ≤ 4096) }
    ensures { result ≡ request_verdict sound timed (numbers_held numbers) served m n page fit }
{
    if !sound {
        return Err(Refusal::BrokenPool);
    }
    if !timed {
        return Err(Refusal::BrokenWindows);
    }
    if !pages::sizes_match(m, n, numbers.frames, numbers.pages, numbers.page_bytes) {
        return Err(Refusal::WrongMemory);
    }
    if numbers.pages <= page {
        return Err(Refusal::NoSuchPage);
    }
    if !fit {
        return Err(Refusal::WrongBytes);
    }
    if MOST_SERVED <= served {
        return Err(Refusal::Spent);
    }
    Ok(())
}

// Whether a stretch has bytes and ends within the page: start + length as whole numbers, without a sum that could wrap.
pub fn stretch_fits(page_bytes: usize, start: usize, n: usize) -> bool
    ensures { result ≡ stretch_fits page_bytes start n }
{
    if n == 0 {
        return false;
    }
    if page_bytes < start {
        return false;
    }
    n <= page_bytes - start
}

// ---- bytes

// The bytes' part of a request: a fault fetches the page, after the write-back of a dirty victim.
pub fn bring(
    frames: &mut [u8],
    store: &mut [u8],
    size: usize,
    frame: usize,
    page: usize,
    answer: Answer,
)
    requires in_pages { InPages size frame (length frames.old) }
    requires in_pages_2 { InPages size page (length store.old) }
    requires answer_in { AnswerIn size answer (length store.old) }
    ensures { memory frames.new store.new ≡ brought size frame page answer (memory frames.old store.old) }
{
    match answer {
        Ok(Access::Fault(Some(Victim::Dirty(old)))) => {
            dirty::replace(frames, frame, store, old, page, size);
        }
        Ok(Access::Fault(_)) => pages::fetch(frames, frame, store, page, size),
        _ => {}
    }
}

// The four hits: the page is in C or in D, and is read or written.
ghost use Rattle.std.specs.Prelude.{◌≡◌, ℕ, ◌<◌, List};
ghost use Rattle.order.specs.Places.{InPlaces};
ghost use Rattle.model.specs.State.{with_lists, with_target};
ghost use Rattle.model.specs.Request.{hit, read_clean, write_clean, write_dirty, read_dirty};
ghost use Rattle.pool.specs.Pool.{state_of, Sound};
ghost use Rattle.model.specs.Target.{costs};
ghost use Rattle.step.specs.Step.{step_of};

use crate::Step;
use costs::Costs;
use model::Access;
use order::FrameList;
use pool::Pool;

// The pool after a hit on a frame, with C, D and the target as they are then. The call's number, the served count after it, is the frame's.
fn hit(pool: Pool, clean: FrameList, dirty: FrameList, target: u64, frame: u8) -> Step
    requires sound { Sound pool }
    requires frame_lt_frames { frame < pool.numbers.frames }
    ensures { (C D : List ℕ) (τ f : ℕ) → InPlaces clean.places clean.len C → InPlaces dirty.places dirty.len D → target ≡ τ → frame ≡ f
        → result ≡ step_of (hit f (with_target τ (with_lists (state_of pool).lists.E C D (state_of pool)))) }
{
    let f = frame as usize;
    let mut next = pool;
    next.lists.clean = clean;
    next.lists.dirty = dirty;
    next.target = target;
    next.served += 1;
    next.reference[f] = next.served as u32;
    Step {
        pool: next,
        frame: f,
        answer: Ok(Access::Hit),
    }
}

// A read hit in C: the frame goes to the front of C, and the target up. The target first: a list that is changed before the division is copied once more.
pub fn read_clean(pool: Pool, drive: Costs, at: usize) -> Step
    requires sound { Sound pool }
    requires inside { at < pool.lists.clean.len }
    ensures { result ≡ step_of (read_clean (costs drive.read drive.write) (state_of pool) at) }
{
    let target = reckon::raise(
        pool.numbers.frames as u64,
        pool.target,
        drive,
        pool.lists.clean.len as u64,
        pool.lists.dirty.len as u64,
    );
    let mut clean = pool.lists.clean;
    let frame = clean.places[at];
    clean.move_to_front(at);
    hit(pool, clean, pool.lists.dirty, target, frame)
}

// A write hit in C: the frame goes to the front of D, and the target stays.
pub fn write_clean(pool: Pool, at: usize) -> Step
    requires sound { Sound pool }
    requires inside { at < pool.lists.clean.len }
    ensures { result ≡ step_of (write_clean (state_of pool) at) }
{
    let mut clean = pool.lists.clean;
    let mut dirty = pool.lists.dirty;
    let frame = clean.take_out(at);
    dirty.put_front(frame);
    hit(pool, clean, dirty, pool.target, frame)
}

// The frame goes to the front of D, and the target becomes this one: a read leaves it as it was.
pub fn in_dirty(pool: Pool, at: usize, target: u64) -> Step
    requires sound { Sound pool }
    requires inside { at < pool.lists.dirty.len }
    ensures { result ≡ step_of (read_dirty (with_target target (state_of pool)) at) }
{
    let mut dirty = pool.lists.dirty;
    let frame = dirty.places[at];
    dirty.move_to_front(at);
    hit(pool, pool.lists.clean, dirty, target, frame)
}

// A write hit in D: the frame goes to the front of D, and the target down.
pub fn write_dirty(pool: Pool, drive: Costs, at: usize) -> Step
    requires sound { Sound pool }
    requires inside { at < pool.lists.dirty.len }
    ensures { result ≡ step_of (write_dirty (costs drive.read drive.write) (state_of pool) at) }
{
    let target = reckon::lower(
        pool.numbers.frames as u64,
        pool.target,
        drive,
        pool.lists.clean.len as u64,
        pool.lists.dirty.len as u64,
    );
    in_dirty(pool, at, target)
}

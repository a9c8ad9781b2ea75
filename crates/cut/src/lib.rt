// One drop on a sound pool: the frame that has the page, if there is one, leaves C or D and becomes the last of E. No byte of a page is touched here.
#![tactic(auto)]

ghost use Rattle.std.specs.Prelude.{◌≡◌, ℕ, ◌<◌, List, Some, None};
ghost use Rattle.order.specs.Places.{places, InPlaces};
ghost use Rattle.model.specs.State.{with_lists, counted};
ghost use Rattle.model.specs.Request.{vacated, dropped_at, dropped};
ghost use Rattle.pool.specs.Pool.{pool_of, state_of, Sound};

use model::Place;
use order::FrameList;
use pool::{Pool, Writes};

// The pool is changed where it stands: handed over and back, it would be copied each time.

// The pool after a drop that leaves a frame empty, with C and D as they are without it. No frame gets the call's number.
fn vacate(pool: &mut Pool, clean: FrameList, dirty: FrameList, frame: u8)
    requires sound { Sound pool.old }
    requires room { (frame < pool.old.numbers.frames) × (pool.old.lists.empty.len < places) }
    ensures { (C D : List ℕ) (f : ℕ) → InPlaces clean.places clean.len C → InPlaces dirty.places dirty.len D → frame ≡ f
        → pool.new ≡ pool_of (counted 0 1 (vacated f (with_lists (state_of pool.old).lists.E C D (state_of pool.old)))) }
{
    let f = frame as usize;
    pool.lists.empty.push(frame);
    pool.lists.clean = clean;
    pool.lists.dirty = dirty;
    pool.page[f] = 0;
    pool.reference[f] = 0;
    pool.served += 1;
    pool.writes.0 += 1;
}

// The page is in C.
fn clean(pool: &mut Pool, at: usize)
    requires sound { Sound pool.old }
    requires inside { at < pool.old.lists.clean.len }
    ensures { pool.new ≡ pool_of (dropped_at (state_of pool.old) (Some (Place.InClean at))) }
{
    let mut clean = pool.lists.clean;
    let frame = clean.take_out(at);
    let dirty = pool.lists.dirty;
    vacate(pool, clean, dirty, frame);
}

// The page is in D: what was changed is lost with it.
fn dirty(pool: &mut Pool, at: usize)
    requires sound { Sound pool.old }
    requires inside { at < pool.old.lists.dirty.len }
    ensures { pool.new ≡ pool_of (dropped_at (state_of pool.old) (Some (Place.InDirty at))) }
{
    let mut dirty = pool.lists.dirty;
    let frame = dirty.take_out(at);
    let clean = pool.lists.clean;
    vacate(pool, clean, dirty, frame);
}

// No frame has the page: the write of it counts all the same.
fn absent(pool: &mut Pool)
    requires { Sound pool.old }
    ensures { pool.new ≡ pool_of (dropped_at (state_of pool.old) None) }
{
    pool.served += 1;
    pool.writes = Writes(pool.writes.0 + 1);
}

// A drop of a page on a sound pool: a frame that has it becomes the last of E, and is no longer referenced.
pub fn drop_lists(mut pool: Pool, page: usize) -> Pool
    requires sound { Sound pool }
    requires page_lt_pages { page < pool.numbers.pages }
    ensures { result ≡ pool_of (dropped (state_of pool) page) }
{
    match step::locate(&pool, page as u16) {
        Some(Place::InClean(i)) => clean(&mut pool, i),
        Some(Place::InDirty(i)) => dirty(&mut pool, i),
        None => absent(&mut pool),
    }
    pool
}

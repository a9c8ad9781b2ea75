// One request and one flush on a sound pool: where the page is, which frame is taken, and the pool afterwards. No byte of a page is touched here.
#![tactic(auto)]

ghost use Rattle.std.specs.Prelude.{◌≡◌, ◌<◌};
ghost use Rattle.order.specs.Places.{listed, Listed};
ghost use Rattle.order.specs.Find.{find_from};
ghost use Rattle.model.specs.Request.{place_by, locate, request, flushed};
ghost use Rattle.pool.specs.Pool.{pool_of, state_of, Sound};
ghost use Rattle.model.specs.Target.{costs};
ghost use Rattle.step.specs.Step.{step_of};

mod fault;
mod hit;

use costs::Costs;
use model::{Answer, Op, Place, Victim};
use order::{FrameList, FrameLists, PLACES};
use pool::Pool;

// What a request leaves: the pool, the frame that has the page, and the answer.
#[derive(Clone, Copy)]
pub struct Step {
    pub pool: Pool,
    pub frame: usize,
    pub answer: Answer,
}

// A pool without the frame that a fault took, that frame, and the page that has to leave it.
#[derive(Clone, Copy)]
pub struct Freed {
    pub pool: Pool,
    pub frame: u8,
    pub victim: Option<Victim>,
}

// ---- where a page is

// A page that no frame has, empty or not, is absent: one look through the pages, in vector code, is cheaper than the way through the lists to their ends.
fn place_of(lists: &FrameLists, page: &[u16; PLACES], wanted: u16) -> Option<Place>
    requires clean { Listed lists.now.clean }
    requires dirty { Listed lists.now.dirty }
    ensures { result ≡ place_by (find_from 0 page.now wanted (listed lists.now.clean)) (find_from 0 page.now wanted (listed lists.now.dirty)) }
{
    if !order::stands_before(page, PLACES, wanted) {
        return None;
    }
    if let Some(i) = lists.clean.find(page, wanted) {
        return Some(Place::InClean(i));
    }
    let i = lists.dirty.find(page, wanted)?;
    Some(Place::InDirty(i))
}

// Where a sound pool has a page.
pub fn locate(pool: &Pool, wanted: u16) -> Option<Place>
    requires { Sound pool.now }
    ensures { result ≡ locate (state_of pool.now) wanted }
{
    place_of(&pool.lists, &pool.page, wanted)
}

// ---- the whole

// A read on a sound pool, with the costs in force. Reads and writes have functions of their own down to `take_frame`: a large function with two callers is not
// compiled into them, and at each call a pool would be copied to it and back.
pub fn read(pool: Pool, drive: Costs, page: usize) -> Step
    requires sound { Sound pool }
    requires page_lt_pages { page < pool.numbers.pages }
    ensures { result ≡ step_of (request Op.Read (costs drive.read drive.write) (state_of pool) page) }
{
    let wanted = page as u16;
    match locate(&pool, wanted) {
        Some(Place::InClean(i)) => hit::read_clean(pool, drive, i),
        Some(Place::InDirty(i)) => hit::in_dirty(pool, i, pool.target),
        None => fault::read(pool, wanted),
    }
}

// A write on a sound pool, with the costs in force.
pub fn write(pool: Pool, drive: Costs, page: usize) -> Step
    requires sound { Sound pool }
    requires page_lt_pages { page < pool.numbers.pages }
    ensures { result ≡ step_of (request Op.Write (costs drive.read drive.write) (state_of pool) page) }
{
    let wanted = page as u16;
    match locate(&pool, wanted) {
        Some(Place::InClean(i)) => hit::write_clean(pool, i),
        Some(Place::InDirty(i)) => hit::write_dirty(pool, drive, i),
        None => fault::write(pool, wanted),
    }
}

// A flush on a sound pool: C becomes the merge of both lists, the latest reference first, and no number changes.
pub fn flush_lists(pool: Pool) -> Pool
    requires { Sound pool }
    ensures { result ≡ pool_of (flushed (state_of pool)) }
{
    let lists = &pool.lists;
    let all = merging::merge(lists.dirty.frames(), lists.clean.frames(), &pool.reference);
    let mut next = pool;
    next.lists.clean = all;
    next.lists.dirty = FrameList::EMPTY;
    next.served += 1;
    next.writes.0 += pool.lists.dirty.len as u64;
    next
}

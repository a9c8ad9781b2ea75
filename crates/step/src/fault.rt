// A fault: a frame is chosen and leaves its list, is filled with the page, and comes back at the front of C or D.
ghost use Rattle.std.specs.Prelude.{◌≡◌, ◌<◌, get_or};
ghost use Rattle.order.specs.Places.{places};
ghost use Rattle.model.specs.Request.{chosen, ChoiceIn, taken, writes_of, faulted};
ghost use Rattle.pool.specs.Pool.{state_of, Sound};
ghost use Rattle.step.specs.Step.{step_of, freed_of, filled};

use crate::{Freed, Step};
use model::{Access, Choice, Op, Victim};
use order::PLACES;
use pool::Pool;

// The page in a frame.
fn page_in(page: &[u16; PLACES], frame: u8) -> usize
    requires { frame < places }
    ensures { result ≡ get_or page.now frame 0 }
{
    page[frame as usize] as usize
}

// The chosen frame leaves its list. What is freed is changed where it stands, here and in `take_frame`: handed over and back, a pool would be copied each time.
fn free(freed: &mut Freed, choice: Choice)
    requires sound { Sound freed.old.pool }
    requires choice_in { ChoiceIn freed.old.pool.lists.empty.len freed.old.pool.lists.clean.len freed.old.pool.lists.dirty.len choice }
    ensures { freed.new ≡ freed_of (taken (state_of freed.old.pool) choice) }
{
    match choice {
        Choice::OfEmpty(i) => {
            freed.frame = freed.pool.lists.empty.take_out(i);
            freed.victim = None;
        }
        Choice::OfClean(i) => {
            freed.frame = freed.pool.lists.clean.take_out(i);
            freed.victim = Some(Victim::Clean(page_in(&freed.pool.page, freed.frame)));
        }
        Choice::OfDirty(i) => {
            freed.frame = freed.pool.lists.dirty.take_out(i);
            freed.victim = Some(Victim::Dirty(page_in(&freed.pool.page, freed.frame)));
        }
    }
}

// How many physical writes a victim asks.
fn writes_of(victim: Option<Victim>) -> u64
    ensures { result ≡ writes_of victim }
{
    match victim {
        Some(Victim::Dirty(_)) => 1,
        _ => 0,
    }
}

// The frame that the policy chooses, out of its list and filled with the page, with the call's number. C and D have room for it. It is kept a function of its
// own: compiled into a call, it has the pool copied in more parts at each hit.
#[inline(never)]
fn take_frame(freed: &mut Freed, page: u16)
    requires { Sound freed.old.pool }
    ensures { (freed.new ≡ freed_of (filled page (taken (state_of freed.old.pool) (chosen (state_of freed.old.pool))))) × (freed.new.frame < places)
        × (freed.new.pool.lists.clean.len < places) × (freed.new.pool.lists.dirty.len < places) }
{
    let lists = &freed.pool.lists;
    let choice = reckon::choose(
        lists.empty.len,
        lists.clean.len,
        lists.dirty.len,
        freed.pool.target,
    );
    free(freed, choice);
    let writes = writes_of(freed.victim);
    let f = freed.frame as usize;
    freed.pool.served += 1;
    freed.pool.page[f] = page;
    freed.pool.reference[f] = freed.pool.served as u32;
    freed.pool.reads.0 += 1;
    freed.pool.writes.0 += writes;
}

// The frame goes to the front of C.
pub fn read(pool: Pool, page: u16) -> Step
    requires { Sound pool }
    ensures { result ≡ step_of (faulted Op.Read (state_of pool) page) }
{
    // No frame yet, and so no victim.
    let mut taken = Freed {
        pool,
        frame: 0,
        victim: None,
    };
    take_frame(&mut taken, page);
    taken.pool.lists.clean.put_front(taken.frame);
    Step {
        pool: taken.pool,
        frame: taken.frame as usize,
        answer: Ok(Access::Fault(taken.victim)),
    }
}

// The frame goes to the front of D.
pub fn write(pool: Pool, page: u16) -> Step
    requires { Sound pool }
    ensures { result ≡ step_of (faulted Op.Write (state_of pool) page) }
{
    // No frame yet, and so no victim.
    let mut taken = Freed {
        pool,
        frame: 0,
        victim: None,
    };
    take_frame(&mut taken, page);
    taken.pool.lists.dirty.put_front(taken.frame);
    Step {
        pool: taken.pool,
        frame: taken.frame as usize,
        answer: Ok(Access::Fault(taken.victim)),
    }
}

// The pool, the test whether it is sound, and a fresh one. The test takes any values at all, and reads each list, the pages and the reference numbers a fixed
// number of times.
#![tactic(auto)]

ghost use Rattle.std.specs.Prelude.{◌≡◌, ◌≤◌};
ghost use Rattle.order.specs.Places.{places};
ghost use Rattle.checks.specs.Tests.{Decides};
ghost use Rattle.model.specs.Numbers.{numbers_held};
ghost use Rattle.model.specs.State.{opened};
ghost use Rattle.pool.specs.Pool.{pool_of};
ghost use Rattle.pool.specs.Test.{sound_test, CountsIn, LengthsIn, PlacesIn, TailsRight};

use checks::{page_test, tails};
use model::{MOST_SERVED, Numbers};
use order::{FrameList, FrameLists, PLACES};

// Physical reads and physical writes are counted apart, and meet only in the total cost.
#[derive(Clone, Copy)]
pub struct Reads(pub u64);

#[derive(Clone, Copy)]
pub struct Writes(pub u64);

#[derive(Clone, Copy)]
pub struct Pool {
    // b, P, N, r and w.
    pub numbers: Numbers,
    // E, C and D, and 0 in each place past a list's length. Every frame stands in exactly one of them.
    pub lists: FrameLists,
    // The page of each frame: below N and in no other frame; 0 of an empty frame, and in the places past the frames.
    pub page: [u16; PLACES],
    // The target in units, 65,536 to a page: at most b × 65,536.
    pub target: u64,
    // The calls served since opening: at most 1,000,000,000.
    pub served: u64,
    // nR, at most the served calls, and nW, at most b times as many.
    pub reads: Reads,
    pub writes: Writes,
    // The reference number of each frame: that of the served call that last read or wrote its page, from 1 to the served calls and in no other frame, and
    // falling down C and down D; 0 of an empty frame, and in the places past the frames.
    pub reference: [u32; PLACES],
}

impl Pool {
    // ---- the parts of the test

    // Whether target and counts are in their limits.
    fn counts_right(&self) -> bool
        requires { self.now.numbers.frames ≤ 64 }
        ensures { Decides result (CountsIn self.now) }
    {
        let frames = self.numbers.frames as u64;
        if frames * 65536 < self.target {
            return false;
        }
        if MOST_SERVED < self.served {
            return false;
        }
        if self.served < self.reads.0 {
            return false;
        }
        self.writes.0 <= frames * self.served
    }

    // Whether the lengths of the lists add up to the number of frames.
    fn lengths_right(&self) -> bool
        ensures { Decides result (LengthsIn self.now) }
    {
        let frames = self.numbers.frames;
        let empty = self.lists.empty.len;
        let clean = self.lists.clean.len;
        if frames < empty {
            return false;
        }
        if frames - empty < clean {
            return false;
        }
        self.lists.dirty.len == frames - empty - clean
    }

    // Whether the places past the ends hold 0.
    fn tails_right(&self) -> bool
        ensures test { Decides result (TailsRight self.now) }
        ensures all_places { PlacesIn self.now }
    {
        let empty = &self.lists.empty;
        let clean = &self.lists.clean;
        let dirty = &self.lists.dirty;
        let frames = self.numbers.frames;
        tails::zeros(&empty.places, empty.len)
            & tails::zeros(&clean.places, clean.len)
            & tails::zeros(&dirty.places, dirty.len)
            & tails::zeros(&self.page, frames)
            & tails::zeros(&self.reference, frames)
    }

    // ---- the whole

    // Whether the pool is sound; any other is broken.
    pub fn is_sound(&self) -> bool
        ensures { result ≡ sound_test self.now }
    {
        if !self.numbers.in_limits() {
            return false;
        }
        if !self.counts_right() {
            return false;
        }
        if !self.lengths_right() {
            return false;
        }
        if !self.tails_right() {
            return false;
        }
        let frames = self.numbers.frames;
        let pages = self.numbers.pages;
        let served = self.served as u32;
        if !recency::standing_right(&self.lists, frames, &self.reference, served) {
            return false;
        }
        if self.lists.empty.len == 0 && walk::full_right(&self.page, frames, pages) {
            return true;
        }
        let empty = &self.lists.empty;
        page_test::pages_right(empty.frames(), &self.page, frames, pages)
    }

    // ---- a fresh pool

    // A pool of the given numbers whose every frame is empty; with no frames, and every number 0, the pool of all zeros.
    pub fn fresh(numbers: Numbers) -> Pool
        requires { numbers.frames ≤ places }
        ensures { result ≡ pool_of (opened (numbers_held numbers)) }
    {
        let lists = FrameLists {
            empty: FrameList::all(numbers.frames),
            clean: FrameList::EMPTY,
            dirty: FrameList::EMPTY,
        };
        Pool {
            numbers,
            lists,
            page: [0; PLACES],
            target: 0,
            served: 0,
            reads: Reads(0),
            writes: Writes(0),
            reference: [0; PLACES],
        }
    }
}

// Lists of frame numbers by last use, the most recent first: up to 64 of them in fixed places, with a length beside them.
// A list is changed where it stands, in the places that have to change and no others; what that means on plain lists is said by the laws on `InPlaces`.
#![tactic(auto)]

ghost use Rattle.std.specs.Prelude.{◌≡◌, ◌∷◌, ℕ, ◌+◌, ◌-◌, ◌≤◌, ◌<◌, get_or, set};
ghost use Rattle.order.specs.Lists.{remove_at, insert_at, move_to_front, down_from};
ghost use Rattle.order.specs.Places.{places, listed, list_of, Listed};
ghost use Rattle.order.specs.Find.{find_from, has_before};

// How many frames a list can hold.
pub const PLACES: usize = 64;

// A list of frames, in the first `len` places. Where a pool is sound the others hold 0; a pool that is handed in may hold anything.
#[derive(Clone, Copy)]
pub struct FrameList {
    pub places: [u8; PLACES],
    pub len: usize,
}

impl FrameList {
    // No frame.
    pub const EMPTY: FrameList = FrameList {
        places: [0; PLACES],
        len: 0,
    };

    // The frames n - 1, .., 1, 0.
    pub fn all(n: usize) -> FrameList
        requires { n ≤ places }
        ensures { result ≡ list_of (down_from n) }
    {
        let mut list = FrameList::EMPTY;
        for k in 0..n {
            list.push((n - 1 - k) as u8);
        }
        list
    }

    // The frames in their order.
    pub fn frames(&self) -> &[u8]
        requires { self.now.len ≤ places }
        ensures { result.now ≡ listed self.now }
    {
        &self.places[..self.len]
    }

    // The place of the first frame that holds the page `wanted`; `page` has the page of each frame.
    pub fn find(&self, page: &[u16; PLACES], wanted: u16) -> Option<usize>
        requires { Listed self.now }
        ensures { result ≡ find_from 0 page.now wanted (listed self.now) }
    {
        self.frames()
            .iter()
            .position(|&f| page[f as usize] == wanted)
    }

    // A frame goes to the front, and all others move up by one place.
    pub fn put_front(&mut self, frame: u8)
        requires { self.old.len < places }
        ensures { self.new ≡ record { places = frame ∷ remove_at self.old.len self.old.places; len = self.old.len + 1 } }
    {
        self.places[..=self.len].rotate_right(1);
        self.places[0] = frame;
        self.len += 1;
    }

    // What stands at `at` goes to the front, and what stands before it moves up by one place.
    pub fn move_to_front(&mut self, at: usize)
        requires { at < places }
        ensures { self.new ≡ record { places = move_to_front at self.old.places; len = self.old.len } }
    {
        self.places[..=at].rotate_right(1);
    }

    // What stands at `at` goes out, what stands after it moves down by one place, and the last place is free.
    pub fn take_out(&mut self, at: usize) -> u8
        requires { (at < self.old.len) × (self.old.len ≤ places) }
        ensures frame { result ≡ get_or self.old.places at 0 }
        ensures rest { self.new ≡ record { places = insert_at (self.old.len - 1) 0 (remove_at at self.old.places); len = self.old.len - 1 } }
    {
        let frame = self.places[at];
        self.places[at..self.len].rotate_left(1);
        self.len -= 1;
        self.places[self.len] = 0;
        frame
    }

    // A frame goes behind the last.
    pub fn push(&mut self, frame: u8)
        requires { self.old.len < places }
        ensures { self.new ≡ record { places = set self.old.places self.old.len frame; len = self.old.len + 1 } }
    {
        self.places[self.len] = frame;
        self.len += 1;
    }
}

// The lists of a pool: E, the empty frames, of which the last is taken first; C and D, the clean and the dirty ones, the most recently used first.
#[derive(Clone, Copy)]
pub struct FrameLists {
    pub empty: FrameList,
    pub clean: FrameList,
    pub dirty: FrameList,
}

// Whether the page q stands before place `end`. It goes to the end, whatever it meets: such a loop is compiled to vector code.
pub fn stands_before(page: &[u16; PLACES], end: usize, q: u16) -> bool
    requires { end ≤ places }
    ensures { result ≡ has_before page.now end q }
{
    let mut found = false;
    for &p in &page[..end] {
        found |= p == q;
    }
    found
}

// Where no frame is empty, one walk along their pages tests that none stands twice: each page leaves a mark. Up to 1,024 pages each has a mark of its own;
// of more, two may share one, and a page that meets a mark has to stand alone. A yes is sure; a no says nothing, and the test of pages decides.
#![tactic(auto)]

ghost use Rattle.std.specs.Prelude.{◌≡◌, true, false, [], ℕ, ◌≤◌, ◌<◌, length, get_or, take, replicate};
ghost use Rattle.order.specs.Places.{places};
ghost use Rattle.checks.specs.Tests.{PagesRight};
ghost use Rattle.walk.specs.Walk.{fresh, Apart};

use checks::page_test;
use order::PLACES;

// Whether none of the first n pages, each below 1,024, meets a mark. Marks are numbers, since `|` of two numbers is an instruction less than that of two tests.
fn walk_near(page: &[u16; PLACES], n: usize) -> bool
    requires { (n ≤ places) × ((f : ℕ) → f < n → get_or page.now f 0 < 1024) }
    ensures { result ≡ true → fresh (take n page.now) (replicate 1024 0) ≡ true }
{
    let mut marks = [0u8; 1024];
    let mut met = 0;
    for &q in &page[..n] {
        let k = usize::from(q);
        met |= marks[k];
        marks[k] = 1;
    }
    met == 0
}

// The same for more than 1,024 pages: a mark at the remainder by 2,048 may be another page's, so a page that meets one has to stand alone.
fn walk_far(page: &[u16; PLACES], n: usize) -> bool
    requires { n ≤ places }
    ensures { result ≡ true → Apart page.now (take n page.now) (replicate 2048 false) }
{
    let mut marks = [false; 2048];
    for &q in &page[..n] {
        let k = usize::from(q % 2048);
        if marks[k] && page_test::count_in(page, PLACES, q) != 1 {
            return false;
        }
        marks[k] = true;
    }
    true
}

// Whether the walk shows that the pages are right where no frame is empty. Behind the frames the pages are 0, so the first test may look at all places: a loop
// of fixed length is compiled without a rest.
pub fn full_right(page: &[u16; PLACES], frames: usize, pages: usize) -> bool
    requires { (frames ≤ places) × (1 ≤ pages) × (pages ≤ 65536) × (length page.now ≡ places) }
    ensures { result ≡ true → PagesRight frames pages [] page.now }
{
    let top = (pages - 1) as u16;
    if !page_test::all_at_most(page, PLACES, top) {
        return false;
    }
    if 1024 < pages {
        walk_far(page, frames)
    } else {
        walk_near(page, frames)
    }
}

// The pages: 0 in an empty frame; in any other below the number of pages, and in no other such frame.
ghost use Rattle.std.specs.Prelude.{◌≡◌, true, ◌≤◌, ◌<◌, length, take, drop, All};
ghost use Rattle.order.specs.Places.{places};
ghost use Rattle.order.specs.Count.{count};
ghost use Rattle.checks.specs.Tests.{Decides, every, is_zero, is_at_most, nonzero_apart, blank_all, EmptyRight, PagesRight};

use order::PLACES;

// Whether the first `frames` pages are at most `top`.
pub fn all_at_most(page: &[u16; PLACES], frames: usize, top: u16) -> bool
    requires { frames ≤ places }
    ensures { result ≡ every (is_at_most top) (take frames page.now) }
{
    let mut ok = true;
    for &q in &page[..frames] {
        ok &= q <= top;
    }
    ok
}

// How many of the first `frames` pages are q. It counts in the width of a page, which is what vector code can do.
pub fn count_in(page: &[u16; PLACES], frames: usize, q: u16) -> usize
    requires { frames ≤ places }
    ensures { result ≡ count q (take frames page.now) }
{
    let mut n = 0u16;
    for &p in &page[..frames] {
        if p == q {
            n += 1;
        }
    }
    usize::from(n)
}

// Whether the frames of a list, each below 64, have page 0.
fn all_blank(list: &[u8], page: &[u16; PLACES]) -> bool
    requires { All (λ f. f < places) list.now }
    ensures { result ≡ blank_all page.now list.now }
{
    list.iter().all(|&f| page[usize::from(f)] == 0)
}

// Whether no page but 0 stands twice among the first `frames`. A mark at a page's remainder by 2,048 says that an earlier page may be the same,
// and only then the earlier ones are looked through. The mark is tested apart: in one `&&` with the rest it would not come first in the machine's code.
fn nonzero_apart(page: &[u16; PLACES], frames: usize) -> bool
    requires { frames ≤ places }
    ensures { result ≡ nonzero_apart page.now frames }
{
    let mut marks = [false; 2048];
    let mut ok = true;
    for (i, &q) in page[..frames].iter().enumerate() {
        let k = usize::from(q % 2048);
        if !marks[k] {
            marks[k] = true;
        } else if q != 0 && order::stands_before(page, i, q) {
            ok = false;
        }
    }
    ok
}

// Whether the pages are right: 0 in an empty frame; in any other below `pages`, and in no other such frame. Where every empty frame has page 0, one more frame
// may have it, so it is enough to count the zeros and to look for other pages that stand twice. Behind the frames the pages are 0, so the first test may look
// at all places: a loop of fixed length is compiled without a rest.
pub fn pages_right(empty: &[u8], page: &[u16; PLACES], frames: usize, pages: usize) -> bool
    requires fit { (frames ≤ places) × (1 ≤ pages) × (pages ≤ 65536) × (length empty.now ≤ frames) }
    requires empty_right { EmptyRight frames empty.now }
    requires tail_zero { every is_zero (drop frames page.now) ≡ true }
    ensures { Decides result (PagesRight frames pages empty.now page.now) }
{
    let top = (pages - 1) as u16;
    all_at_most(page, PLACES, top)
        && all_blank(empty, page)
        && count_in(page, frames, 0) <= empty.len() + 1
        && nonzero_apart(page, frames)
}

// Reference numbers: down C and down D they fall, from at most the served calls to at least 1, and none stands twice; an empty frame has 0. One merge of both
// lists finds every fault, also a frame that stands twice, which has its number twice.
#![tactic(auto)]

ghost use Rattle.std.specs.Prelude.{◌≡◌, true, ◌+◌, ◌≤◌, ◌<◌, drop};
ghost use Rattle.std.specs.List.{All};
ghost use Rattle.order.specs.Places.{places, listed};
ghost use Rattle.order.specs.Merge.{merged};
ghost use Rattle.checks.specs.Tests.{Decides, every, is_zero, blank_all};
ghost use Rattle.recency.specs.Recency.{falls_from, StandingRight};

use checks::frame_test;
use order::{FrameLists, PLACES};

// Whether the numbers of the frames of a list fall from below `above`, and end above 0. It goes to the end, whatever it meets: such a loop is unrolled.
fn falls(frames: &[u8], reference: &[u32; PLACES], above: u32) -> bool
    requires { All (λ f. f < places) frames.now }
    ensures { result ≡ falls_from reference.now above frames.now }
{
    let mut ok = true;
    let mut last = above;
    for &f in frames {
        let number = reference[f as usize];
        if last <= number {
            ok = false;
        }
        last = number;
    }
    last != 0 && ok
}

// The same of the merge of C and D. Once one of them is through, what is left of the other is looked through; from inside the loop, since a test behind it,
// which of them that is, is compiled into every turn. A `loop`: each turn goes on in one of two lists, which no iterator does.
fn merge_falls(c: &[u8], d: &[u8], reference: &[u32; PLACES], above: u32) -> bool
    requires c_in_places { All (λ f. f < places) c.now }
    requires d_in_places { All (λ f. f < places) d.now }
    ensures { result ≡ falls_from reference.now above (merged reference.now c.now d.now) }
{
    let (mut c, mut d) = (c, d);
    let mut last = above;
    loop {
        match (c, d) {
            ([], _) => return falls(d, reference, last),
            (_, []) => return falls(c, reference, last),
            ([f, later_c @ ..], [g, later_d @ ..]) => {
                let in_c = reference[*f as usize];
                let in_d = reference[*g as usize];
                if in_d < in_c {
                    if last <= in_c {
                        return false;
                    }
                    last = in_c;
                    c = later_c;
                } else {
                    if last <= in_d {
                        return false;
                    }
                    last = in_d;
                    d = later_d;
                }
            }
        }
    }
}

// Whether the frames of a list have number 0.
fn none_numbered(frames: &[u8], reference: &[u32; PLACES]) -> bool
    requires { All (λ f. f < places) frames.now }
    ensures { result ≡ blank_all reference.now frames.now }
{
    frames.iter().all(|&f| reference[f as usize] == 0)
}

// Whether every frame stands in exactly one list and all numbers are right. Where no frame is empty, numbers that fall show that none stands twice, and as
// many as there are frames are all of them; only else frames are marked. The places behind the lists are 0, so that the test of C and D may look at all places.
pub fn standing_right(
    lists: &FrameLists,
    frames: usize,
    reference: &[u32; PLACES],
    served: u32,
) -> bool
    requires fit { (1 ≤ frames) × (frames ≤ places) × (served ≤ 1000000000)
        × (lists.now.empty.len + (lists.now.clean.len + lists.now.dirty.len) ≡ frames) }
    requires tails_zero { (every is_zero (drop lists.now.clean.len lists.now.clean.places) ≡ true)
        × (every is_zero (drop lists.now.dirty.len lists.now.dirty.places) ≡ true) }
    ensures { Decides result (StandingRight frames served (listed lists.now.empty) (listed lists.now.clean) (listed lists.now.dirty) reference.now) }
{
    let (clean, dirty) = (lists.clean.frames(), lists.dirty.frames());
    if lists.empty.len == 0 {
        let last = (frames - 1) as u8;
        frame_test::both_low(&lists.clean.places, &lists.dirty.places, last)
            && merge_falls(clean, dirty, reference, served + 1)
    } else {
        frame_test::frames_right(lists, frames)
            && none_numbered(lists.empty.frames(), reference)
            && merge_falls(clean, dirty, reference, served + 1)
    }
}

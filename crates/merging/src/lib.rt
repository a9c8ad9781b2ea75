// Two lists of frames by falling reference numbers become one: what a flush makes of D and C.
#![tactic(auto)]

ghost use Rattle.std.specs.Prelude.{◌≡◌, ◌+◌, ◌≤◌, ◌<◌, length};
ghost use Rattle.std.specs.List.{All};
ghost use Rattle.order.specs.Places.{places, list_of};
ghost use Rattle.order.specs.Merge.{merged, takes_first};

use order::{FrameList, PLACES};

// Whether a merge takes the next frame from the first list and not from the second: the later one goes first.
fn takes_first(first: &[u8], second: &[u8], reference: &[u32; PLACES]) -> bool
    requires first_in_places { All (λ f. f < places) first.now }
    requires second_in_places { All (λ f. f < places) second.now }
    ensures { result ≡ takes_first reference.now first.now second.now }
{
    match (first, second) {
        ([], _) => false,
        (_, []) => true,
        ([f, ..], [g, ..]) => reference[*g as usize] < reference[*f as usize],
    }
}

// The frames of both lists, the latest first; `reference` has the number of each frame.
pub fn merge(first: &[u8], second: &[u8], reference: &[u32; PLACES]) -> FrameList
    requires fits { length first.now + length second.now ≤ places }
    requires first_in_places { All (λ f. f < places) first.now }
    requires second_in_places { All (λ f. f < places) second.now }
    ensures { result ≡ list_of (merged reference.now first.now second.now) }
{
    let n = first.len() + second.len();
    let (mut first, mut second) = (first, second);
    let mut list = FrameList::EMPTY;
    for _ in 0..n {
        if takes_first(first, second, reference) {
            list.push(first[0]);
            first = &first[1..];
        } else {
            list.push(second[0]);
            second = &second[1..];
        }
    }
    list
}

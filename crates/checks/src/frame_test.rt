// Every frame stands in exactly one list, and nothing else does.
ghost use Rattle.std.specs.Prelude.{◌≡◌, ◌&&◌, ◌+◌, ◌≤◌, length, take};
ghost use Rattle.order.specs.Places.{places, listed};
ghost use Rattle.checks.specs.Tests.{Decides, every, is_at_most, marked, FramesRight};

use order::{FrameList, FrameLists, PLACES};

// Each frame of a list is marked at its own place. It takes the list and reads the places, and not a slice of frames, since only so it is seen that the list is
// as long as it says: behind a reference to all three lists no proof sees how many places each has.
fn mark(marks: &mut [bool; 256], list: &FrameList)
    requires { list.now.len ≤ places }
    ensures marks { marks.new ≡ marked (listed list.now) marks.old }
    ensures length { length (listed list.now) ≡ list.now.len }
{
    for &f in &list.places[..list.len] {
        marks[usize::from(f)] = true;
    }
}

// Whether the first `frames` places are all marked.
fn all_marked(marks: &[bool; 256], frames: usize) -> bool
    requires { frames ≤ places }
    ensures { result ≡ every (λ m. m) (take frames marks.now) }
{
    let mut ok = true;
    for &m in &marks[..frames] {
        ok &= m;
    }
    ok
}

// Whether the number in every place of two lists is at most `top`. One loop for both is compiled in where it is called. The second clause is for a caller that
// has the places inside structs behind a reference, where no proof sees how many they are.
pub fn both_low(c: &[u8; PLACES], d: &[u8; PLACES], top: u8) -> bool
    ensures test { result ≡ (every (is_at_most top) (take places c.now) && every (is_at_most top) (take places d.now)) }
    ensures all_places { (length c.now ≡ places) × (length d.now ≡ places) }
{
    let mut ok = true;
    for (&x, &y) in c.iter().zip(d) {
        ok &= x.max(y) <= top;
    }
    ok
}

// Whether every frame stands in exactly one list, and nothing else does: as many numbers as frames, and every frame is among them.
pub fn frames_right(lists: &FrameLists, frames: usize) -> bool
    requires fit { (frames ≤ places) × (lists.now.empty.len + (lists.now.clean.len + lists.now.dirty.len) ≡ frames) }
    ensures { Decides result (FramesRight frames (listed lists.now.empty) (listed lists.now.clean) (listed lists.now.dirty)) }
{
    let mut marks = [false; 256];
    mark(&mut marks, &lists.empty);
    mark(&mut marks, &lists.clean);
    mark(&mut marks, &lists.dirty);
    all_marked(&marks, frames)
}

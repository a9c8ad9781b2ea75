// One window of times: whether what is kept of it is true of its places, and how a time takes its place.
#![tactic(auto)]

ghost use Rattle.std.specs.Prelude.{◌≡◌, true, ◌≤◌, ◌<◌, length, set, replicate};
ghost use Rattle.model.specs.Times.{most_times};
ghost use Rattle.window.specs.Window.{sum_of, none_zero, next_right, window_right, place_after, window_after};

use model::Window;

// A bit that no time has by itself.
const MARK: u32 = 65536;

// What one look through times finds: their sum, and whether none of them is 0. The sum is wanted of times that are 0, too, so it is no `Option`.
#[derive(Clone, Copy)]
struct Tally {
    sum: u32,
    none_zero: bool,
}

// Every place becomes 0.
pub fn clear(times: &mut [u16])
    ensures { times.new ≡ replicate (length times.old) 0 }
{
    times.fill(0);
}

// One look through times, in vector code: nothing leads out of the loop, and no number in it has more than 32 bits. The sum fits, since there are no more
// times than a window has. A time and 65,535 together have the bit MARK just if the time is not 0, so `marks` has it as long as no time was 0.
fn tally_of(times: &[u16]) -> Tally
    requires { length times.now ≤ most_times }
    ensures { (result.sum ≡ sum_of times.now) × (result.none_zero ≡ none_zero times.now) }
{
    let mut sum: u32 = 0;
    let mut marks: u32 = MARK;
    for &time in times {
        let time = u32::from(time);
        sum += time;
        marks &= time + 65535;
    }
    Tally {
        sum,
        none_zero: MARK <= marks,
    }
}

// Whether the next place is the fill, or once the window is full any of its places.
fn next_right(n: usize, window: Window) -> bool
    ensures { result ≡ next_right n window }
{
    if window.fill < n {
        window.next == window.fill
    } else {
        window.next < n
    }
}

// Whether what is kept of a window of n times is true of its places.
pub fn right(n: usize, window: Window, times: &[u16]) -> bool
    requires { n ≤ most_times }
    ensures { result ≡ window_right n window times.now }
{
    if times.len() != n || n < window.fill || !next_right(n, window) {
        return false;
    }
    let (filled, rest) = times.split_at(window.fill);
    let filled = tally_of(filled);
    filled.none_zero && tally_of(rest).sum == 0 && window.sum == u64::from(filled.sum)
}

// The place behind the given one, round below n.
fn place_after(n: usize, at: usize) -> usize
    requires { at < n }
    ensures { result ≡ place_after n at }
{
    let behind = at + 1;
    if behind < n { behind } else { 0 }
}

// A time takes the next place of a window of n times whose kept numbers are true; what stood there is taken off the sum.
#[tactic(auto, using(crate::proofs::Stays::right_windows), unfolding(crate::specs::Window::window_after))]
pub fn place(n: usize, window: Window, times: &mut [u16], time: u16) -> Window
    requires { (n ≤ most_times) × (window_right n window times.old ≡ true) }
    ensures value { result ≡ window_after n window times.old time }
    ensures times_after { times.new ≡ set times.old window.next time }
{
    let at = window.next;
    let sum = window.sum - u64::from(times[at]) + u64::from(time);
    times[at] = time;
    Window {
        fill: (window.fill + 1).min(n),
        next: place_after(n, at),
        sum,
    }
}

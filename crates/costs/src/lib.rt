// What a serving call asks of the numbers that are kept of the times measured on the drive: whether they are in range, and the costs in force by them.
#![tactic(auto)]

ghost use Rattle.std.specs.Prelude.{◌≡◌, cond as if-else, ◌≤◌};
ghost use Rattle.model.specs.Target.{most_cost};
ghost use Rattle.model.specs.Times.{most_times, length_fits, window_fits, kept_fits, both_full, fresh_kept};

use model::{Kept, Window};

// What a physical read and a physical write cost, such that a step of the target can be reckoned with them: there is something to divide by, and no product
// wraps.
#[derive(Clone, Copy)]
pub struct Costs {
    pub read: u64,
    pub write: u64,
    pub ghost in_range: { (1 ≤ read) × (read ≤ most_cost) × (write ≤ most_cost) },
}

// The longest window.
const MOST_TIMES: usize = 32768;

// Whether windows may be so long.
pub fn length_fits(n: usize) -> bool
    ensures { result ≡ length_fits n }
{
    1 <= n && n <= MOST_TIMES
}

// Whether a window's fill and sum are in range.
fn in_range(n: usize, window: Window) -> bool
    requires { n ≤ most_times }
    ensures { result ≡ window_fits n window }
{
    let fill = window.fill as u64;
    window.fill <= n && fill <= window.sum && window.sum <= fill * 65535
}

// Whether n, the fills and the sums are in range: a serving call sees no more.
#[tactic(auto, unfolding(model::specs::Times::kept_fits))]
pub fn kept_fits(kept: Kept) -> bool
    ensures { result ≡ kept_fits kept }
{
    length_fits(kept.n) && in_range(kept.n, kept.reads) && in_range(kept.n, kept.writes)
}

// A cost in force: the sum of its window once both windows are full, until then the opened cost.
pub fn in_force(kept: Kept, sum: u64, opened: u64) -> u64
    ensures { result ≡ if-else (both_full kept) sum opened }
{
    if kept.reads.fill == kept.n && kept.writes.fill == kept.n {
        sum
    } else {
        opened
    }
}

// Kept numbers of windows of n times with nothing measured yet.
pub fn fresh(n: usize) -> Kept
    ensures { result ≡ fresh_kept n }
{
    Kept {
        n,
        ..Kept::default()
    }
}

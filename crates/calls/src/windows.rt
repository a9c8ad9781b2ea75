// Kept numbers by chance: of windows that are full or still filling, and such of which one thing was changed.
ghost use Rattle.std.specs.Prelude.{◌≤◌};

use crate::Call;
use crate::chance::below;
use model::{Kept, Window};

// ---- right ones

// How many times a window has: few, many, or as many as may be.
fn size_by(chance: usize) -> usize
    ensures { (1 ≤ result) × (result ≤ 32768) }
{
    match chance % 6 {
        0 => 1,
        1 => 2,
        2 => 3,
        3 => 100,
        4 => 32767,
        _ => 32768,
    }
}

// Times that are all 1, all 65,535, or add up to any sum between.
fn sum_by(fill: usize, chance: usize) -> u64
    requires { fill ≤ 32768 }
{
    let least = fill as u64;
    match chance % 8 {
        0 => least,
        1 => least * 65535,
        _ => least.wrapping_add(chance as u64 % (least * 65534 + 1)),
    }
}

// The next place of a full window is the first.
fn window_by(n: usize, full: bool, chance: usize) -> Window
    requires { (1 ≤ n) × (n ≤ 32768) }
    ensures { result.fill ≤ 32768 }
{
    let fill = if full { n } else { below(n, chance / 8) };
    Window {
        fill,
        next: below(n, fill),
        sum: sum_by(fill, chance),
    }
}

// ---- changed ones

// A fill above n, with a sum that suits it or without; a sum past either end; a next place that is none, which no serving call sees.
fn changed_window(mut window: Window, n: usize, way: usize) -> Window
    requires { (window.fill ≤ 32768) × (n ≤ 32768) }
{
    let fill = window.fill as u64;
    match way {
        0 => {
            window.fill = n + 1;
            window.sum = n as u64 + 1;
        }
        1 => window.fill = usize::MAX,
        2 => window.sum = fill.wrapping_sub(1),
        3 => window.sum = fill * 65535 + 1,
        4 => window.sum = u64::MAX,
        5 => {
            window.fill = 0;
            window.sum = 1;
        }
        6 => window.next = n,
        _ => window.next = usize::MAX,
    }
    window
}

fn changed_size(kept: Kept, way: usize) -> Kept {
    match way {
        0 => costs::fresh(0),
        1 => Kept { n: 32769, ..kept },
        _ => Kept {
            n: usize::MAX,
            ..kept
        },
    }
}

// n, or one thing of either window.
fn changed(kept: Kept, which: usize) -> Kept
    requires { (kept.n ≤ 32768) × (kept.reads.fill ≤ 32768) × (kept.writes.fill ≤ 32768) }
{
    let way = which / 3;
    match which % 3 {
        0 => changed_size(kept, way % 3),
        1 => Kept {
            reads: changed_window(kept.reads, kept.n, way),
            ..kept
        },
        _ => Kept {
            writes: changed_window(kept.writes, kept.n, way),
            ..kept
        },
    }
}

// ---- in a call

fn kept_by(how: usize, of_reads: usize, of_writes: usize) -> Kept {
    let n = size_by(how / 64);
    let kept = Kept {
        n,
        reads: window_by(n, how / 4 % 4 != 0, of_reads),
        writes: window_by(n, how / 16 % 4 != 0, of_writes),
    };
    if how % 4 == 3 {
        return changed(kept, how / 384 % 24);
    }
    kept
}

// The call with kept numbers, of which in one of four something was changed, or in one of four without.
pub fn timed_call(call: Call, how: usize, of_reads: usize, of_writes: usize) -> Call {
    let kept = if how % 4 == 0 {
        None
    } else {
        Some(kept_by(how, of_reads, of_writes))
    };
    Call { kept, ..call }
}

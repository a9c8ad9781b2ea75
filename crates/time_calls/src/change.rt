// Kept numbers and windows of which one thing is changed: a number, a place, or how many places are lent. Most calls on them are refused.
ghost use Rattle.std.specs.Prelude.{◌≤◌};

use crate::{Lent, time_by};
use calls::chance::below;
use model::{Kept, Window};
use std::mem;

// What is changed in windows of n times: `chance` says what and where, `then` which time goes there.
#[derive(Clone, Copy)]
pub struct Change {
    pub kept: Kept,
    pub n: usize,
    pub chance: usize,
    pub then: usize,
}

fn changed(old: u64, n: u64, chance: usize) -> u64 {
    match chance % 8 {
        0 => 0,
        1 => old.wrapping_add(1),
        2 => old.wrapping_sub(1),
        3 => n.wrapping_sub(1),
        4 => n,
        5 => n.wrapping_add(1),
        6 => u64::MAX,
        _ => (chance / 8 % 65536) as u64,
    }
}

fn changed_size(old: usize, n: usize, chance: usize) -> usize {
    changed(old as u64, n as u64, chance) as usize
}

// One of the seven numbers.
fn changed_number(mut kept: Kept, n: usize, which: usize) -> Kept {
    let chance = which / 7;
    match which % 7 {
        0 => kept.n = changed_size(kept.n, n, chance),
        1 => kept.reads.fill = changed_size(kept.reads.fill, n, chance),
        2 => kept.reads.next = changed_size(kept.reads.next, n, chance),
        3 => kept.reads.sum = changed(kept.reads.sum, n as u64, chance),
        4 => kept.writes.fill = changed_size(kept.writes.fill, n, chance),
        5 => kept.writes.next = changed_size(kept.writes.next, n, chance),
        _ => kept.writes.sum = changed(kept.writes.sum, n as u64, chance),
    }
    kept
}

// A place gets another time, and the kept sum goes with it or stays.
fn put(window: &mut Window, times: &mut [u16], at: usize, time: u16, with_sum: bool) {
    if let Some(place) = times.get_mut(at) {
        let old = mem::replace(place, time);
        if with_sum {
            window.sum = window
                .sum
                .wrapping_sub(u64::from(old))
                .wrapping_add(u64::from(time));
        }
    }
}

fn changed_place(change: Change, which: usize, reads: &mut [u16], writes: &mut [u16]) -> Kept
    requires { 1 ≤ change.n }
{
    let at = below(change.n, which / 2);
    let time = time_by(change.then / 64);
    let with_sum = change.then / 32 % 2 == 1;
    let mut kept = change.kept;
    if which % 2 == 0 {
        put(&mut kept.reads, reads, at, time, with_sum);
    } else {
        put(&mut kept.writes, writes, at, time, with_sum);
    }
    kept
}

// A place fewer than n, as many, or one more.
fn near(n: usize, chance: usize) -> usize {
    n.wrapping_add(chance % 3).wrapping_sub(1)
}

fn changed_lengths(kept: Kept, n: usize, which: usize) -> Lent {
    Lent {
        kept: Kept {
            n: near(n, which / 9),
            ..kept
        },
        reads: near(n, which),
        writes: near(n, which / 3),
    }
}

// A kept number; a place of a window; how many places are lent, and n; or all, to no times at all.
fn change_one(change: Change, reads: &mut [u16], writes: &mut [u16]) -> Lent
    requires { 1 ≤ change.n }
{
    let n = change.n;
    let which = change.chance / 8;
    match change.chance % 8 {
        0..=2 => Lent::whole(changed_number(change.kept, n, which), n),
        3 | 4 => Lent::whole(changed_place(change, which, reads, writes), n),
        5 | 6 => changed_lengths(change.kept, n, which),
        _ => Lent::whole(costs::fresh(0), 0),
    }
}

// ---- on copies

// The first n places; what is left over behind the copy becomes 0.
fn copy(from: &[u16], n: usize, to: &mut [u16]) {
    let m = n.min(from.len()).min(to.len());
    to[..m].copy_from_slice(&from[..m]);
    to[m..].fill(0);
}

pub fn changed_copies(
    change: Change,
    reads: &[u16],
    writes: &[u16],
    other_reads: &mut [u16],
    other_writes: &mut [u16],
) -> Lent
    requires { 1 ≤ change.n }
{
    copy(reads, change.n, other_reads);
    copy(writes, change.n, other_writes);
    change_one(change, other_reads, other_writes)
}

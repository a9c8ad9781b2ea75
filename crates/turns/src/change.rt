// Pools in which one thing is changed: a number, a place of a list, a page or a reference number. Most of them are broken.
ghost use Rattle.std.specs.Prelude.{◌<◌};

use calls::chance::{below, next};
use order::{FrameList, PLACES};
use pool::{Pool, Reads, Writes};

fn changed(old: u64, chance: usize) -> u64 {
    match chance % 16 {
        0 => 0,
        1 => 1,
        2 => old.wrapping_add(1),
        3 => old.saturating_sub(1),
        4 => 63,
        5 => 64,
        6 => 65,
        7 => 255,
        8 => 1000,
        9 => 1001,
        10 => 65535,
        11 => 65536,
        12 => 1000000000,
        13 => 1000000001,
        14 => u64::MAX,
        _ => (chance / 16) as u64,
    }
}

fn changed_size(old: usize, chance: usize) -> usize {
    changed(old as u64, chance) as usize
}

// One of the twelve numbers: those that it was opened with, lengths, the target and counts.
fn change_number(pool: &mut Pool, which: usize, chance: usize) {
    match which {
        0 => pool.numbers.frames = changed_size(pool.numbers.frames, chance),
        1 => pool.numbers.page_bytes = changed_size(pool.numbers.page_bytes, chance),
        2 => pool.numbers.pages = changed_size(pool.numbers.pages, chance),
        3 => pool.numbers.read_cost = changed(pool.numbers.read_cost, chance),
        4 => pool.numbers.write_cost = changed(pool.numbers.write_cost, chance),
        5 => pool.lists.empty.len = changed_size(pool.lists.empty.len, chance),
        6 => pool.lists.clean.len = changed_size(pool.lists.clean.len, chance),
        7 => pool.lists.dirty.len = changed_size(pool.lists.dirty.len, chance),
        8 => pool.target = changed(pool.target, chance),
        9 => pool.served = changed(pool.served, chance),
        10 => pool.reads = Reads(changed(pool.reads.0, chance)),
        _ => pool.writes = Writes(changed(pool.writes.0, chance)),
    }
}

// Two places of a list trade their frames: of E this leaves a sound pool sound, of C or D it does not, unless the two are one.
fn swap_two(list: &mut FrameList, chance: usize) {
    let m = list.len.min(PLACES);
    if 0 < m {
        list.places.swap(below(m, chance), below(m, chance / 64));
    }
}

// One place of a list is changed, in use or past the end; or two are swapped.
fn change_list(list: &mut FrameList, at: usize, chance: usize)
    requires { at < 64 }
{
    if chance / 16 % 4 == 0 {
        swap_two(list, chance / 64);
    } else {
        list.places[at] = (changed(u64::from(list.places[at]), chance) & 0xFF) as u8;
    }
}

// One list, the pages or the reference numbers are changed at a place.
fn change_place(pool: &mut Pool, which: usize, at: usize, chance: usize)
    requires { at < 64 }
{
    match which {
        0 => change_list(&mut pool.lists.empty, at, chance),
        1 => change_list(&mut pool.lists.clean, at, chance),
        2 => change_list(&mut pool.lists.dirty, at, chance),
        3 => pool.page[at] = (changed(u64::from(pool.page[at]), chance) & 0xFFFF) as u16,
        _ => {
            pool.reference[at] = (changed(u64::from(pool.reference[at]), chance)
                & 0xFFFFFFFF) as u32
        }
    }
}

// Half of the places are among those that the frames use, or next to them.
fn place_by(frames: usize, chance: usize) -> usize
    ensures { result < 64 }
{
    if frames < PLACES && chance % 2 == 0 {
        below(frames + 1, chance / 2)
    } else {
        chance / 2 % PLACES
    }
}

// A third of the changes are to numbers.
pub fn changed_pool(pool: Pool, seed: usize) -> Pool {
    let first = next(seed);
    let second = next(first);
    let mut new = pool;
    if first % 3 == 0 {
        change_number(&mut new, first / 3 % 12, second);
    } else {
        let at = place_by(pool.numbers.frames, first / 15);
        change_place(&mut new, first / 3 % 5, at, second);
    }
    new
}

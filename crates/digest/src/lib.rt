// Digests of what calls leave: CRC-32 (reflected), four bits at a time.
#![tactic(auto)]

ghost use Rattle.std.specs.Prelude.{◌≤◌, ◌*◌, length};

use pool::Pool;

// A digest starts with every bit set, and is printed with every bit turned.
pub const FULL: u32 = 0xFFFFFFFF;

pub fn printed(digest: u32) -> u64 {
    u64::from(FULL - digest)
}

// What four shifts make of each four bits.
const SHIFTED: [u32; 16] = [
    0x00000000, 0x1DB71064, 0x3B6E20C8, 0x26D930AC, 0x76DC4190, 0x6B6B51F4, 0x4DB26158, 0x5005713C,
    0xEDB88320, 0xF00F9344, 0xD6D6A3E8, 0xCB61B38C, 0x9B64C2B0, 0x86D3D2D4, 0xA00AE278, 0xBDBDF21C,
];

// The lowest four bits go in.
fn absorb_bits(digest: u32, bits: u32) -> u32 {
    let at = ((digest ^ bits) % 16) as usize;
    (digest >> 4) ^ SHIFTED[at]
}

fn absorb_byte(digest: u32, byte: u8) -> u32 {
    let bits = u32::from(byte);
    absorb_bits(absorb_bits(digest, bits), bits >> 4)
}

pub fn absorb_bytes(digest: u32, bytes: &[u8]) -> u32 {
    bytes
        .iter()
        .fold(digest, |now, &byte| absorb_byte(now, byte))
}

// The times of a window, low byte first.
pub fn absorb_times(digest: u32, times: &[u16]) -> u32 {
    times
        .iter()
        .fold(digest, |now, time| absorb_bytes(now, &time.to_le_bytes()))
}

// The most bytes that numbers make: those of the reference numbers of a pool.
const MOST: usize = 256;

// Each number in `width` bytes, low byte first.
pub fn absorb_numbers(digest: u32, width: usize, numbers: &[u64]) -> u32
    requires { length numbers.now * width ≤ 256 }
{
    let mut space = [0u8; MOST];
    let bytes = &mut space[..numbers.len() * width];
    little::put_all(bytes, width, numbers);
    absorb_bytes(digest, bytes)
}

fn absorb_counts(digest: u32, pool: Pool) -> u32 {
    let numbers = [
        pool.numbers.frames as u64,
        pool.numbers.page_bytes as u64,
        pool.numbers.pages as u64,
        pool.numbers.read_cost,
        pool.numbers.write_cost,
        pool.lists.empty.len as u64,
        pool.lists.clean.len as u64,
        pool.lists.dirty.len as u64,
        pool.target,
        pool.served,
        pool.reads.0,
        pool.writes.0,
    ];
    absorb_numbers(digest, 8, &numbers)
}

// The numbers of a pool, then every place of its lists, every page and every reference number, those without meaning too.
pub fn absorb_pool(digest: u32, pool: Pool) -> u32 {
    let with_counts = absorb_counts(digest, pool);
    let with_empty = absorb_bytes(with_counts, &pool.lists.empty.places);
    let with_clean = absorb_bytes(with_empty, &pool.lists.clean.places);
    let with_dirty = absorb_bytes(with_clean, &pool.lists.dirty.places);
    let with_pages = absorb_numbers(with_dirty, 2, &pool.page.map(u64::from));
    absorb_numbers(with_pages, 4, &pool.reference.map(u64::from))
}

// The bytes of a page buffer: whole pages go between the frame memory and the store, a write goes to a stretch of a frame, and a page of the store is wiped.
// Nothing here knows which page is wanted or which frame is given up: that is the policy's.
#![tactic(auto)]

ghost use Rattle.std.specs.Prelude.{◌≡◌, ◌+◌, ◌*◌, ◌≤◌, length, replicate};
ghost use Rattle.order.specs.Places.{places};
ghost use Rattle.pages.specs.Pages.{splice, page_of, with_page, InPages};
ghost use Rattle.pages.specs.Memory.{sizes_match};

// The bytes of a frame, as that stretch of the frame memory, go to their page of the store, and no other byte of it changes.
pub fn write_back(store: &mut [u8], page: usize, frame: &[u8], size: usize)
    requires frame_len { length frame.now ≡ size }
    requires in_pages { InPages size page (length store.old) }
    ensures { store.new ≡ with_page size page frame.now store.old }
{
    let at = page * size;
    store[at..at + size].copy_from_slice(frame);
}

// A page of the store becomes zeros, and no other byte of it changes.
pub fn wipe(store: &mut [u8], page: usize, size: usize)
    requires { InPages size page (length store.old) }
    ensures { store.new ≡ with_page size page (replicate size 0) store.old }
{
    let at = page * size;
    store[at..at + size].fill(0);
}

// A page of the store comes into a frame.
pub fn fetch(frames: &mut [u8], frame: usize, store: &[u8], page: usize, size: usize)
    requires in_pages { InPages size frame (length frames.old) }
    requires in_pages_2 { InPages size page (length store.now) }
    ensures { frames.new ≡ with_page size frame (page_of size page store.now) frames.old }
{
    let from = page * size;
    let at = frame * size;
    frames[at..at + size].copy_from_slice(&store[from..from + size]);
}

// The stretch of a frame from its byte `start` on becomes `bytes`.
pub fn overlay(frames: &mut [u8], frame: usize, start: usize, bytes: &[u8], size: usize)
    requires in_pages { InPages size frame (length frames.old) }
    requires bytes_bound { start + length bytes.now ≤ size }
    ensures { frames.new ≡ splice (frame * size + start) bytes.now frames.old }
{
    let at = frame * size + start;
    frames[at..at + bytes.len()].copy_from_slice(bytes);
}

// `out` becomes the bytes of a frame.
pub fn copy_out(out: &mut [u8], frames: &[u8], frame: usize, size: usize)
    requires out_len { length out.old ≡ size }
    requires in_pages { InPages size frame (length frames.now) }
    ensures { out.new ≡ page_of size frame frames.now }
{
    let at = frame * size;
    out.copy_from_slice(&frames[at..at + size]);
}

// The bytes of so many frames or pages.
pub fn area(count: usize, size: usize) -> usize
    requires { (count ≤ 65536) × (size ≤ 65535) }
    ensures { result ≡ count * size }
{
    count * size
}

// Whether `m` bytes of frame memory and `n` bytes of store are b frames and N pages of `size` bytes.
pub fn sizes_match(m: usize, n: usize, b: usize, pages: usize, size: usize) -> bool
    requires { (b ≤ places) × (pages ≤ 65536) × (size ≤ 4096) }
    ensures { result ≡ sizes_match size b pages m n }
{
    m == b * size && n == pages * size
}

// Frames whose page was changed: one is written back before another page comes into it, and the frames of a list are written back in their order.
#![tactic(auto)]

ghost use Rattle.std.specs.Prelude.{◌≡◌, length};
ghost use Rattle.std.specs.List.{All};
ghost use Rattle.pages.specs.Pages.{page_of, with_page, InPages};
ghost use Rattle.pages.specs.Memory.{written_back, FrameIn};

use order::PLACES;

// A changed page leaves its frame and another comes: the frame's stretch is written back first, or the change would be lost.
pub fn replace(
    frames: &mut [u8],
    frame: usize,
    store: &mut [u8],
    old: usize,
    new: usize,
    size: usize,
)
    requires frame_in { InPages size frame (length frames.old) }
    requires old_in { InPages size old (length store.old) }
    requires new_in { InPages size new (length store.old) }
    ensures store_after { store.new ≡ with_page size old (page_of size frame frames.old) store.old }
    ensures frames_after { frames.new ≡ with_page size frame (page_of size new store.new) frames.old }
{
    let at = frame * size;
    pages::write_back(store, old, &frames[at..at + size], size);
    pages::fetch(frames, frame, store, new, size);
}

// The frames of a list are written to their pages, the last of them first.
pub fn write_back_all(
    store: &mut [u8],
    frames: &[u8],
    list: &[u8],
    page: &[u16; PLACES],
    size: usize,
)
    requires { All (λ f. FrameIn size page.now (length frames.now) (length store.old) f) list.now }
    ensures { store.new ≡ written_back size page.now frames.now list.now store.old }
{
    for &frame in list.iter().rev() {
        let f = usize::from(frame);
        let q = usize::from(page[f]);
        let at = f * size;
        pages::write_back(store, q, &frames[at..at + size], size);
    }
}

// Places without meaning hold 0: those behind a list, and the pages and reference numbers behind the frames.
ghost use Rattle.std.specs.Prelude.{◌≡◌, length, drop};
ghost use Rattle.order.specs.Places.{places};
ghost use Rattle.checks.specs.Tests.{every};

use order::PLACES;

// A number of any width, by its zero.
pub trait Zero: Copy + PartialEq {
    ghost ZERO: { Self };

    const ZERO: Self;
}

impl Zero for u8 {
    ghost ZERO = { 0 };

    const ZERO: u8 = 0;
}

impl Zero for u16 {
    ghost ZERO = { 0 };

    const ZERO: u16 = 0;
}

impl Zero for u32 {
    ghost ZERO = { 0 };

    const ZERO: u32 = 0;
}

// Whether the places of a list from `from` on hold 0. A loop that goes to the end, whatever it meets, is compiled to vector code; so are the others like it.
// This one goes by places: in a part of a slice the compiler does not see that at most 64 are left. At each width the promise is `every is_zero`.
pub fn zeros<T: Zero>(list: &[T; PLACES], from: usize) -> bool
    ensures test { result ≡ every (λ x. T.eq x T.ZERO) (drop from list.now) }
    ensures all_places { length list.now ≡ places }
{
    let mut ok = true;
    for i in from..PLACES {
        ok &= list[i] == T::ZERO;
    }
    ok
}

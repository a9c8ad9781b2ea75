// Little-endian numbers in byte slices: the width of a number is the length of its slice.
#![tactic(auto)]

ghost use Rattle.std.specs.Prelude.{◌≡◌, ◌*◌, ◌≤◌, length};
ghost use Rattle.little.specs.Little.{bytes_of, number_of, bytes_of_all, numbers_of};

// x, low byte first, in as many bytes as `out` has; what does not fit is left out.
pub fn put(out: &mut [u8], x: u64)
    ensures { out.new ≡ bytes_of (length out.old) x }
{
    let mut rest = x;
    for b in out.iter_mut() {
        *b = (rest % 256) as u8;
        rest /= 256;
    }
}

// The number that at most 8 bytes spell.
pub fn get(bytes: &[u8]) -> u64
    requires { length bytes.now ≤ 8 }
    ensures { result ≡ number_of bytes.now }
{
    let mut r = 0;
    for &b in bytes.iter().rev() {
        r = r * 256 + u64::from(b);
    }
    r
}

// Each number of `xs` in `width` bytes.
pub fn put_all(out: &mut [u8], width: usize, xs: &[u64])
    requires { length out.old ≡ length xs.now * width }
    ensures { out.new ≡ bytes_of_all width xs.now }
{
    for (i, &x) in xs.iter().enumerate() {
        let at = i * width;
        put(&mut out[at..at + width], x);
    }
}

// The numbers that `bytes` spell, `width` bytes each.
pub fn get_all(xs: &mut [u64], width: usize, bytes: &[u8])
    requires width_bound { width ≤ 8 }
    requires bytes_len { length bytes.now ≡ length xs.old * width }
    ensures { xs.new ≡ numbers_of width (length xs.old) bytes.now }
{
    for (i, x) in xs.iter_mut().enumerate() {
        let at = i * width;
        *x = get(&bytes[at..at + width]);
    }
}

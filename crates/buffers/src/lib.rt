// Bytes put into a lent buffer from a place on.

#![tactic(auto)]

ghost use Rattle.std.specs.Prelude.{◌≡◌, ◌+◌, ◌≤◌, length};
ghost use Rattle.model.specs.Buffers.{put, two_digits};

// The bytes from at on.
pub fn put_bytes(out: &mut [u8], at: usize, bytes: &[u8])
    requires { at + length bytes.now ≤ length out.old }
    ensures { out.new ≡ put out.old at bytes.now }
{
    out[at..at + bytes.len()].copy_from_slice(bytes);
}

// A number below 100 in two decimal digits, the first of them 0 below 10.
pub fn two_digits(n: u8) -> [u8; 2]
    ensures { result ≡ two_digits n }
{
    [b'0' + n / 10, b'0' + n % 10]
}

// The same, from at on.
pub fn put_two(out: &mut [u8], at: usize, n: u8)
    requires { at + 2 ≤ length out.old }
    ensures { out.new ≡ put out.old at (two_digits n) }
{
    let digits = two_digits(n);
    put_bytes(out, at, &digits);
}

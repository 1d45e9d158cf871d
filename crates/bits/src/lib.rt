// Fields of bits in bytes, the most significant bit first, with no padding between them.

#![tactic(auto)]

ghost use Rattle.std.specs.Prelude.{◌≡◌, ◌*◌, ◌/◌, ◌%◌, ◌^◌, ◌<◌, min, set};
ghost use Rattle.bits.specs.Bits.{field, joined, waiting, stored};

// The byte at index i, 0 past the end, so that a window may reach over the end.
fn byte_or_zero(s: &[u8], i: usize) -> u32
    ensures { result ≡ field s.now (8 * i) 8 }
{
    u32::from(s.get(i).copied().unwrap_or(0))
}

// The byte that has bit at and the next one, as one number.
fn two_bytes(s: &[u8], at: usize) -> u32
    ensures { result ≡ field s.now (8 * (at / 8)) 16 }
{
    let high = byte_or_zero(s, at / 8);
    let low = byte_or_zero(s, at / 8 + 1);
    (high << 8) | low
}

// The byte that has bit at and the next two, as one number.
fn three_bytes(s: &[u8], at: usize) -> u32
    ensures { result ≡ field s.now (8 * (at / 8)) 24 }
{
    (two_bytes(s, at) << 8) | byte_or_zero(s, at / 8 + 2)
}

// The field of width bits, at most 16, from bit at on: it lies in three bytes.
pub fn read_field(s: &[u8], at: usize, width: usize) -> u32
    ensures { (result ≡ field s.now at (min width 16)) × (result < 2 ^ min width 16) }
{
    let w = width.min(16);
    (three_bytes(s, at) >> (24 - at % 8 - w)) & ((1 << w) - 1)
}

// The field of 8 bits from bit at on: it lies in two bytes.
pub fn read_byte(s: &[u8], at: usize) -> u32
    ensures { (result ≡ field s.now at 8) × (result < 2 ^ 8) }
{
    (two_bytes(s, at) >> (8 - at % 8)) & 255
}

// The first six bytes as one number: a whole request, to be taken apart by shifts.
pub fn read_word(s: &[u8]) -> u64
    ensures { (result ≡ field s.now 0 48) × (result < 2 ^ 48) }
{
    let high = u64::from(three_bytes(s, 0));
    let low = u64::from(three_bytes(s, 24));
    (high << 24) | low
}

// The low bits of x, as many as width says and at most 8, behind the low byte of acc.
fn join_bits(acc: u32, width: usize, x: u32) -> u32
    ensures { result ≡ joined acc (min width 8) x }
{
    let w = width.min(8);
    ((acc & 255) << w) | (x & ((1 << w) - 1))
}

// The low byte of b into the byte at index k; past the end nothing is stored.
// Kept: `get_mut` promises the length of what it was lent afterwards, and not the bytes.
fn store_byte(out: &mut [u8], k: usize, b: u32)
    ensures { out.new ≡ set out.old k (b % 256) }
{
    if k < out.len() {
        out[k] = (b & 255) as u8;
    }
}

// Appends low bits of x to a stream at bit at, behind those that wait in acc for a full byte; returns what waits then.
pub fn append(out: &mut [u8], at: usize, acc: u32, width: usize, x: u32) -> u32
    ensures { (result ≡ waiting acc (min width 8) x) × (out.new ≡ stored out.old at acc (min width 8) x) }
{
    let v = join_bits(acc, width, x);
    let n = at % 8 + width.min(8);
    if 8 <= n {
        store_byte(out, at / 8, v >> (n - 8));
    }
    v & 255
}

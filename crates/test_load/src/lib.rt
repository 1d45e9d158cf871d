// A test load from a seed, for laboratories that want to run the same requests.

#![tactic(auto)]

mod requests;
mod xorshift;

ghost use Rattle.std.specs.Prelude.{◌≡◌};
ghost use Rattle.test_load.specs.Load.{load_answer, loaded};

use buffers::put_bytes;
use encoding::pack;
use model::Decision;
use xorshift::Generator;

// As many whole requests as fit, from the front of a lent buffer on, and how many they are; the bytes behind the last one are left. From
// seed 0 every draw would be 0: it is refused, and every byte is left.
pub fn fill(seed: u32, out: &mut [u8]) -> Result<usize, Decision>
    ensures answer { result ≡ load_answer seed out.old }
    ensures filled { out.new ≡ loaded seed out.old }
{
    if seed == 0 {
        return Err(Decision::ZeroSeed);
    }
    let count = out.len() / 6;
    let mut generator = Generator { state: seed };
    // Kept: by place, since the contract of `chunks_exact_mut` does not say what the buffer holds in the end.
    for i in 0..count {
        let bytes = pack(generator.request());
        put_bytes(out, 6 * i, &bytes);
    }
    Ok(count)
}

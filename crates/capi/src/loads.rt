// Test loads from a seed.
ghost use Rattle.std.specs.Prelude.{◌≡◌};
ghost use Rattle.model.specs.Decisions.{number};
ghost use Rattle.test_load.specs.Load.{loading, load_count, loaded};
ghost use Rattle.numbers.specs.Counts.{with_count};

use numbers::with_count;
use test_load::fill;

// As many whole requests from the seed as the buffer has room for.
#[unsafe(no_mangle)]
pub extern "C" fn circmon_load(seed: u32, requests: &mut [u8]) -> u64
    ensures { (result ≡ with_count (number (loading seed)) (load_count seed requests.old)) × (requests.new ≡ loaded seed requests.old) }
{
    match fill(seed, requests) {
        Ok(count) => with_count(0, count),
        Err(refusal) => with_count(u8::from(refusal), 0),
    }
}

// The requests on which the states of two images, read under one profile, reply differently.

#![tactic(auto)]

ghost use Rattle.std.specs.Prelude.{◌≡◌};
ghost use Rattle.images_apart.specs.Apart.{distinguish_number, distinguish_bytes};

use distinguish::distinguish;
use image::open;
use model::Profile;
use unit::ROWS;

// Each image is read into rows of its own; a refused one is told by its number, and then every byte of the buffer is left.
pub fn tell(profile: Profile, a: &[u8], b: &[u8], requests: &mut [u8]) -> u8
    ensures { (result ≡ distinguish_number profile a.now b.now requests.old) × (requests.new ≡ distinguish_bytes profile a.now b.now requests.old) }
{
    let mut first = [[0u8; 16]; ROWS];
    if let Err(refusal) = open(&mut first, profile, a) {
        return 128 + u8::from(refusal);
    }
    let mut second = [[0u8; 16]; ROWS];
    if let Err(refusal) = open(&mut second, profile, b) {
        return 192 + u8::from(refusal);
    }
    distinguish(&first, &second, requests)
}

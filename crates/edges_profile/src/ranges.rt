// The ranges of a profile: "the subjects in use (1 to 16), objects in use (1 to 64), highest class (0 to 15) and the needs in use as a
// set". The comment behind each profile has the number that the text gives it, and why.
ghost use Rattle.std.specs.Prelude.{◌≤◌, length};

use crate::tables::start;
use model::Profile;
use profiles::site;
use saying::{Output, say, say_bytes};

// Begins from so many bytes of a table in which nobody is enrolled: of 42 bytes it is accepted under every profile in the ranges.
fn begin(out: &mut Output, profile: Profile, length: usize)
    requires { length ≤ 42 }
{
    say(out, "profile of subjects ", profile.subjects);
    say(out, ", objects ", profile.objects);
    say(out, ", class ", profile.highest.class);
    say(out, ", needs ", profile.highest.needs);
    say_bytes(out, ", table of ", length);
    let table = [0u8; 42];
    start(out, profile, &table[0..length]);
}

// Each number at the ends of its range and next to them. Every set of sixteen needs is in range.
pub fn ranges(out: &mut Output) {
    begin(out, site(0, 64, 15, 65535), 42); // 16: no subject in use
    begin(out, site(1, 64, 15, 65535), 42); // 0: the first number of subjects
    begin(out, site(16, 64, 15, 65535), 42); // 0: the last numbers of all three, and all needs
    begin(out, site(17, 64, 15, 65535), 42); // 16: more than 16 subjects
    begin(out, site(16, 0, 15, 65535), 42); // 16: no object in use
    begin(out, site(16, 1, 15, 65535), 42); // 0: the first number of objects
    begin(out, site(16, 65, 15, 65535), 42); // 16: more than 64 objects
    begin(out, site(16, 64, 16, 65535), 42); // 16: a class above 15
    begin(out, site(16, 64, 15, 0), 42); // 0: no need in use
    begin(out, site(1, 1, 0, 0), 42); // 0: the first numbers of all
    // a table of another length: 16 for the profile comes "before anything else is read"
    begin(out, site(17, 64, 15, 65535), 41); // 16: the profile is outside the ranges
    begin(out, site(16, 64, 15, 65535), 41); // 10: it is inside
    begin(out, site(4, 10, 3, 3), 41); // 10: it is inside, and not the widest
}

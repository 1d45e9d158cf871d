// Tables under a profile of 4 subjects, 10 objects, class 3 and the needs 0 and 1. The comment behind each has the number that the text
// gives it, and why.
ghost use Rattle.std.specs.Prelude.{◌≡◌};
ghost use Rattle.model.specs.Profiles.{site};
ghost use Rattle.edges_profile.specs.Tables.{with_bytes};

use model::Profile;
use profiles::site;
use saying::{Output, answer};
use unit::ROWS;

// The profile of these edges.
pub fn narrow() -> Profile
    ensures { result ≡ site 4 10 3 3 }
{
    site(4, 10, 3, 3)
}

// A table whose bytes are 0 but for these. Subject 0's record is bits 0 to 20: enrolled and the class are 80 and 8 for each class in
// byte 0, needs 0, 1 and 2 are 08, 10 and 20 in byte 2. Subject 1's is bits 21 to 41. Subject 3's is bits 63 to 83: enrolled is 01 in
// byte 7. Subject 4's is bits 84 to 104: enrolled is 08 in byte 10.
pub fn with_bytes(byte0: u8, byte2: u8, byte7: u8, byte10: u8) -> [u8; 42]
    ensures { result ≡ with_bytes byte0 byte2 byte7 byte10 }
{
    let mut table = [0u8; 42];
    table[0] = byte0;
    table[2] = byte2;
    table[7] = byte7;
    table[10] = byte10;
    table
}

// Begins from a table under a profile, and ends the line.
pub fn start(out: &mut Output, profile: Profile, table: &[u8]) {
    let mut unit = [[0u8; 16]; ROWS];
    answer(out, image::start(&mut unit, profile, table));
}

// Begins from such a table.
fn begin(out: &mut Output, words: &str, byte0: u8, byte2: u8, byte7: u8, byte10: u8) {
    print!(out; "table, {words}");
    let table = with_bytes(byte0, byte2, byte7, byte10);
    start(out, narrow(), &table);
}

// Subjects, classes and needs: the last that is inside and the first that is not. Then two causes at once: 16 is checked after 11.
pub fn tables(out: &mut Output) {
    begin(out, "subject 3 enrolled", 0, 0, 0x01, 0); // 0: the last of 4 subjects
    begin(out, "subject 4 enrolled", 0, 0, 0, 0x08); // 11: a bit in a record beyond the profile
    begin(out, "subject 0 with class 3", 0x98, 0, 0, 0); // 0: the highest class
    begin(out, "subject 0 with class 4", 0xa0, 0, 0, 0); // 16: a class above it
    begin(out, "subject 0 with need 1", 0x80, 0x10, 0, 0); // 0: a need in use
    begin(out, "subject 0 with need 2", 0x80, 0x20, 0, 0); // 16: a need that is not in use
    begin(out, "subject 0 with class 4, bit 22", 0xa0, 0x02, 0, 0); // 11: a bit in the record of subject 1, who is absent; 16 later
    begin(
        out,
        "subject 0 with class 4, subject 4 enrolled",
        0xa0,
        0,
        0,
        0x08,
    ); // 11: a bit in a record beyond the profile; 16 later
}

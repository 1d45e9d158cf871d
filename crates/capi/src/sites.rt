// Beginnings and comparisons of two images under a profile, which passes as its four numbers.
ghost use Rattle.std.specs.Prelude.{◌≡◌};
ghost use Rattle.model.specs.Decisions.{number};
ghost use Rattle.model.specs.Reading.{read_table, read_image};
ghost use Rattle.model.specs.Profiles.{site};
ghost use Rattle.journaled.specs.Units.{rows_of, begun_rows};
ghost use Rattle.capi.specs.SiteAnswers.{apart_number, apart_bytes};

use images_apart::tell;
use journaled::{Unit, open, start};
use labels::number;
use model::Decision;
use profiles::{fits, site};

// Begins from a table under a profile; a refused one leaves the empty monitor in the unit.
#[unsafe(no_mangle)]
pub extern "C" fn circmon_start_in(
    unit: &mut Unit,
    subjects: u8,
    objects: u8,
    class: u8,
    needs: u16,
    table: &[u8],
) -> u8
    ensures { (result ≡ number (read_table (site subjects objects class needs) table.now).decision) × (rows_of unit.new ≡ begun_rows (read_table (site subjects objects class needs) table.now).monitor) }
{
    number(start(unit, site(subjects, objects, class, needs), table))
}

// Begins from an image under a profile; a refused one leaves the empty monitor in the unit.
#[unsafe(no_mangle)]
pub extern "C" fn circmon_open_in(
    unit: &mut Unit,
    subjects: u8,
    objects: u8,
    class: u8,
    needs: u16,
    image: &[u8],
) -> u8
    ensures { (result ≡ number (read_image (site subjects objects class needs) image.now).decision) × (rows_of unit.new ≡ begun_rows (read_image (site subjects objects class needs) image.now).monitor) }
{
    number(open(unit, site(subjects, objects, class, needs), image))
}

// The requests on which the states of two images reply differently, both read under a profile.
#[unsafe(no_mangle)]
pub extern "C" fn circmon_distinguish_in(
    subjects: u8,
    objects: u8,
    class: u8,
    needs: u16,
    a: &[u8],
    b: &[u8],
    requests: &mut [u8],
) -> u8
    ensures { (result ≡ apart_number (site subjects objects class needs) a.now b.now requests.old) × (requests.new ≡ apart_bytes (site subjects objects class needs) a.now b.now requests.old) }
{
    let profile = site(subjects, objects, class, needs);
    if !fits(profile) {
        return u8::from(Decision::OutsideProfile);
    }
    tell(profile, a, b, requests)
}

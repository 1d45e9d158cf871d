// Two levels without a unit: how one compares with the other.
ghost use Rattle.std.specs.Prelude.{◌≡◌};
ghost use Rattle.capi.specs.Comparing.{compared};

use labels::compare;
use model::Level;
use numbers::comparison_number;

// How the level a compares with b, each as a class and a set of needs.
#[unsafe(no_mangle)]
pub extern "C" fn circmon_compare(class_a: u8, needs_a: u16, class_b: u8, needs_b: u16) -> u8
    ensures { result ≡ compared class_a needs_a class_b needs_b }
{
    let a = Level {
        class: class_a,
        needs: needs_a,
    };
    let b = Level {
        class: class_b,
        needs: needs_b,
    };
    comparison_number(compare(a, b))
}

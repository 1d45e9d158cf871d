// Slots without an object, which are most: whether an object is none.

#![tactic(auto)]

ghost use Rattle.std.specs.Prelude.{◌≡◌, true};
ghost use Rattle.model.specs.State.{no_modes, no_object};

use labels::is_present;
use model::Object;

fn is_empty(row: [u8; 16]) -> bool
    ensures { result ≡ true → row ≡ no_modes }
{
    row == [0u8; 16]
}

pub fn is_none(object: Object) -> bool
    ensures { result ≡ true → object ≡ no_object }
{
    let label = object.label;
    let rights = object.rights;
    let held = object.held;
    let no_sets = is_empty(rights) & is_empty(held);
    let no_label = !is_present(label);
    let no_company = object.companies == 0;
    let no_parent = object.parent == 0;
    !object.live & ((object.owner == 0) & (no_label & (no_company & (no_parent & no_sets))))
}

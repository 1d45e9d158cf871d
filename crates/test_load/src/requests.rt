// One request of a test load: what each of its seven draws says.
ghost use Rattle.std.specs.Prelude.{◌≡◌};
ghost use Rattle.test_load.specs.Generator.{draw};
ghost use Rattle.test_load.specs.Load.{kind_drawn, uses_other, other_drawn, mode_drawn, class_drawn, needs_drawn, made};

use crate::xorshift::Generator;
use model::{Fields, Level};

fn kind_drawn(d: u32) -> u8
    ensures { result ≡ kind_drawn d }
{
    1 + (d % 7) as u8
}

// Give and rescind name another subject.
fn uses_other(kind: u8) -> bool
    ensures { result ≡ uses_other kind }
{
    kind == 3 || kind == 4
}

fn other_drawn(kind: u8, d: u32) -> u8
    ensures { result ≡ other_drawn kind d }
{
    if uses_other(kind) { (d % 16) as u8 } else { 0 }
}

fn mode_drawn(kind: u8, d: u32) -> u8
    ensures { result ≡ mode_drawn kind d }
{
    match kind {
        0..=4 => 1 + (d % 4) as u8,
        5 => 4 * (d % 2) as u8,
        _ => 0,
    }
}

// Class and needs stand in a change of level.
fn level_drawn(kind: u8, class: u32, needs: u32) -> Level
    ensures { (result.class ≡ class_drawn kind class) × (result.needs ≡ needs_drawn kind needs) }
{
    if kind != 7 {
        return Level { class: 0, needs: 0 };
    }
    Level {
        class: (class % 16) as u8,
        needs: (needs % 65536) as u16,
    }
}

impl Generator {
    // A request of the next seven draws. All seven are drawn, also for a field that the kind does not use.
    pub fn request(&mut self) -> Fields
        ensures { (result ≡ made self.old.state) × (self.new.state ≡ draw 7 self.old.state) }
    {
        let kind = kind_drawn(self.next());
        let actor = self.next();
        let other = self.next();
        let object = self.next();
        let mode = self.next();
        let class = self.next();
        let needs = self.next();
        let level = level_drawn(kind, class, needs);
        Fields {
            kind,
            actor: (actor % 16) as u8,
            other: other_drawn(kind, other),
            object: (object % 64) as u8,
            mode: mode_drawn(kind, mode),
            class: level.class,
            needs: level.needs,
            spare: 0,
        }
    }
}

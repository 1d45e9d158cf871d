// The fields of an image's records, written one behind the other across byte borders: a label, the company numbers, the sets of the subjects,
// the parent; and the bits of a record that says nothing.

#![tactic(auto)]

ghost use Rattle.std.specs.Prelude.{◌≡◌, ◌+◌, ◌*◌, ◌%◌, ◌≤◌, ◌<◌, false, replicate};
ghost use Rattle.bits.specs.Bits.{to_bits, waiting};
ghost use Rattle.model.specs.Companies.{companies_width};
ghost use Rattle.model.specs.Layout.{label_width, sets_width, parent_width, label_bits, sets_bits};
ghost use Rattle.record_fields.specs.Writers.{Begun, Room, Wrote};

use model::{Label, Monitor};

// The four low bits of one number and those of another behind them: the two sets of a subject, live and owner, present and class.
pub fn side_by_side(high: u8, low: u8) -> u32
    ensures { result ≡ high % 16 * 16 + low % 16 }
{
    (u32::from(high & 15) << 4) | u32::from(low & 15)
}

// The bits of a label, or of none, as one number.
fn label_word(label: Label) -> u32
    ensures { to_bits label_width result ≡ label_bits label }
{
    match label {
        None => 0,
        Some(level) => { (side_by_side(1, level.class) << 16) | u32::from(level.needs) }
    }
}

// Where a stream of bits stands in a lent buffer, and the bits that wait there for their byte to be full. The caller may set each of these, and
// read what is left of them: so a record can be written at any bit, behind bits that wait.
#[derive(Drop)]
pub struct BitWriter<'a> {
    pub out: &'a mut [u8],
    pub at: usize,
    pub waiting: u32,
}

impl<'a> BitWriter<'a> {
    // From the first bit of the buffer on.
    pub fn new(out: &'a mut [u8]) -> BitWriter<'a>
        ensures same_buffer { result.out.ghost_name ≡ out.entry.ghost_name }
        ensures begun { Begun result out.old }
    {
        BitWriter {
            out,
            at: 0,
            waiting: 0,
        }
    }

    // The low bits of x, as many as width says.
    pub fn append(&mut self, width: usize, x: u32)
        requires { (width ≤ 8) × Room self.old width }
        ensures same_buffer { self.new.out.ghost_name ≡ self.old.out.ghost_name }
        ensures moves { self.new.at ≡ self.old.at + width }
        ensures wrote { Wrote self.old (to_bits width x) self.new }
        ensures waits { self.new.waiting ≡ waiting self.old.waiting width x }
    {
        self.waiting = bits::append(self.out, self.at, self.waiting, width, x);
        self.at += width;
    }

    // A label's record.
    pub fn label(&mut self, label: Label)
        requires { Room self.old label_width }
        ensures same_buffer { self.new.out.ghost_name ≡ self.old.out.ghost_name }
        ensures moves { self.new.at ≡ self.old.at + label_width }
        ensures wrote { Wrote self.old (label_bits label) self.new }
    {
        let word = label_word(label);
        self.append(5, word >> 16);
        self.append(8, word >> 8);
        self.append(8, word);
    }

    // The four company numbers, as sixteen bits.
    pub fn companies(&mut self, companies: u16)
        requires { Room self.old companies_width }
        ensures same_buffer { self.new.out.ghost_name ≡ self.old.out.ghost_name }
        ensures moves { self.new.at ≡ self.old.at + companies_width }
        ensures wrote { Wrote self.old (to_bits companies_width companies) self.new }
    {
        self.append(8, u32::from(companies >> 8));
        self.append(8, u32::from(companies));
    }

    // The right bits and the access bits of the sixteen subjects: eight bits for each.
    // The place moves once, behind the loop: so each turn shifts by the same number of bits, which is twice as quick.
    pub fn sets(&mut self, rights: [u8; 16], held: [u8; 16])
        requires { Room self.old sets_width × (self.old.waiting < 256) }
        ensures same_buffer { self.new.out.ghost_name ≡ self.old.out.ghost_name }
        ensures moves { self.new.at ≡ self.old.at + sets_width }
        ensures wrote { Wrote self.old (sets_bits rights held) self.new }
    {
        for s in 0..Monitor::SUBJECTS {
            let x = side_by_side(rights[s], held[s]);
            self.waiting = bits::append(self.out, self.at + 8 * s, self.waiting, 8, x);
        }
        self.at += 8 * Monitor::SUBJECTS;
    }

    // The parent, as seven bits.
    pub fn parent(&mut self, parent: u8)
        requires { Room self.old parent_width }
        ensures same_buffer { self.new.out.ghost_name ≡ self.old.out.ghost_name }
        ensures moves { self.new.at ≡ self.old.at + parent_width }
        ensures wrote { Wrote self.old (to_bits parent_width parent) self.new }
    {
        self.append(7, u32::from(parent));
    }

    // Bits that are 0, eight or more: those that fill no byte, eight more, and then whole bytes.
    pub fn zeros(&mut self, width: usize)
        requires { (8 ≤ width) × Room self.old width }
        ensures same_buffer { self.new.out.ghost_name ≡ self.old.out.ghost_name }
        ensures moves { self.new.at ≡ self.old.at + width }
        ensures wrote { Wrote self.old (replicate width false) self.new }
    {
        self.append(width % 8, 0);
        self.append(8, 0);
        let from = self.at / 8;
        let whole = width / 8 - 1;
        self.out[from..from + whole].fill(0);
        self.at += 8 * whole;
    }
}

// The 32-bit xorshift of Marsaglia (2003).
ghost use Rattle.std.specs.Prelude.{◌≡◌};
ghost use Rattle.test_load.specs.Generator.{xorshift};

// Its state, which is also the last draw.
#[derive(Drop)]
pub struct Generator {
    pub state: u32,
}

impl Generator {
    // The next draw.
    pub fn next(&mut self) -> u32
        ensures { (result ≡ xorshift self.old.state) × (self.new.state ≡ result) }
    {
        let x = self.state;
        let a = x ^ (x << 13);
        let b = a ^ (a >> 17);
        self.state = b ^ (b << 5);
        self.state
    }
}

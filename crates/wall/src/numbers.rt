// Company numbers: four in one number, one for each conflict class, the first class highest. The four classes are written out.
ghost use Rattle.std.specs.Prelude.{◌≡◌, ◌<◌, ℕ, Bool, cond};
ghost use Rattle.model.specs.Tests.{all_below};
ghost use Rattle.model.specs.Companies.{company, compatible, confined};
ghost use Rattle.wall.specs.Joined.{number_or, joined};

// Whether a test of two numbers of one class passes in each class.
fn in_each_class<F: Fn(u16, u16) -> bool>(p: u16, q: u16, passes: F) -> bool
    requires { (a : ℕ) → (b : ℕ) → a < 16 → b < 16 → F.pre passes a b }
    ensures { (f : ℕ → ℕ → Bool) → ((a : ℕ) → (b : ℕ) → (r : Bool) → F.post passes a b r → r ≡ f a b) → result ≡ all_below 4 (λ k. f (company k p) (company k q)) }
{
    let first = passes(p / 4096 % 16, q / 4096 % 16);
    let second = passes(p / 256 % 16, q / 256 % 16);
    let third = passes(p / 16 % 16, q / 16 % 16);
    let last = passes(p % 16, q % 16);
    first & second & third & last
}

// "each class has a 0 or equal numbers"; without numbers in the second, or with equal ones, which is what most objects of a plant have, no
// class is looked at.
pub fn compatible(p: u16, q: u16) -> bool
    ensures { result ≡ compatible p q }
{
    if (q == 0) | (p == q) {
        return true;
    }
    in_each_class(p, q, |a, b| (a == 0) | ((b == 0) | (a == b)))
}

// "each nonzero number of P equals that of Q"; where the first has no number or both have the same without a look at the classes.
pub fn confined(p: u16, q: u16) -> bool
    ensures { result ≡ confined p q }
{
    if (p == 0) | (p == q) {
        return true;
    }
    in_each_class(p, q, |a, b| (a == 0) | (a == b))
}

// The first number, and where that is 0 the second.
fn number_or(a: u16, b: u16) -> u16
    ensures { result ≡ number_or a b }
{
    if a == 0 { b } else { a }
}

// In each class the number of p, and where that is 0 the number of q.
// Kept: a number is made of the four classes here, so that in_each_class, which makes a test of them, does not serve.
fn joined_classes(p: u16, q: u16) -> u16
    ensures { result ≡ joined p q }
{
    let first = number_or(p / 4096 % 16, q / 4096 % 16);
    let second = number_or(p / 256 % 16, q / 256 % 16);
    let third = number_or(p / 16 % 16, q / 16 % 16);
    let last = number_or(p % 16, q % 16);
    first * 4096 + second * 256 + third * 16 + last
}

// The same; where q has no number or both have the same, these are the numbers of p.
pub fn joined(p: u16, q: u16) -> u16
    ensures { result ≡ joined p q }
{
    if (q == 0) | (p == q) {
        return p;
    }
    joined_classes(p, q)
}

// The numbers of q joined to those of p where a test passes, else those of p.
pub fn joined_if(passes: bool, p: u16, q: u16) -> u16
    ensures { result ≡ cond passes (joined p q) p }
{
    if passes { joined(p, q) } else { p }
}

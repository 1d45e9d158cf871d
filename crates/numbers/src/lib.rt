// Answers as numbers for C, where they are no replies: a comparison, a number with a count beside it, an answer on orders.
// Kept: functions and no `From`, since the numbers are codes of the C interface, each said in its header.

#![tactic(auto)]

ghost use Rattle.std.specs.Prelude.{◌≡◌};
ghost use Rattle.numbers.specs.Comparing.{comparison_number};
ghost use Rattle.numbers.specs.Counts.{with_count};
ghost use Rattle.numbers.specs.Orders.{place_bits, order_number};

use model::Comparison;
use start_order::StartOrder;

// 0 where they are equal, 1 where the first is above the second, 2 where it is below, 3 where they are apart.
pub fn comparison_number(c: Comparison) -> u8
    ensures { result ≡ comparison_number c }
{
    match c {
        Comparison::Equal => 0,
        Comparison::Above => 1,
        Comparison::Below => 2,
        Comparison::Apart => 3,
    }
}

// The number in the low byte and the count above it, in the 56 bits that are left.
pub fn with_count(number: u8, count: usize) -> u64
    ensures { result ≡ with_count number count }
{
    number as u64 + 256 * (count as u64 % (1 << 56))
}

// A place in 24 bits.
fn place_bits(i: usize) -> u64
    ensures { result ≡ place_bits i }
{
    i as u64 % (1 << 24)
}

// The code in the low byte, the first place in the 24 bits above it and the second in the 24 above these.
pub fn order_number(found: StartOrder) -> u64
    ensures { result ≡ order_number found }
{
    match found {
        StartOrder::Agree => 0,
        StartOrder::Clash(i, j) => 1 + 256 * place_bits(i) + (1 << 32) * place_bits(j),
        StartOrder::NoGet(i) => 2 + 256 * place_bits(i),
        StartOrder::TooMany => 3,
    }
}

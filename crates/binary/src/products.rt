// The carry-less product.
ghost use Rattle.std.specs.Prelude.{◌≡◌, ◌*◌, ◌^◌, ◌<◌, bit_xor};
ghost use Rattle.binary.specs.Carryless.{pick, clmul, Lengths};

use crate::digits::digit;

// b where the digit is set.
fn picked(digit: u32, b: u32) -> u32
    ensures { result ≡ pick digit b }
{
    if digit == 0 { 0 } else { b }
}

// The product by one more digit, from the product by those above it.
fn with_digit(above: u64, digit: u32, b: u32) -> u64
    requires { above < 2 ^ 63 }
    ensures { result ≡ bit_xor (above * 2) (pick digit b) }
{
    (above << 1) ^ u64::from(picked(digit, b))
}

// The product of the binary polynomials a and b: takes up the digits of a from the highest to the lowest.
pub fn product(a: u32, b: u32) -> u64
    ensures value { result ≡ clmul a b }
    ensures length { Lengths a b result }
{
    let mut r = 0;
    for place in (0..u32::BITS).rev() {
        r = with_digit(r, digit(u64::from(a), place), b);
    }
    r
}

// Remainders by the modulus.
ghost use Rattle.std.specs.Prelude.{◌≡◌, ◌*◌, ◌^◌, ◌<◌, bit_xor, refl};
ghost use Rattle.binary.specs.Binary.{binary};
ghost use Rattle.binary.specs.Remainders.{cut, remainder};

use crate::Binary;
use crate::digits::digit;
use ground::{Ground, Modular, Modulus};

impl Binary {
    // v, of the modulus's degree at most, brought below that degree.
    fn cut(&self, v: u32) -> u32
        ensures { result ≡ cut self.now.modulus.value v }
    {
        if v < self.size() {
            v
        } else {
            v ^ self.modulus.value()
        }
    }

    // The remainder with one more digit, from the remainder of those above it.
    fn with_digit(&self, above: u32, digit: u32) -> u32
        requires { above < 2 ^ 31 }
        ensures { result ≡ cut self.now.modulus.value (bit_xor (above * 2) digit) }
    {
        self.cut((above << 1) ^ digit)
    }
}

impl Modular for Binary {
    ghost on = { binary };

    ghost on_modulus = { λ _. refl };

    ghost remainder = { λ b. remainder b.modulus.value };

    fn over(modulus: Modulus) -> Binary {
        Binary { modulus }
    }

    // Takes up the digits of a from the highest to the lowest, as `product` does. A loop for both would take the step and
    // the bound on its values as two more parameters.
    fn remainder(&self, a: u64) -> u32 {
        let mut r = 0;
        for place in (0..u64::BITS).rev() {
            r = self.with_digit(r, digit(a, place));
        }
        r
    }
}

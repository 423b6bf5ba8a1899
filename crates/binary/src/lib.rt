// Binary polynomials as a ground: a number stands for the polynomial whose coefficients are its binary digits.
#![tactic(auto)]

ghost use Rattle.binary.specs.Binary.{binary};
ghost use Rattle.binary.specs.Laws.{binary_laws};

use crate::digits::leading_term;
use ground::{Ground, Modulus};

mod digits;
mod products;
mod reduction;

pub use products::product;

// Binary polynomials with a modulus. `Whole` holds the same: one struct for both would be generic over a kind of number that
// has no values, and each ground a name for it.
#[derive(Clone, Copy)]
pub struct Binary {
    modulus: Modulus,
}

impl Ground for Binary {
    ghost meaning = { λ b. binary b.modulus.value };

    ghost lawful = { λ b. binary_laws b.modulus.value b.modulus.is_modulus };

    fn modulus(&self) -> u32 {
        self.modulus.value()
    }

    // The residues are the polynomials of a lower degree than the modulus.
    fn size(&self) -> u32 {
        leading_term(self.modulus.value())
    }

    // Parity and halves are those of whole numbers, in the form that is fixed for strings of bits: a mask and a shift.
    fn is_even(&self, a: u32) -> bool {
        a & 1 == 0
    }

    fn half(&self, a: u32) -> u32 {
        a >> 1
    }

    fn difference(&self, a: u32, b: u32) -> u32 {
        a ^ b
    }

    fn residue_half(&self, u: u32) -> u32 {
        if self.is_even(u) {
            self.half(u)
        } else {
            self.half(u ^ self.modulus.value())
        }
    }

    fn residue_difference(&self, u: u32, v: u32) -> u32 {
        self.difference(u, v)
    }
}

#[cfg(test)]
mod tests {
    use super::*;
    use ground::Modular;
    use std::test::Fail;

    // The product that the standard of AES works out: 0x57 by 0x83 is 0xc1 modulo 0x11b.
    #[test]
    fn multiplies_modulo(rt: HostRuntime) -> Result<(), Fail> {
        let product = product(0x57, 0x83);
        assert!(rt; product == 0x2b79);
        let Ok(field) = Binary::new(0x11b) else {
            assert!(rt; false);
            return Ok(());
        };
        assert!(rt; field.remainder(product) == 0xc1);
        Ok(())
    }
}

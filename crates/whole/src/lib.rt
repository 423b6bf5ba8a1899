// Whole numbers as a ground.
#![tactic(auto)]

ghost use Rattle.std.specs.Prelude.{refl};
ghost use Rattle.whole.specs.Whole.{whole, remainder};
ghost use Rattle.whole.specs.Laws.{whole_laws};

use ground::{Ground, Modular, Modulus};

// Whole numbers with a modulus. `Binary` holds the same: one struct for both would be generic over a kind of number that has
// no values, and each ground a name for it.
#[derive(Clone, Copy)]
pub struct Whole {
    modulus: Modulus,
}

impl Ground for Whole {
    ghost meaning = { λ w. whole w.modulus.value };

    ghost lawful = { λ w. whole_laws w.modulus.value w.modulus.is_modulus };

    fn modulus(&self) -> u32 {
        self.modulus.value()
    }

    fn size(&self) -> u32 {
        self.modulus.value()
    }

    fn is_even(&self, a: u32) -> bool {
        a % 2 == 0
    }

    fn half(&self, a: u32) -> u32 {
        a / 2
    }

    fn difference(&self, a: u32, b: u32) -> u32 {
        a.saturating_sub(b)
    }

    // The sum may pass 32 bits; its half does not.
    fn residue_half(&self, u: u32) -> u32 {
        if self.is_even(u) {
            self.half(u)
        } else {
            ((u64::from(u) + u64::from(self.modulus.value())) / 2) as u32
        }
    }

    fn residue_difference(&self, u: u32, v: u32) -> u32 {
        if u >= v {
            u - v
        } else {
            self.modulus.value().saturating_sub(v - u)
        }
    }
}

impl Modular for Whole {
    ghost on = { whole };

    ghost on_modulus = { λ _. refl };

    ghost remainder = { λ w. remainder w.modulus.value };

    fn over(modulus: Modulus) -> Whole {
        Whole { modulus }
    }

    fn remainder(&self, a: u64) -> u32 {
        (a % u64::from(self.modulus.value())) as u32
    }
}

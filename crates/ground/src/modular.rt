// Grounds that can be made with any modulus, and have remainders by it.
ghost use Rattle.std.specs.Prelude.{◌≡◌, ℕ};
ghost use Rattle.answers.specs.Answers.{told};
ghost use Rattle.ground.specs.Division.{Answers};
ghost use Rattle.ground.specs.Modulus.{Made};
ghost use Rattle.ground.specs.Operations.{Meaning};
ghost use Rattle.ground.specs.Residues.{Reduces};

use crate::division::divide;
use crate::{Ground, Modulus};
use answers::{Quotient, Refusal};

// `Copy`, so that a ground that was made for one quotient may be let go.
pub trait Modular: Ground + Copy {
    // What it computes with the modulus m.
    ghost on: { ℕ → Meaning };

    // The remainder of a value.
    ghost remainder: { Self → ℕ → ℕ };

    // The ground with that modulus.
    fn over(modulus: Modulus) -> Self
        ensures meaning { Self.meaning result ≡ on modulus.value }
        ensures modulus { (Self.meaning result).modulus ≡ modulus.value };

    // The remainder of a: the one residue that is congruent to it.
    fn remainder(&self, a: u64) -> u32
        ensures value { result ≡ remainder self.now a }
        ensures ring { Reduces (Self.meaning self.now) (remainder self.now) };

    // The ground with the modulus `modulus`; a number that is no modulus is refused. No `TryFrom`, since one for every
    // ground could overlap with a type's own.
    fn new(modulus: u32) -> Result<Self, Refusal>
        ensures { Made (λ g. (Self.meaning g ≡ on modulus) × ((Self.meaning g).modulus ≡ modulus)) modulus result }
    {
        Ok(Self::over(Modulus::try_from(modulus)?))
    }

    // The quotient of y by x modulo `modulus`.
    fn quotient(modulus: u32, y: u32, x: u32) -> Result<Quotient, Refusal>
        ensures { Answers on modulus y x (told result) }
    {
        divide(&Self::new(modulus)?, y, x)
    }

    ghost on_modulus: { (m : ℕ) → (on m).modulus ≡ m };
}

// What a ground is, and the division loop, written and proved once for every ground.
#![tactic(auto)]

ghost use Rattle.std.specs.Prelude.{◌≡◌};
ghost use Rattle.ground.specs.Operations.{Meaning, halved, subtracted};
ghost use Rattle.ground.specs.Laws.{Laws};

mod division;
mod modular;
mod modulus;
mod registers;

pub use division::divide;
pub use modular::Modular;
pub use modulus::Modulus;

// A ground with a modulus: numbers of 32 bits under operations of its own. The code below asks for no more than these
// calls, and the proofs for no more than these laws.
pub trait Ground {
    // What it computes.
    ghost meaning: { Self → Meaning };

    fn modulus(&self) -> u32
        ensures { result ≡ (meaning self.now).modulus };

    // How many residues there are.
    fn size(&self) -> u32
        ensures { result ≡ (meaning self.now).size };

    fn is_even(&self, a: u32) -> bool
        ensures { result ≡ (meaning self.now).operations.even a };

    // The half of an even value.
    fn half(&self, a: u32) -> u32
        ensures { result ≡ (meaning self.now).operations.half a };

    // The difference a less b, where it is a value.
    fn difference(&self, a: u32, b: u32) -> u32
        ensures { result ≡ (meaning self.now).operations.difference a b };

    // The residue u halved: an odd one has the modulus added first.
    fn residue_half(&self, u: u32) -> u32
        ensures { result ≡ halved (meaning self.now) u };

    // The residue u less the residue v: where that is no value, the modulus is added once.
    fn residue_difference(&self, u: u32, v: u32) -> u32
        ensures { result ≡ subtracted (meaning self.now) u v };

    ghost lawful: { (x : Self) → Laws (meaning x) };
}

// A modulus: an odd number from 3 to 2147483647.
ghost use Rattle.std.specs.Prelude.{◌≡◌};
ghost use Rattle.ground.specs.Modulus.{IsModulus, Made};

use answers::Refusal;

#[derive(Clone, Copy)]
pub struct Modulus {
    value: u32,
    pub ghost is_modulus: { IsModulus value },
}

// A number that is no modulus is refused.
impl TryFrom<u32> for Modulus {
    type Error = Refusal;

    ghost try_from_gives = { λ value answer. Made (λ m. m.value ≡ value) value answer };

    fn try_from(value: u32) -> Result<Modulus, Refusal> {
        if value % 2 == 0 || value < 3 || value > 2147483647 {
            return Err(Refusal::Modulus);
        }
        Ok(Modulus { value })
    }
}

impl Modulus {
    // No `From`, which would read `u32::from(self.modulus)` and not say what the number is.
    pub fn value(&self) -> u32
        ensures { result ≡ self.now.value }
    {
        self.value
    }
}

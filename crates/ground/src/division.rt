// The division loop, for every ground.
ghost use Rattle.std.specs.Prelude.{◌≡◌, ◌<◌, if◌then◌else◌, Ok, Err, nat_lt};
ghost use Rattle.answers.specs.Answers.{told};
ghost use Rattle.ground.specs.Loop.{outcome};
ghost use Rattle.ground.specs.Division.{divided, Lawful};

use crate::Ground;
use crate::registers::{Outcome, Run};
use answers::{Operand, Quotient, Refusal};

// The loop, until A's value equals B's. It takes no step where x is 0. Its form, a loop that breaks with quotient and count,
// is fixed. Ground and operands go on as three: with a struct of them each contract would say `self.now.ground.now`.
fn looped<G: Ground>(ground: &G, y: u32, x: u32) -> Outcome
    requires residue { y < (G.Ground.meaning ground.now).size }
    ensures { result ≡ outcome (G.Ground.meaning ground.now) y x }
{
    let mut run = Run::start(ground, y, x);
    if x == 0 {
        return Outcome::from(run);
    }
    loop {
        if run.registers.a.value == run.registers.b.value {
            break Outcome::from(run);
        }
        run = run.step(ground);
    }
}

// Refuses a number that is no residue.
fn expect_residue<G: Ground>(ground: &G, value: u32, which: Operand) -> Result<(), Refusal>
    ensures { result ≡ (if nat_lt value (G.Ground.meaning ground.now).size then Ok tt else Err (Refusal.Operand which)) }
{
    if value < ground.size() {
        Ok(())
    } else {
        Err(Refusal::Operand { which })
    }
}

// Divides y by x modulo the ground's modulus: answers the loop's own quotient and step count, or a refusal. The operands are
// looked at in their order.
pub fn divide<G: Ground>(ground: &G, y: u32, x: u32) -> Result<Quotient, Refusal>
    ensures answer { told result ≡ divided (G.Ground.meaning ground.now) y x }
    ensures division { Lawful (G.Ground.meaning ground.now) y x }
{
    expect_residue(ground, y, Operand::First)?;
    expect_residue(ground, x, Operand::Second)?;
    Quotient::try_from(looped(ground, y, x))
}

// The division loop's registers, and what they come to.
ghost use Rattle.std.specs.Prelude.{◌≡◌, ◌+◌, ◌^◌, ◌<◌};
ghost use Rattle.answers.specs.Answers.{told};
ghost use Rattle.ground.specs.Loop.{start, halve, lessen, step, ended};
ghost use Rattle.ground.specs.Division.{settled};

use crate::Ground;
use answers::{Quotient, Refusal};

// A value that comes down to the greatest common divisor, and the residue that follows it.
#[derive(Clone, Copy)]
pub struct Register {
    pub value: u32,
    pub residue: u32,
}

#[derive(Clone, Copy)]
pub struct Registers {
    pub a: Register,
    pub b: Register,
}

// The registers, and how many steps were taken to come to them.
#[derive(Clone, Copy)]
pub struct Run {
    pub registers: Registers,
    pub steps: u32,
}

// What the loop ends with. The quotient is one where the divisor is 1.
#[derive(Clone, Copy)]
pub struct Outcome {
    pub divisor: u32,
    pub quotient: u32,
    pub steps: u32,
}

impl Register {
    fn halve<G: Ground>(self, ground: &G) -> Register
        ensures { result ≡ halve (G.Ground.meaning ground.now) self }
    {
        Register {
            value: ground.half(self.value),
            residue: ground.residue_half(self.residue),
        }
    }

    // The register with another taken from it.
    fn lessen<G: Ground>(self, other: Register, ground: &G) -> Register
        ensures { result ≡ lessen (G.Ground.meaning ground.now) self other }
    {
        Register {
            value: ground.difference(self.value, other.value),
            residue: ground.residue_difference(self.residue, other.residue),
        }
    }
}

impl Registers {
    // The registers before the first step.
    fn start<G: Ground>(ground: &G, y: u32, x: u32) -> Registers
        ensures { result ≡ start (G.Ground.meaning ground.now) y x }
    {
        Registers {
            a: Register {
                value: x,
                residue: y,
            },
            b: Register {
                value: ground.modulus(),
                residue: 0,
            },
        }
    }

    // One step of the loop, by the first case that applies. Each names both registers: with `..self` the one that stays is
    // copied as one word and taken apart anew at each step, which makes the loop on polynomials slower by a quarter.
    fn step<G: Ground>(self, ground: &G) -> Registers
        ensures { result ≡ step (G.Ground.meaning ground.now) self }
    {
        let Registers { a, b } = self;
        if ground.is_even(a.value) {
            Registers {
                a: a.halve(ground),
                b,
            }
        } else if ground.is_even(b.value) {
            Registers {
                a,
                b: b.halve(ground),
            }
        } else if a.value > b.value {
            Registers {
                a: a.lessen(b, ground).halve(ground),
                b,
            }
        } else {
            Registers {
                a,
                b: b.lessen(a, ground).halve(ground),
            }
        }
    }
}

impl Run {
    pub(crate) fn start<G: Ground>(ground: &G, y: u32, x: u32) -> Run
        ensures { result ≡ record { registers = start (G.Ground.meaning ground.now) y x; steps = 0 } }
    {
        Run {
            registers: Registers::start(ground, y, x),
            steps: 0,
        }
    }

    // The run one step on.
    pub(crate) fn step<G: Ground>(self, ground: &G) -> Run
        requires { self.steps + 1 < 2 ^ 32 }
        ensures { result ≡ record { registers = step (G.Ground.meaning ground.now) self.registers; steps = self.steps + 1 } }
    {
        Run {
            registers: self.registers.step(ground),
            steps: self.steps + 1,
        }
    }
}

// What a run ends with: B's value is the common divisor, A's residue the quotient.
impl From<Run> for Outcome {
    ghost from_gives = { λ run outcome. outcome ≡ ended run.registers run.steps };

    fn from(run: Run) -> Outcome {
        Outcome {
            divisor: run.registers.b.value,
            quotient: run.registers.a.residue,
            steps: run.steps,
        }
    }
}

// A divisor that shares a factor with the modulus is refused.
impl TryFrom<Outcome> for Quotient {
    type Error = Refusal;

    ghost try_from_gives = { λ outcome answer. told answer ≡ settled outcome };

    fn try_from(outcome: Outcome) -> Result<Quotient, Refusal> {
        let Outcome {
            divisor,
            quotient,
            steps,
        } = outcome;
        if divisor == 1 {
            Ok(Quotient {
                value: quotient,
                steps,
            })
        } else {
            Err(Refusal::NotUnit {
                witness: divisor,
                steps,
            })
        }
    }
}

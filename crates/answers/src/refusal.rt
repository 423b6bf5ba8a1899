// Why the arithmetic layer refused a call.
ghost use Rattle.std.specs.Prelude.{◌≡◌, Some};
ghost use Rattle.answers.specs.Answers.{ordinal, number};
ghost use Rattle.answers.specs.Text.{refused_text};

use std::error::Error;
use std::fmt;

#[derive(Clone, Copy, Debug, PartialEq, Eq)]
pub enum Refusal {
    // 1: the number is no modulus
    Modulus,
    // 2: that operand is no residue
    Operand { which: Operand },
    // 3: the divisor is no unit; the witness shows why, on our grounds as the greatest common divisor with the modulus
    NotUnit { witness: u32, steps: u32 },
}

// Which operand of a call: the first is looked at first.
#[derive(Clone, Copy, Debug, PartialEq, Eq)]
pub enum Operand {
    First,
    Second,
}

impl Operand {
    pub fn number(self) -> u32
        ensures { result ≡ ordinal self }
    {
        match self {
            Operand::First => 1,
            Operand::Second => 2,
        }
    }
}

impl Refusal {
    // Its number in the list of refusals.
    pub fn number(&self) -> u32
        ensures { result ≡ number self.now }
    {
        match self {
            Refusal::Modulus => 1,
            Refusal::Operand { .. } => 2,
            Refusal::NotUnit { .. } => 3,
        }
    }
}

// In words: `refused NUMBER`, and its values.
impl fmt::Display for Refusal {
    ghost output = { λ e. Some (refused_text e) };

    // The numbers stand in the texts, and are not asked of `number`: to format them took up to four times as long.
    #[tactic(auto, using(std::proofs::lemmas::Fmt::decimal_digit, std::proofs::Common::rules))]
    fn fmt<W: fmt::Write>(&self, f: &mut fmt::Formatter<W>) -> fmt::Result {
        match *self {
            Refusal::Modulus => write!(f, "refused 1"),
            Refusal::Operand {
                which: Operand::First,
            } => write!(f, "refused 2 1"),
            Refusal::Operand {
                which: Operand::Second,
            } => write!(f, "refused 2 2"),
            Refusal::NotUnit { witness, steps } => write!(f, "refused 3 {witness} {steps}"),
        }
    }
}

impl Error for Refusal {}

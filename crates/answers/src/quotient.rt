// A quotient, and how many steps the division took.
ghost use Rattle.std.specs.Prelude.{Some};
ghost use Rattle.answers.specs.Text.{served_text};

use std::fmt;

#[derive(Clone, Copy, Debug, PartialEq, Eq)]
pub struct Quotient {
    pub value: u32,
    pub steps: u32,
}

// In words: `served VALUE STEPS`.
impl fmt::Display for Quotient {
    ghost output = { λ q. Some (served_text q) };

    fn fmt<W: fmt::Write>(&self, f: &mut fmt::Formatter<W>) -> fmt::Result {
        write!(f, "served {} {}", self.value, self.steps)
    }
}

// What the calls of the arithmetic layer answer: a quotient with its step count, or a refusal with its number and
// values. Every contract above speaks of an answer through the numbers that `specs/Answers.antt` gives it.
#![tactic(auto)]

mod quotient;
mod refusal;

pub use quotient::Quotient;
pub use refusal::{Operand, Refusal};

// The answer to a question.
ghost use Rattle.std.specs.Prelude.{◌≡◌, Some};
ghost use Rattle.divide.specs.declared.answer.Unanswered.TheVariants.{Refused};
ghost use Rattle.divide.specs.Answered.{Answered};
ghost use Rattle.divide.specs.Text.{unanswered_text, reply_text};

use crate::question::{Code, Question};
use answers::{Quotient, Refusal};
use ground::Modular;
use std::fmt;
use whole::Whole;

// Why a question has no quotient.
#[derive(Clone, Copy)]
pub enum Unanswered {
    Refused(Refusal),
    NoGround,
}

// A question with its answer.
#[derive(Clone, Copy)]
pub struct Reply {
    pub question: Question,
    pub answer: Result<Quotient, Unanswered>,
}

impl From<Refusal> for Unanswered {
    ghost from_gives = { λ refusal unanswered. unanswered ≡ Refused refusal };

    fn from(refusal: Refusal) -> Unanswered {
        Unanswered::Refused(refusal)
    }
}

impl Question {
    pub fn answer(&self) -> Result<Quotient, Unanswered>
        ensures { Answered self.now result }
    {
        let Question {
            code,
            modulus,
            dividend,
            divisor,
        } = *self;
        match code {
            Code::Whole => Ok(Whole::quotient(modulus, dividend, divisor)?),
            Code::Binary => Err(Unanswered::NoGround),
        }
    }
}

impl fmt::Display for Unanswered {
    ghost output = { λ u. Some (unanswered_text u) };

    fn fmt<W: fmt::Write>(&self, f: &mut fmt::Formatter<W>) -> fmt::Result {
        match self {
            Unanswered::Refused(refusal) => fmt::Display::fmt(refusal, f),
            Unanswered::NoGround => f.write_str("no such ground yet"),
        }
    }
}

impl fmt::Display for Reply {
    ghost output = { λ r. Some (reply_text r) };

    fn fmt<W: fmt::Write>(&self, f: &mut fmt::Formatter<W>) -> fmt::Result {
        let Reply { question, answer } = *self;
        match answer {
            Ok(quotient) => write!(f, "{question} {quotient}"),
            Err(unanswered) => write!(f, "{question} {unanswered}"),
        }
    }
}

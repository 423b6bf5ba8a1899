// How many lines there were, of each kind, and how many steps they took. A count that is full stays so.
ghost use Rattle.std.specs.Prelude.{◌≡◌};
ghost use Rattle.divide.specs.Counts.{up, none_yet, after_line, kind_of, counted};
ghost use Rattle.divide.specs.Text.{tally_text};

use crate::answer::Unanswered;
use answers::{Quotient, Refusal};
use std::fmt;

// What became of a line, and the steps that its division took.
#[derive(Clone, Copy)]
pub enum Kind {
    Served { steps: u32 },
    Refused { steps: u32 },
    Unreadable,
    Groundless,
    Blank,
}

#[derive(Clone, Copy, Default)]
pub struct Tally {
    lines: u64,
    served: u64,
    refused: u64,
    unreadable: u64,
    groundless: u64,
    blank: u64,
    steps: u64,
}

// A refusal that names no steps took none.
impl From<Result<Quotient, Unanswered>> for Kind {
    ghost from_gives = { λ answer kind. kind ≡ kind_of answer };

    fn from(answer: Result<Quotient, Unanswered>) -> Kind {
        match answer {
            Ok(Quotient { steps, .. }) => Kind::Served { steps },
            Err(Unanswered::Refused(Refusal::NotUnit { steps, .. })) => Kind::Refused { steps },
            Err(Unanswered::Refused(_)) => Kind::Refused { steps: 0 },
            Err(Unanswered::NoGround) => Kind::Groundless,
        }
    }
}

fn raise(count: &mut u64, by: u32)
    ensures { count.new ≡ up count.old by }
{
    *count = count.saturating_add(u64::from(by));
}

impl Tally {
    pub fn new() -> Tally
        ensures { result ≡ none_yet }
    {
        Tally::default()
    }

    // A line comes; the answer is its number, from 1.
    pub fn line(&mut self) -> u64
        ensures after { self.new ≡ after_line self.old }
        ensures value { result ≡ up self.old.lines 1 }
    {
        raise(&mut self.lines, 1);
        self.lines
    }

    // The line was of this kind.
    pub fn count(&mut self, kind: Kind)
        ensures { self.new ≡ counted self.old kind }
    {
        match kind {
            Kind::Served { steps } => {
                raise(&mut self.served, 1);
                raise(&mut self.steps, steps);
            }
            Kind::Refused { steps } => {
                raise(&mut self.refused, 1);
                raise(&mut self.steps, steps);
            }
            Kind::Unreadable => raise(&mut self.unreadable, 1),
            Kind::Groundless => raise(&mut self.groundless, 1),
            Kind::Blank => raise(&mut self.blank, 1),
        }
    }
}

impl fmt::Display for Tally {
    ghost output = { tally_text };

    fn fmt<W: fmt::Write>(&self, f: &mut fmt::Formatter<W>) -> fmt::Result {
        let Tally {
            lines,
            served,
            refused,
            unreadable,
            groundless,
            blank,
            steps,
        } = *self;
        write!(
            f,
            "{lines} lines: {served} served, {refused} refused, {unreadable} unreadable, \
             {groundless} with no ground yet, {blank} blank; {steps} steps in all"
        )
    }
}

// A line as a question, or what is wrong with it.
ghost use Rattle.std.specs.Prelude.{◌≡◌, ℕ, [], ◌∷◌, Some, MatchOption, MatchResult, ◌≢◌};
ghost use Rattle.divide.specs.declared.question.Fault.TheVariants.{NotText, NoGround, NoNumber};
ghost use Rattle.divide.specs.Questions.{Words, NotWords, NoCode, Writes, WritesNone, Wrong, Read};
ghost use Rattle.divide.specs.Text.{code_text, question_text, fault_text};

use std::fmt;
use std::str::{Utf8Error, from_utf8};

// A ground by its code: whole numbers, WN, or binary polynomials, BP.
#[derive(Clone, Copy)]
pub enum Code {
    Whole,
    Binary,
}

// What is `dividend` over `divisor`, by `modulus`?
#[derive(Clone, Copy)]
pub struct Question {
    pub code: Code,
    pub modulus: u32,
    pub dividend: u32,
    pub divisor: u32,
}

// Why a line cannot be read. Words are counted from 1.
#[derive(Clone, Copy)]
pub enum Fault<'a> {
    NotText,
    Blank,
    Words { count: usize },
    NoGround { word: &'a str },
    NoNumber { place: u8, word: &'a str },
}

impl From<Utf8Error> for Fault<'_> {
    ghost from_gives = { λ _ fault. fault ≡ NotText };

    fn from(_: Utf8Error) -> Self {
        Fault::NotText
    }
}

impl<'a> TryFrom<&'a [u8]> for Question {
    type Error = Fault<'a>;

    ghost try_from_gives = { λ line answer. Read line.now answer };

    fn try_from(line: &'a [u8]) -> Result<Question, Fault<'a>> {
        Question::try_from(from_utf8(line)?)
    }
}

impl<'a> TryFrom<&'a str> for Question {
    type Error = Fault<'a>;

    ghost try_from_gives = { λ line answer. Read line.now answer };

    fn try_from(line: &'a str) -> Result<Question, Fault<'a>> {
        let Some((code, m, y, x)) = four_words(line) else {
            return Err(miscounted(line));
        };
        Ok(Question {
            code: Code::try_from(code)?,
            modulus: number(2, m)?,
            dividend: number(3, y)?,
            divisor: number(4, x)?,
        })
    }
}

// What is wrong with a line that has not four words.
fn miscounted(line: &str) -> Fault<'_>
    requires { NotWords line.now 4 }
    ensures { Wrong line.now result }
{
    let count = line.split_whitespace().count();
    if count == 0 {
        Fault::Blank
    } else {
        Fault::Words { count }
    }
}

// The words of a line that has just four.
fn four_words(line: &str) -> Option<(&str, &str, &str, &str)>
    ensures { MatchOption result (NotWords line.now 4) (λ w. Words line.now (w.0.now ∷ w.1.now ∷ w.2.now ∷ w.3.now ∷ [])) }
{
    let mut words = line.split_whitespace();
    let four = (words.next()?, words.next()?, words.next()?, words.next()?);
    // not `is_none().then_some(four)`, of which the proof didn't close
    match words.next() {
        None => Some(four),
        Some(_) => None,
    }
}

impl<'a> TryFrom<&'a str> for Code {
    type Error = Fault<'a>;

    ghost try_from_gives = { λ word answer. MatchResult answer (λ c. word.now ≡ code_text c) (λ f. (f ≡ NoGround word) × NoCode word.now) };

    fn try_from(word: &'a str) -> Result<Code, Fault<'a>> {
        match word {
            "WN" => Ok(Code::Whole),
            "BP" => Ok(Code::Binary),
            _ => Err(Fault::NoGround { word }),
        }
    }
}

// The number that a word's digits write. `parse` would take a plus too. No `TryFrom`, which takes one value: the fault tells
// the word's place.
fn number(place: u8, word: &str) -> Result<u32, Fault<'_>>
    ensures { MatchResult result (Writes word.now) (λ f. (f ≡ NoNumber place word.entry) × WritesNone word.now) }
{
    if word.starts_with('+') {
        return Err(Fault::NoNumber { place, word });
    }
    word.parse::<u32>()
        .map_err(|_| Fault::NoNumber { place, word })
}

impl fmt::Display for Code {
    ghost output = { λ c. Some (code_text c) };

    fn fmt<W: fmt::Write>(&self, f: &mut fmt::Formatter<W>) -> fmt::Result {
        match self {
            Code::Whole => f.write_str("WN"),
            Code::Binary => f.write_str("BP"),
        }
    }
}

impl fmt::Display for Question {
    ghost output = { λ q. Some (question_text q) };

    fn fmt<W: fmt::Write>(&self, f: &mut fmt::Formatter<W>) -> fmt::Result {
        let Question {
            code,
            modulus,
            dividend,
            divisor,
        } = *self;
        write!(f, "{code} {modulus} {dividend} {divisor}")
    }
}

// What stands after `line N`.
impl fmt::Display for Fault<'_> {
    ghost output = { fault_text };

    fn fmt<W: fmt::Write>(&self, f: &mut fmt::Formatter<W>) -> fmt::Result {
        match *self {
            Fault::NotText => write!(f, ": not UTF-8 text"),
            Fault::Blank => write!(f, ": no word"),
            Fault::Words { count: 1 } => write!(f, ": 1 word, 4 wanted: CODE M y x"),
            Fault::Words { count } => write!(f, ": {count} words, 4 wanted: CODE M y x"),
            Fault::NoGround { word } => write!(f, ", word 1: {word:?} is no ground (WN or BP)"),
            Fault::NoNumber { place, word } => write!(
                f,
                ", word {place}: {word:?} is no number below 4294967296"
            ),
        }
    }
}

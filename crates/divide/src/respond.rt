// What the program does with a line: it prints the line's answer, or what is wrong with it, and counts it.
ghost use Rattle.divide.specs.Lines.{Counted};

use crate::answer::Reply;
use crate::question::{Fault, Question};
use crate::tally::{Kind, Tally};
use std::io;

// A blank line is counted, and passed over.
pub fn respond(rt: &impl Print, tally: &mut Tally, line: &[u8]) -> io::Result<()>
    ensures { Counted line.now tally.old tally.new }
{
    let number = tally.line();
    match Question::try_from(line) {
        Ok(question) => {
            let answer = question.answer();
            tally.count(Kind::from(answer));
            println!(rt; "{}", Reply { question, answer })
        }
        // no `From` of a fault for its kind: this match also says whether a line is printed
        Err(fault) => match fault {
            Fault::Blank => {
                tally.count(Kind::Blank);
                Ok(())
            }
            _ => {
                tally.count(Kind::Unreadable);
                println!(rt; "line {number}{fault}")
            }
        },
    }
}

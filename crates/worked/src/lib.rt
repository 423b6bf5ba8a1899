// The worked examples: one computed check over the definitions, and the code's own answers.
#![tactic(auto)]

ghost use Rattle.std.specs.Prelude.{◌≡◌, map};
ghost use Rattle.answers.specs.Answers.{told};
ghost use Rattle.worked.specs.Worked.{answers, Worked};

use answers::{Quotient, Refusal};
use ground::Modular;
use whole::Whole;

// The worked divisions on whole numbers, done by the code.
pub fn divisions() -> [Result<Quotient, Refusal>; 3]
    ensures worked { Worked }
    ensures told { map told result ≡ answers }
{
    [
        Whole::quotient(7, 1, 3),
        Whole::quotient(15, 1, 6),
        Whole::quotient(15, 1, 0),
    ]
}

#[cfg(test)]
mod tests {
    use super::*;

    #[test]
    fn divisions_run(rt: HostRuntime) {
        let [third, sixth, none] = divisions();
        assert!(rt; third == Ok(Quotient { value: 5, steps: 3 }));
        assert!(rt;
            sixth
                == Err(Refusal::NotUnit {
                    witness: 3,
                    steps: 3
                })
        );
        assert!(rt;
            none == Err(Refusal::NotUnit {
                witness: 15,
                steps: 0
            })
        );
    }
}

// Two flows, one state each, rows 0 to 3: on row 2, where the steps begin, the arrivals stand in columns 16 and 20, and on
// row 3 the first flow's state stands in column 28.
ghost use Rattle.std.specs.Prelude.{◌≡◌, IfOk};
ghost use Rattle.question_text.specs.Example as example;

use crate::path_tests::says;
use clause_form::Formula;
use linear_form::Rel;
use path_server::{Path, Setting};
use question_text::{Of, QCond, QLin, QTerm, Question};
use run_rows::Shape;
use sqlite_items::Items;
use std::alloc::{AllocError, Global};
use std::test::Fail;
use unroll::question_formulas;
use weighing::{Num, Rel5};
use whole::Pair;

#[tactic(auto, using(whole::proofs::Overflow::signed))]
fn single(alloc: Global, num: i128, of: Of) -> Result<QLin, AllocError>
    ensures { IfOk result (λ lin. lin ≡ example.single num of) }
{
    let coef = Num { num, den: 1 };
    let terms = Items::from_slice(alloc, &[QTerm { coef, of }])?;
    Ok(QLin { terms })
}

fn setting() -> Setting
    ensures { result ≡ example.setting }
{
    Setting {
        flows: 2,
        steps: 1,
        rtt: 1,
        path: Path {
            rate: Pair { num: 1, den: 1 },
            jitter: 0,
            buffer: None,
        },
        budget: 100_000,
    }
}

/// Where both flows together have sent 5 on the opening row, the first flow's state is at most 1 a step later.
fn question(alloc: Global) -> Result<Question, AllocError>
    ensures { IfOk result (λ q. q ≡ example.question) }
{
    let sent = single(alloc, 1, Of::A(0, 0))?;
    let five = single(alloc, 5, Of::One)?;
    let mut assumes = Items::new(alloc);
    assumes.push(QCond::Cmp(sent, Rel5::Equal, five))?;
    let state = single(alloc, 1, Of::X(0, 1, 1))?;
    let one = single(alloc, 1, Of::One)?;
    Ok(Question {
        setting: setting(),
        assumes,
        require: QCond::Cmp(state, Rel5::AtMost, one),
    })
}

/// The formulas of the question.
fn made(alloc: Global) -> Result<Vec<Formula>, Fail> {
    let question = question(alloc)?;
    let shape = Shape {
        flows: 2,
        states: 1,
        h: 2,
        t: 1,
    };
    match question_formulas(alloc, &question, &shape) {
        Ok(formulas) => Ok(formulas),
        Err(_) => Err(Fail::from("no memory")),
    }
}

#[test]
fn the_assumption_comes_before_the_negated_requirement(rt: HostRuntime) -> Result<(), Fail> {
    let made = made(rt.alloc())?;
    assert_eq!(rt; made.len(), 2);
    match &made[0] {
        Formula::And(parts) => {
            assert_eq!(rt; parts.len(), 2);
            assert!(rt; says(&parts[0], &[(16, 1), (20, 1)], -5, Rel::AtMost));
            assert!(rt; says(&parts[1], &[(16, 1), (20, 1)], -5, Rel::AtLeast));
        }
        _ => assert!(rt; false),
    }
    match &made[1] {
        Formula::Not(part) => assert!(rt; says(part, &[(28, 1)], -1, Rel::AtMost)),
        _ => assert!(rt; false),
    }
    Ok(())
}

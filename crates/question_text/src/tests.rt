//! The call on a small question whose answers are found by hand.
ghost use Rattle.std.specs.Prelude.{◌≡◌, IfOk};
ghost use Rattle.question_text.specs.Example as example;

use crate::{Of, QCond, QLin, QTerm, Question, violates};
use ctrl_syntax::{Num, Rel5};
use path_server::{Path, Setting};
use run_rows::{FlowRow, Row, Run, Shape};
use sqlite_items::Items;
use std::alloc::{AllocError, Global};
use std::test::Fail;
use whole::{Op, Pair, Place, Stuck};

#[tactic(auto, using(whole::proofs::Overflow::signed))]
fn single(alloc: Global, num: i128, of: Of) -> Result<QLin, AllocError>
    ensures { IfOk result (λ lin. lin ≡ example.single num of) }
{
    let coef = Num { num, den: 1 };
    let terms = Items::from_slice(alloc, &[QTerm { coef, of }])?;
    Ok(QLin { terms })
}

fn setting() -> Setting
    ensures { result ≡ example.setting }
{
    Setting {
        flows: 2,
        steps: 1,
        rtt: 1,
        path: Path {
            rate: Pair { num: 1, den: 1 },
            jitter: 0,
            buffer: None,
        },
        budget: 100_000,
    }
}

/// Where both flows together have sent 5 on the opening row, the first flow's state is at most 1 a step later.
fn question(alloc: Global) -> Result<Question, AllocError>
    ensures { IfOk result (λ q. q ≡ example.question) }
{
    let sent = single(alloc, 1, Of::A(0, 0))?;
    let five = single(alloc, 5, Of::One)?;
    let mut assumes = Items::new(alloc);
    assumes.push(QCond::Cmp(sent, Rel5::Equal, five))?;
    let state = single(alloc, 1, Of::X(0, 1, 1))?;
    let one = single(alloc, 1, Of::One)?;
    Ok(Question {
        setting: setting(),
        assumes,
        require: QCond::Cmp(state, Rel5::AtMost, one),
    })
}

/// A row of two flows, each with these states, that have sent so much.
fn row(alloc: Global, sent: (i128, i128), states: &[i128]) -> Result<Row, AllocError> {
    let mut flows = Items::new(alloc);
    for a in [sent.0, sent.1] {
        let x = Items::from_slice(alloc, states)?;
        flows.push(FlowRow { a, s: 0, l: 0, x })?;
    }
    Ok(Row { w: 0, flows })
}

/// Whether the run with this denominator whose states end so violates the question.
fn answer(alloc: Global, over: i128, last: i128) -> Result<Result<bool, Stuck>, Fail> {
    let question = question(alloc)?;
    let mut rows = Items::new(alloc);
    rows.push(row(alloc, (0, 0), &[])?)?;
    rows.push(row(alloc, (1, 1), &[])?)?;
    rows.push(row(alloc, (2, 3), &[1])?)?;
    rows.push(row(alloc, (3, 4), &[last])?)?;
    let run = Run {
        over,
        credit: 0,
        rows,
    };
    let shape = Shape {
        flows: 2,
        states: 1,
        h: 2,
        t: 1,
    };
    if !run.fits(&shape) {
        return Err(Fail::from("the run has another shape"));
    }
    Ok(violates(&question, &run))
}

#[test]
fn a_run_violates_where_the_assumption_holds_and_the_requirement_does_not(
    rt: HostRuntime,
) -> Result<(), Fail> {
    assert_eq!(rt; answer(rt.alloc(), 1, 2)?, Ok(true));
    assert_eq!(rt; answer(rt.alloc(), 1, 1)?, Ok(false));
    assert_eq!(rt; answer(rt.alloc(), 2, 4)?, Ok(false));
    Ok(())
}

#[test]
fn a_product_that_overflows_is_named(rt: HostRuntime) -> Result<(), Fail> {
    let over = 1 << 126;
    let stuck = Stuck {
        place: Place::Replay,
        at: 3,
        by: 0,
        op: Op::Product,
        left: Pair { num: -5, den: 1 },
        right: Pair { num: over, den: 1 },
    };
    assert_eq!(rt; answer(rt.alloc(), over, 1)?, Err(stuck));
    Ok(())
}

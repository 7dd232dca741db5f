ghost use Rattle.std.specs.Prelude.{◌≡◌, IfOk};
ghost use Rattle.trace_replay.specs.Example as example;

use super::*;
use ctrl_types::{Controller, Gate, Lin, LinTerm, Rule, Source};
use path_server::{Path, Setting};
use question_text::{QCond, Question};
use run_rows::{FlowRow, Row, Run};
use sqlite_items::Items;
use std::alloc::{AllocError, Global};
use std::test::Fail;
use weighing::Num;
use whole::Pair;

/// A controller without states that lets two be under way.
#[tactic(auto, using(whole::proofs::Overflow::signed))]
fn controller(alloc: Global) -> Result<Controller, AllocError>
    ensures { IfOk result (λ c. c ≡ example.controller) }
{
    let coef = Num { num: 2, den: 1 };
    let of = Source::One;
    let terms = Items::from_slice(alloc, &[LinTerm { coef, of }])?;
    let mut rules = Items::new(alloc);
    rules.push(Rule {
        guard: Gate::True,
        sets: Items::new(alloc),
    })?;
    Ok(Controller {
        states: Items::new(alloc),
        rules,
        window: Lin { terms },
        rate: None,
        delay_max: 0,
        den: 1,
    })
}

/// A question of one step, whose requirement is false.
fn question(alloc: Global) -> Question
    ensures { result ≡ example.question }
{
    Question {
        setting: Setting {
            flows: 1,
            steps: 1,
            rtt: 1,
            path: Path {
                rate: Pair { num: 1, den: 1 },
                jitter: 0,
                buffer: None,
            },
            budget: 100_000,
        },
        assumes: Items::new(alloc),
        require: QCond::False,
    }
}

/// What comes of replaying one flow's run with these arrivals, of which one is served in each step.
fn replayed(alloc: Global, arrivals: &[i128]) -> Result<Replayed, AllocError> {
    let controller = controller(alloc)?;
    let question = question(alloc);
    let mut rows = Items::new(alloc);
    for (i, a) in arrivals.iter().enumerate() {
        let mut flows = Items::new(alloc);
        flows.push(FlowRow {
            a: *a,
            s: i as i128,
            l: 0,
            x: Items::new(alloc),
        })?;
        rows.push(Row { w: 0, flows })?;
    }
    let run = Run {
        over: 1,
        credit: 0,
        rows,
    };
    Ok(replay(&controller, &question, &run))
}

#[test]
fn a_run_of_the_controller_is_replayed(rt: HostRuntime) -> Result<(), Fail> {
    let broken = |rule, row, flow| Replayed::Broken { rule, row, flow };
    assert_eq!(rt; replayed(rt.alloc(), &[2, 2, 3, 4])?, Replayed::Violating);
    assert_eq!(rt;
        replayed(rt.alloc(), &[2, 2, 3, 5])?,
        broken(RunRule::Send, 3, 1)
    );
    assert_eq!(rt;
        replayed(rt.alloc(), &[0, 0, 3, 5])?,
        broken(RunRule::P(2), 1, 1)
    );
    assert_eq!(rt;
        replayed(rt.alloc(), &[2, 2, 3])?,
        broken(RunRule::Shape, 0, 0)
    );
    Ok(())
}

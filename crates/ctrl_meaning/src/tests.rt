//! The calls on a small controller whose answers are found by hand.
ghost use Rattle.std.specs.Prelude.{◌≡◌, IfOk};
ghost use Rattle.run_rows.specs.Runs.{IsEntry};
ghost use Rattle.ctrl_meaning.specs.Example as example;

use crate::{OpeningHolds, StepHolds, opening_holds, step_holds};
use ctrl_types::{Controller, Gate, Kind, Lin, LinTerm, Rule, Source, State};
use path_server::{Path, Setting};
use run_rows::{FlowRow, Row, Run};
use sqlite_items::Items;
use std::alloc::{AllocError, Global};
use weighing::{Num, Rel5};
use whole::Pair;

#[tactic(auto, using(whole::proofs::Overflow::signed))]
fn single(alloc: Global, num: i128, of: Source) -> Result<Lin, AllocError>
    ensures { IfOk result (λ lin. lin ≡ example.single num of) }
{
    let coef = Num { num, den: 1 };
    let terms = Items::from_slice(alloc, &[LinTerm { coef, of }])?;
    Ok(Lin { terms })
}

fn when_heard(alloc: Global, value: i128) -> Result<Rule, AllocError>
    ensures { IfOk result (λ rule. rule ≡ example.when_heard value) }
{
    let acked = single(alloc, 1, Source::Acked)?;
    let nothing = single(alloc, 0, Source::One)?;
    let mut sets = Items::new(alloc);
    sets.push(Some(single(alloc, value, Source::One)?))?;
    let guard = Gate::Cmp(acked, Rel5::AtLeast, nothing);
    Ok(Rule { guard, sets })
}

fn otherwise(alloc: Global) -> Result<Rule, AllocError>
    ensures { IfOk result (λ rule. rule ≡ example.otherwise) }
{
    let mut sets = Items::new(alloc);
    sets.push(None)?;
    Ok(Rule {
        guard: Gate::True,
        sets,
    })
}

fn states(alloc: Global) -> Result<Items<State>, AllocError>
    ensures { IfOk result (λ states. states ≡ example.controller.states) }
{
    let bound = Num { num: 2, den: 1 };
    let mut states = Items::new(alloc);
    states.push(State {
        name: Items::from_slice(alloc, b"cwnd")?,
        kind: Kind::Amount,
        lo: bound,
        hi: bound,
    })?;
    Ok(states)
}

fn controller(alloc: Global) -> Result<Controller, AllocError>
    ensures { IfOk result (λ c. c ≡ example.controller) }
{
    let mut rules = Items::new(alloc);
    rules.push(when_heard(alloc, 3)?)?;
    rules.push(when_heard(alloc, 4)?)?;
    rules.push(otherwise(alloc)?)?;
    Ok(Controller {
        states: states(alloc)?,
        rules,
        window: single(alloc, 1, Source::State(0))?,
        rate: None,
        delay_max: 0,
        den: 1,
    })
}

fn setting() -> Setting
    ensures { result ≡ example.setting }
{
    Setting {
        flows: 1,
        steps: 1,
        rtt: 1,
        path: Path {
            rate: Pair { num: 1, den: 1 },
            jitter: 0,
            buffer: None,
        },
        budget: 100_000,
    }
}

fn one_flow(alloc: Global, a: i128, s: i128, x: Items<i128>) -> Result<Row, AllocError>
    ensures { IfOk result (λ row. row ≡ example.one_flow a s x) }
{
    let mut flows = Items::new(alloc);
    flows.push(FlowRow { a, s, l: 0, x })?;
    Ok(Row { w: 0, flows })
}

fn run(alloc: Global, opens: i128, a: i128, x: i128) -> Result<Run, AllocError>
    ensures { IfOk result (λ run. run ≡ example.run opens a x) }
{
    let mut rows = Items::new(alloc);
    rows.push(one_flow(alloc, 2, 0, Items::new(alloc))?)?;
    rows.push(one_flow(alloc, 2, 1, Items::new(alloc))?)?;
    rows.push(one_flow(alloc, 3, 2, Items::from_slice(alloc, &[opens])?)?)?;
    rows.push(one_flow(alloc, a, 3, Items::from_slice(alloc, &[x])?)?)?;
    Ok(Run {
        over: 1,
        credit: 0,
        rows,
    })
}

/// What is answered of the opening row and of the step, where the state opens so and the row after it ends so.
fn answers(
    alloc: Global,
    opens: i128,
    a: i128,
    x: i128,
) -> Result<(OpeningHolds, StepHolds), AllocError>
    requires opens_in { IsEntry opens }
    requires a_in { IsEntry a }
    requires x_in { IsEntry x }
{
    let controller = controller(alloc)?;
    let setting = setting();
    let run = run(alloc, opens, a, x)?;
    let opening = opening_holds(&controller, &setting, &run, 1);
    let step = step_holds(&controller, &setting, &run, 3, 1);
    Ok((opening, step))
}

#[test]
fn the_first_rule_whose_guard_holds_gives_the_state(rt: HostRuntime) -> Result<(), AllocError> {
    let (opening, step) = answers(rt.alloc(), 2, 5, 3)?;
    assert_eq!(rt; opening, OpeningHolds::Yes);
    assert_eq!(rt; step, StepHolds::Yes { rule: 0 });
    let (_, second_rule) = answers(rt.alloc(), 2, 6, 4)?;
    assert_eq!(rt; second_rule, StepHolds::State { state: 0 });
    let (_, too_much) = answers(rt.alloc(), 2, 6, 3)?;
    assert_eq!(rt; too_much, StepHolds::Arrival);
    let (out_of_range, _) = answers(rt.alloc(), 3, 5, 3)?;
    assert_eq!(rt; out_of_range, OpeningHolds::State { state: 0 });
    Ok(())
}

// One flow, one state, rows 0 to 3. The state stands in column 13 on row 2, which is the opening row, and in column 18 on
// row 3; the arrivals stand in columns 10 and 15 there, the service in columns 7 and 11 on rows 1 and 2.
ghost use Rattle.std.specs.Prelude.{◌≡◌, ◌≤◌, IfOk};
ghost use Rattle.ctrl_meaning.specs.Example as example;

use crate::path_tests::says;
use clause_form::Formula;
use ctrl_types::{Controller, Gate, Kind, Lin, LinTerm, Rule, Source, State};
use linear_form::Rel;
use path_server::{Path, Setting};
use question_text::{QCond, Question};
use sqlite_items::Items;
use std::alloc::{AllocError, Global};
use std::test::Fail;
use unroll::flow_row;
use weighing::{Num, Rel5};
use whole::Pair;

#[tactic(auto, using(whole::proofs::Overflow::signed))]
fn single(alloc: Global, num: i128, of: Source) -> Result<Lin, AllocError>
    ensures { IfOk result (λ lin. lin ≡ example.single num of) }
{
    let coef = Num { num, den: 1 };
    let terms = Items::from_slice(alloc, &[LinTerm { coef, of }])?;
    Ok(Lin { terms })
}

fn when_heard(alloc: Global, value: i128) -> Result<Rule, AllocError>
    ensures { IfOk result (λ rule. rule ≡ example.when_heard value) }
{
    let acked = single(alloc, 1, Source::Acked)?;
    let nothing = single(alloc, 0, Source::One)?;
    let mut sets = Items::new(alloc);
    sets.push(Some(single(alloc, value, Source::One)?))?;
    let guard = Gate::Cmp(acked, Rel5::AtLeast, nothing);
    Ok(Rule { guard, sets })
}

fn otherwise(alloc: Global) -> Result<Rule, AllocError>
    ensures { IfOk result (λ rule. rule ≡ example.otherwise) }
{
    let mut sets = Items::new(alloc);
    sets.push(None)?;
    Ok(Rule {
        guard: Gate::True,
        sets,
    })
}

fn states(alloc: Global) -> Result<Items<State>, AllocError>
    ensures { IfOk result (λ states. states ≡ example.controller.states) }
{
    let bound = Num { num: 2, den: 1 };
    let mut states = Items::new(alloc);
    states.push(State {
        name: Items::from_slice(alloc, b"cwnd")?,
        kind: Kind::Amount,
        lo: bound,
        hi: bound,
    })?;
    Ok(states)
}

/// A state from 2 to 2; the first rule that hears of service sets it to 3, the second to 4; the window is the state.
fn controller(alloc: Global) -> Result<Controller, AllocError>
    ensures { IfOk result (λ c. c ≡ example.controller) }
{
    let mut rules = Items::new(alloc);
    rules.push(when_heard(alloc, 3)?)?;
    rules.push(when_heard(alloc, 4)?)?;
    rules.push(otherwise(alloc)?)?;
    Ok(Controller {
        states: states(alloc)?,
        rules,
        window: single(alloc, 1, Source::State(0))?,
        rate: None,
        delay_max: 0,
        den: 1,
    })
}

fn setting() -> Setting
    ensures { result ≡ example.setting }
{
    Setting {
        flows: 1,
        steps: 1,
        rtt: 1,
        path: Path {
            rate: Pair { num: 1, den: 1 },
            jitter: 0,
            buffer: None,
        },
        budget: 100_000,
    }
}

/// The formulas of a row.
fn made(alloc: Global, row: u32, free: bool) -> Result<Vec<Formula>, Fail>
    requires { row ≤ 3 }
{
    let controller = controller(alloc)?;
    let question = Question {
        setting: setting(),
        assumes: Items::new(alloc),
        require: QCond::False,
    };
    match flow_row(alloc, &controller, &question, row, free) {
        Ok(formulas) => Ok(formulas),
        Err(_) => Err(Fail::from("no memory")),
    }
}

#[test]
fn the_opening_row_has_two_formulas_a_state_unless_it_is_free(rt: HostRuntime) -> Result<(), Fail> {
    let opening = made(rt.alloc(), 2, false)?;
    assert_eq!(rt; opening.len(), 2);
    assert!(rt; says(&opening[0], &[(13, 1)], -2, Rel::AtLeast));
    assert!(rt; says(&opening[1], &[(13, 1)], -2, Rel::AtMost));
    assert_eq!(rt; made(rt.alloc(), 2, true)?.len(), 0);
    assert_eq!(rt; made(rt.alloc(), 1, false)?.len(), 0);
    Ok(())
}

#[test]
fn the_rules_of_a_controlled_row_come_before_what_is_sent(rt: HostRuntime) -> Result<(), Fail> {
    let rules = made(rt.alloc(), 3, true)?;
    assert_eq!(rt; rules.len(), 4);
    assert!(rt; is_rule(&rules[0], 0, false, &[(18, 1)], -3));
    assert!(rt; is_rule(&rules[1], 1, false, &[(18, 1)], -4));
    assert!(rt; is_rule(&rules[2], 2, true, &[(18, 1), (13, -1)], 0));
    assert!(rt; is_sent(&rules[3]));
    Ok(())
}

// Whether it says that the rule doesn't fire, or that the state is what it gives.
fn is_rule(
    formula: &Formula,
    before: usize,
    last: bool,
    terms: &[(u32, i128)],
    constant: i128,
) -> bool {
    match formula {
        Formula::Or(parts) if parts.len() == 2 => {
            is_not_fired(&parts[0], before, last) && is_set(&parts[1], terms, constant)
        }
        _ => false,
    }
}

// Whether it says that one of so many guards before holds, or that the rule's own guard doesn't.
fn is_not_fired(formula: &Formula, before: usize, last: bool) -> bool {
    match formula {
        Formula::Not(part) => is_fired(part, before, last),
        _ => false,
    }
}

fn is_fired(formula: &Formula, before: usize, last: bool) -> bool {
    match formula {
        Formula::And(parts) => {
            let mut same = true;
            let mut place = 0;
            for part in parts {
                same = same
                    && if place < before {
                        is_unheard(part)
                    } else {
                        is_own(part, last)
                    };
                place = place.saturating_add(1);
            }
            same && parts.len() > before
        }
        _ => false,
    }
}

fn is_own(formula: &Formula, last: bool) -> bool {
    if last {
        return matches!(formula, Formula::True);
    }
    is_heard(formula)
}

fn is_unheard(formula: &Formula) -> bool {
    match formula {
        Formula::Not(part) => is_heard(part),
        _ => false,
    }
}

// Whether it says that what was served from row 1 to row 2 is at least 0.
fn is_heard(formula: &Formula) -> bool {
    says(formula, &[(11, 1), (7, -1)], 0, Rel::AtLeast)
}

// Whether it says of the one state that this sum is 0.
fn is_set(formula: &Formula, terms: &[(u32, i128)], constant: i128) -> bool {
    match formula {
        Formula::And(parts) if parts.len() == 1 => is_equation(&parts[0], terms, constant),
        _ => false,
    }
}

fn is_equation(formula: &Formula, terms: &[(u32, i128)], constant: i128) -> bool {
    match formula {
        Formula::And(parts) if parts.len() == 2 => {
            says(&parts[0], terms, constant, Rel::AtMost)
                && says(&parts[1], terms, constant, Rel::AtLeast)
        }
        _ => false,
    }
}

const GROWTH: [(u32, i128); 2] = [(15, 1), (10, -1)];

const EXCESS: [(u32, i128); 4] = [(15, 1), (11, -1), (12, -1), (18, -1)];

// Whether it says that what was sent is at least 0 and fills the window, and that one of the two is no more.
fn is_sent(formula: &Formula) -> bool {
    match formula {
        Formula::And(parts) if parts.len() == 3 => {
            says(&parts[0], &GROWTH, 0, Rel::AtLeast)
                && says(&parts[1], &EXCESS, 0, Rel::AtLeast)
                && is_one(&parts[2])
        }
        _ => false,
    }
}

fn is_one(formula: &Formula) -> bool {
    match formula {
        Formula::Or(parts) if parts.len() == 2 => {
            says(&parts[0], &GROWTH, 0, Rel::AtMost) && says(&parts[1], &EXCESS, 0, Rel::AtMost)
        }
        _ => false,
    }
}

use crate::{JudgeFault, Verdict, judge};
use clause_form::What;
use run_rows::Run;
use std::test::Fail;
use whole::Refusal;

const FIXED_WINDOW: &[u8] =
    b"ccac-controller 1\nstate cwnd data init 2 2\nrule otherwise\nwindow cwnd\nend\n";

const EIGHT_STATES: &[u8] =
    b"ccac-controller 1\nstate a data init 0 1\nstate b data init 0 1\nstate c data init 0 1\nstate d data init 0 1\nstate e data init 0 1\nstate f data init 0 1\nstate g data init 0 1\nstate h data init 0 1\nrule otherwise\nwindow 1\nend\n";

/// The path serves at a rate of 1 exactly, and the question wants 2 in one step.
const FASTER: &[u8] =
    b"ccac-question 1\nflows 1\nsteps 1\nrate 1\njitter 0\nrtt 1\nbuffer none\nbudget 100000\nrequire S@1 - S@0 >= 2\nend\n";

const STEADY: &[u8] =
    b"ccac-question 1\nflows 1\nsteps 1\nrate 1\njitter 0\nrtt 1\nbuffer none\nbudget 100000\nrequire S@1 - S@0 <= 1\nend\n";

/// The same question, with one move.
const HURRIED: &[u8] =
    b"ccac-question 1\nflows 1\nsteps 1\nrate 1\njitter 0\nrtt 1\nbuffer none\nbudget 1\nrequire S@1 - S@0 <= 1\nend\n";

/// The service may lag by a step, and then catch up.
const SMOOTH: &[u8] =
    b"ccac-question 1\nflows 1\nsteps 1\nrate 1\njitter 1\nrtt 1\nbuffer none\nbudget 100000\nrequire S@1 - S@0 <= 1\nend\n";

const FOUR_FLOWS: &[u8] =
    b"ccac-question 1\nflows 4\nsteps 32\nrate 1\njitter 0\nrtt 1\nbuffer none\nbudget 100000\nrequire true\nend\n";

/// What the flow is served in the one step of a run.
fn served(run: &Run) -> Option<i128> {
    let rows = run.rows.as_slice();
    let before = rows.get(2)?.flows.as_slice().first()?.s;
    let after = rows.get(3)?.flows.as_slice().first()?.s;
    after.checked_sub(before)
}

#[test]
fn a_violation_comes_with_a_run(rt: HostRuntime) -> Result<(), Fail> {
    for (question, is_smooth) in [(FASTER, false), (SMOOTH, true)] {
        match judge(rt.alloc(), FIXED_WINDOW, question)? {
            Verdict::Violated(shape, run) => {
                assert_eq!(rt; (shape.h, shape.t), (2, 1));
                match served(&run) {
                    Some(served) => assert_eq!(rt; served > run.over, is_smooth),
                    None => return Err(Fail::from("no service")),
                }
            }
            _ => return Err(Fail::from("no run")),
        }
    }
    Ok(())
}

/// There are a credit, and on each of 4 rows the waste, the arrivals, the service and the loss, and a state on 2 of them.
#[test]
fn what_no_run_violates_is_verified(rt: HostRuntime) -> Result<(), Fail> {
    match judge(rt.alloc(), FIXED_WINDOW, STEADY)? {
        Verdict::Verified(cert) => assert_eq!(rt; cert.columns, 19),
        _ => return Err(Fail::from("no certificate")),
    }
    Ok(())
}

/// The first clause has one literal, so the first move propagates it.
#[test]
fn a_budget_of_one_move_is_spent(rt: HostRuntime) -> Result<(), Fail> {
    match judge(rt.alloc(), FIXED_WINDOW, HURRIED)? {
        Verdict::Budget(spent) => {
            assert_eq!(rt; spent.budget.limit, 1);
            assert_eq!(rt;
                (
                    spent.budget.decisions,
                    spent.budget.propagations,
                    spent.budget.pivots
                ),
                (0, 1, 0)
            );
            assert_eq!(rt; spent.journal.moves.len(), 1);
        }
        _ => return Err(Fail::from("not spent")),
    }
    Ok(())
}

/// A controller, a question, and why there is no verdict.
const FAULTS: [(&[u8], &[u8], JudgeFault); 3] = [
    (
        b"",
        b"",
        JudgeFault::Controller(Refusal {
            letter: b'G',
            number: 1,
            line: 1,
        }),
    ),
    (
        FIXED_WINDOW,
        b"",
        JudgeFault::Question(Refusal {
            letter: b'Q',
            number: 1,
            line: 1,
        }),
    ),
    (
        EIGHT_STATES,
        FOUR_FLOWS,
        JudgeFault::Large {
            what: What::Forms,
            limit: 2048,
        },
    ),
];

#[test]
fn what_is_refused_is_named(rt: HostRuntime) {
    for (controller, question, fault) in FAULTS {
        let found = judge(rt.alloc(), controller, question);
        assert_eq!(rt; found.err(), Some(fault));
    }
}

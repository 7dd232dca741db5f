// Whole problems: how many columns, forms, atoms and clauses some texts give, and their first and last clauses.
ghost use Rattle.std.specs.Prelude.{◌<◌, ◌^◌, ◌-◌, length};

use clause_form::{BuildFault, What};
use farkas_cert::Lit;
use std::alloc::Global;
use std::test::Fail;
use unroll::{Problem, unroll};

const HELD: &[u8] =
    b"ccac-controller 1\nstate cwnd data init 2 2\nrule otherwise\nwindow cwnd\nend\n";

const ASKED: &[u8] =
    b"ccac-question 1\nflows 1\nsteps 1\nrate 1\njitter 0\nrtt 1\nbuffer none\nbudget 100000\nrequire true\nend\n";

const MORE_AND_LESS: &[u8] =
    b"ccac-controller 1\nstate cwnd data init 1 4\nrule when lost > 0\nset cwnd = 1/2 * cwnd\nrule when acked > 0\nset cwnd = cwnd + 1/10\nrule otherwise\nwindow cwnd\nend\n";

const SOME_IS_SERVED: &[u8] =
    b"ccac-question 1\nflows 1\nsteps 10\nrate 1\njitter 1\nrtt 1\nbuffer 2\nbudget 2000\nrequire S@10 - S@0 >= 1/100\nend\n";

const EIGHT_STATES: &[u8] =
    b"ccac-controller 1\nstate a data init 0 1\nstate b data init 0 1\nstate c data init 0 1\nstate d data init 0 1\nstate e data init 0 1\nstate f data init 0 1\nstate g data init 0 1\nstate h data init 0 1\nrule otherwise\nwindow 1\nend\n";

const FOUR_FLOWS: &[u8] =
    b"ccac-question 1\nflows 4\nsteps 32\nrate 1\njitter 0\nrtt 1\nbuffer none\nbudget 100000\nrequire true\nend\n";

// What becomes of the texts, where they are a controller and a question.
fn problem(alloc: Global, controller: &[u8], question: &[u8]) -> Option<Result<Problem, BuildFault>>
    requires controller_to { length controller.now < 2 ^ 32 - 1 }
    requires question_to { length question.now < 2 ^ 32 - 1 }
{
    let Ok(syntax) = ctrl_syntax::read(alloc, controller) else {
        return None;
    };
    let Ok(controller) = ctrl_types::resolve(alloc, &syntax) else {
        return None;
    };
    let Ok(question) = question_text::read(alloc, question, &controller) else {
        return None;
    };
    Some(unroll(alloc, &controller, &question))
}

// Whether the clause is of this literal alone.
fn is_unit(clause: &[Lit], atom: u32, positive: bool) -> bool {
    match clause {
        [lit] => lit.atom == atom && lit.positive == positive,
        _ => false,
    }
}

#[test]
fn a_window_that_is_held_for_a_step(rt: HostRuntime) -> Result<(), Fail> {
    match problem(rt.alloc(), HELD, ASKED) {
        Some(Ok(made)) => {
            let clauses = made.clauses;
            assert_eq!(rt; clauses.columns, 19);
            assert_eq!(rt; clauses.forms.len(), 28);
            assert_eq!(rt; clauses.atoms.len(), 54);
            assert_eq!(rt; clauses.clauses.len(), 52);
            let all = clauses.clauses.as_slice();
            assert!(rt; is_unit(all[0].as_slice(), 0, true));
            assert!(rt; is_unit(all[1].as_slice(), 1, false));
            assert!(rt; all[51].is_empty());
        }
        _ => assert!(rt; false),
    }
    Ok(())
}

#[test]
fn a_window_that_grows_and_is_halved(rt: HostRuntime) -> Result<(), Fail> {
    match problem(rt.alloc(), MORE_AND_LESS, SOME_IS_SERVED) {
        Some(Ok(made)) => {
            assert_eq!(rt; made.clauses.columns, 64);
            assert_eq!(rt; made.clauses.forms.len(), 154);
        }
        _ => assert!(rt; false),
    }
    Ok(())
}

#[test]
fn four_flows_of_eight_states_have_too_many_forms(rt: HostRuntime) -> Result<(), Fail> {
    match problem(rt.alloc(), EIGHT_STATES, FOUR_FLOWS) {
        Some(Err(BuildFault::Large { what, limit })) => {
            assert_eq!(rt; what, What::Forms);
            assert_eq!(rt; limit, 2_048);
        }
        _ => assert!(rt; false),
    }
    Ok(())
}

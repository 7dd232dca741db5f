use crate::{AskFault, ask};
use std::test::Fail;
use whole::Refusal;

const FIXED_WINDOW: &str =
    "ccac-controller 1\nstate cwnd data init 2 2\nrule otherwise\nwindow cwnd\nend\n";

const FASTER: &str =
    "ccac-question 1\nflows 1\nsteps 1\nrate 1\njitter 0\nrtt 1\nbuffer none\nbudget 100000\nrequire S@1 - S@0 >= 2\nend\n";

const TOO_LATE: &str =
    "ccac-question 1\nflows 1\nsteps 1\nrate 1\njitter 0\nrtt 1\nbuffer none\nbudget 100000\nrequire S@2 >= 0\nend\n";

#[test]
fn both_texts_are_read(rt: HostRuntime) -> Result<(), Fail> {
    let asked = ask(rt.alloc(), FIXED_WINDOW.as_bytes(), FASTER.as_bytes())?;
    assert_eq!(rt; asked.controller.states.len(), 1);
    assert_eq!(rt; asked.question.setting.budget, 100_000);
    Ok(())
}

/// A controller, a question, and the fault to which reading them comes.
const FAULTS: [(&str, &str, AskFault); 3] = [
    (
        "",
        "",
        AskFault::Controller(Refusal {
            letter: b'G',
            number: 1,
            line: 1,
        }),
    ),
    (
        FIXED_WINDOW,
        "",
        AskFault::Question(Refusal {
            letter: b'Q',
            number: 1,
            line: 1,
        }),
    ),
    (
        FIXED_WINDOW,
        TOO_LATE,
        AskFault::Question(Refusal {
            letter: b'Q',
            number: 12,
            line: 9,
        }),
    ),
];

#[test]
fn the_first_that_is_refused_is_named(rt: HostRuntime) {
    for (controller, question, fault) in FAULTS {
        let found = ask(rt.alloc(), controller.as_bytes(), question.as_bytes());
        assert_eq!(rt; found.err(), Some(fault));
    }
}

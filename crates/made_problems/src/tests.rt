//! Numbers of some drawn problems, drawn apart from the program in the stated order.
use crate::ask_drawn;
use std::test::Fail;

/// Seed and size; the states and the rules of the controller, and the flows, the steps and the rtt of the question.
const DRAWN: [(u64, u32, usize, usize, u32, u32, u32); 3] = [
    (35, 32, 1, 3, 1, 32, 1),
    (7, 1, 3, 2, 1, 1, 2),
    (18_446_744_073_709_551_615, 8, 3, 3, 1, 8, 2),
];

#[test]
fn drawn_problems_are_read(rt: HostRuntime) -> Result<(), Fail> {
    for (seed, size, states, rules, flows, steps, rtt) in DRAWN {
        if size < 1 || 32 < size {
            return Err(Fail::from("no such size"));
        }
        match ask_drawn(rt.alloc(), seed, size) {
            Ok(asked) => {
                assert_eq!(rt; asked.controller.states.len(), states);
                assert_eq!(rt; asked.controller.rules.len(), rules);
                assert_eq!(rt; asked.question.setting.flows, flows);
                assert_eq!(rt; asked.question.setting.steps, steps);
                assert_eq!(rt; asked.question.setting.rtt, rtt);
            }
            Err(_) => return Err(Fail::from("memory ran out")),
        }
    }
    Ok(())
}

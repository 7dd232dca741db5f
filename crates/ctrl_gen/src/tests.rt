//! Texts of some seeds, drawn apart from the program in the stated order.
ghost use Rattle.std.specs.Prelude.{◌≤◌};

use crate::make;
use std::test::Fail;

const NO_BUFFER_CONTROLLER: &str = "ccac-controller 1
state s1 data init 1 2
rule when delay >= 2
set s1 = s1 + 2
rule when acked > 3
set s1 = 1/3 * s1 + 1
rule otherwise
window s1
end
";

const NO_BUFFER_QUESTION: &str = "ccac-question 1
flows 1
steps 32
rate 1
jitter 2
rtt 1
buffer none
budget 2000
require S@32 - S@0 >= 0
end
";

const THREE_STATES_CONTROLLER: &str = "ccac-controller 1
state s1 data init 2 4
state s2 data init 2 2
state s3 data init 2 3
rule when lost > 0
set s1 = 3 * s1 + 0/3
set s2 = 1/4 * s2 + 0/4
set s3 = 2/2 * s3 + 1/3
rule otherwise
window s1
end
";

const THREE_STATES_QUESTION: &str = "ccac-question 1
flows 1
steps 1
rate 1
jitter 2
rtt 2
buffer 1
budget 2000
require S@1 - S@0 >= 2
end
";

const GREATEST_SEED_CONTROLLER: &str = "ccac-controller 1
state s1 data init 1 3
state s2 data init 1 3
state s3 data init 2 4
rule when delay >= 1
set s1 = 2/3 * s1 + 1/2
set s2 = 2/3 * s2 + 0/2
set s3 = 3/2 * s3 + 1/2
rule when lost > 0
set s1 = 3/2 * s1 + 1/4
set s2 = 2/3 * s2 + 2/4
set s3 = 1/2 * s3 + 0
rule otherwise
window s1
end
";

const GREATEST_SEED_QUESTION: &str = "ccac-question 1
flows 1
steps 8
rate 1
jitter 2
rtt 2
buffer none
budget 2000
require S@8 - S@0 >= 0
end
";

/// Whether these are the texts of the seed and the size.
fn makes(
    rt: &HostRuntime,
    seed: u64,
    size: u32,
    controller: &str,
    question: &str,
) -> Result<bool, Fail>
    requires { (1 ≤ size) × (size ≤ 32) }
{
    match make(rt.alloc(), seed, size) {
        Ok((made_controller, made_question)) => Ok(
            made_controller.as_slice() == controller.as_bytes()
                && made_question.as_slice() == question.as_bytes(),
        ),
        Err(_) => Err(Fail::from("memory ran out")),
    }
}

#[test]
fn texts_are_those_of_the_draws(rt: HostRuntime) -> Result<(), Fail> {
    assert!(rt; makes(&rt, 35, 32, NO_BUFFER_CONTROLLER, NO_BUFFER_QUESTION)?);
    assert!(rt; makes(&rt, 7, 1, THREE_STATES_CONTROLLER, THREE_STATES_QUESTION)?);
    Ok(())
}

#[test]
fn the_greatest_seed_has_texts(rt: HostRuntime) -> Result<(), Fail> {
    assert!(rt;
        makes(
            &rt,
            18_446_744_073_709_551_615,
            8,
            GREATEST_SEED_CONTROLLER,
            GREATEST_SEED_QUESTION
        )?
    );
    Ok(())
}

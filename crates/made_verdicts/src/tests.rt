//! The verdicts on two drawn problems of one step, which follow from their path.
use crate::judge_drawn;
use std::test::Fail;
use verdict::Verdict;

/// What is served never decreases, so the question of seed 1, that it doesn't, is kept by each run.
#[test]
fn what_no_run_violates_is_verified(rt: HostRuntime) -> Result<(), Fail> {
    match judge_drawn(rt.alloc(), 1, 1) {
        Ok(Verdict::Verified(_)) => Ok(()),
        Ok(_) => Err(Fail::from("another verdict")),
        Err(_) => Err(Fail::from("memory ran out")),
    }
}

/// The question of seed 19 wants two units served in a step. A server of rate 1 that may be late needn't serve them.
#[test]
fn what_a_run_violates_is_violated(rt: HostRuntime) -> Result<(), Fail> {
    match judge_drawn(rt.alloc(), 19, 1) {
        Ok(Verdict::Violated(_, _)) => Ok(()),
        Ok(_) => Err(Fail::from("another verdict")),
        Err(_) => Err(Fail::from("memory ran out")),
    }
}

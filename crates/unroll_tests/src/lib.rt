//! Tests of the calls of `unroll`: formulas of small rows, and the sizes of whole problems. They stand in a crate of
//! their own, since the tests of a crate are a program in which all of the crate is proved once more.
#![tactic(auto)]

#[cfg(test)]
mod flow_tests;
#[cfg(test)]
mod path_tests;
#[cfg(test)]
mod problem_tests;
#[cfg(test)]
mod question_tests;

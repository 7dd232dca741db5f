//! Writes the problem that `ccac check` decides as SMT-LIB 2 text, so that another solver can be asked the same question.
//!
//! `problem_smt CTRL QUEST` writes the text, and `problem_smt --counts CTRL QUEST` the one line of its sizes, with 0. A file
//! that is refused or a problem that is too large is reported as `ccac check` reports it, with 3; words of another form are 4,
//! a file that can't be read 5, an output that fails 6, want of memory 7, and a word that isn't text 8.
#![tactic(auto)]

mod answering;
mod fetching;
mod reports;
mod requests;
mod running;
#[cfg(test)]
mod tests;

use crate::running::run;
use ccac_ports::{RealFolder, RealSink};
use std::process::ExitCode;
use std::{env, io};

/// Memory for the words wasn't found.
const NO_MEMORY: u8 = 7;
/// A word isn't text.
const NO_TEXT: u8 = 8;

fn main(rt: HostRuntime) -> ExitCode {
    let args = match env::args(&rt) {
        Ok(args) => args,
        Err(fault) if fault.kind() == io::ErrorKind::InvalidData => return ExitCode::from(NO_TEXT),
        Err(_) => return ExitCode::from(NO_MEMORY),
    };
    let mut words = Vec::new(rt.alloc());
    for word in args.skip(1) {
        if words.push(word).is_err() {
            return ExitCode::from(NO_MEMORY);
        }
    }
    let mut folder = RealFolder::new(&rt, rt.alloc());
    let mut out = RealSink::new(&rt);
    ExitCode::from(run(rt.alloc(), words.as_slice(), &mut folder, &mut out))
}

//! The program `ccac`: makes the real folder and the real output, and carries out the words of the command line.
#![tactic(auto)]

use ccac_ports::{RealFolder, RealSink};
use command_line::run;
use std::process::ExitCode;
use std::{env, io};

/// Memory for the words wasn't found.
const NO_MEMORY: u8 = 7;
/// A word isn't text.
const NO_TEXT: u8 = 8;

fn main(rt: HostRuntime) -> ExitCode {
    let args = match env::args(&rt) {
        Ok(args) => args,
        Err(fault) if fault.kind() == io::ErrorKind::InvalidData => return ExitCode::from(NO_TEXT),
        Err(_) => return ExitCode::from(NO_MEMORY),
    };
    let mut words = Vec::new(rt.alloc());
    for word in args.skip(1) {
        if words.push(word).is_err() {
            return ExitCode::from(NO_MEMORY);
        }
    }
    let mut folder = RealFolder::new(&rt, rt.alloc());
    let mut out = RealSink::new(&rt);
    ExitCode::from(run(rt.alloc(), &words, &mut folder, &mut out))
}

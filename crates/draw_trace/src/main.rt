//! Draws a run: reads a question and a trace, and writes one SVG document.
//!
//! `draw_trace QUEST TRACE` puts it with 0: over the rows, what was sent, accepted, served and lost of each flow, the band that
//! the path's rules allow the service, the queue, and each state. A trace may begin with a verdict's line, as `ccac check` puts
//! it. A file that is refused is reported as `ccac admit` reports it, with 3, and so is a run whose numbers are too wide to be
//! drawn; words of another form are 4, a file that can't be read 5, an output that fails 6, want of memory 7, and a word that
//! isn't text 8.
#![tactic(auto)]

mod answering;
mod fetching;
mod reports;
mod requests;
mod running;
mod saved;

use crate::running::run;
use ccac_ports::{RealFolder, RealSink};
use std::process::ExitCode;
use std::{env, io};

/// Memory for the words wasn't found.
const NO_MEMORY: u8 = 7;
/// A word isn't text.
const NO_TEXT: u8 = 8;

fn main(rt: HostRuntime) -> ExitCode {
    let args = match env::args(&rt) {
        Ok(args) => args,
        Err(fault) if fault.kind() == io::ErrorKind::InvalidData => return ExitCode::from(NO_TEXT),
        Err(_) => return ExitCode::from(NO_MEMORY),
    };
    let mut words = Vec::new(rt.alloc());
    for word in args.skip(1) {
        if words.push(word).is_err() {
            return ExitCode::from(NO_MEMORY);
        }
    }
    let mut folder = RealFolder::new(&rt, rt.alloc());
    let mut out = RealSink::new(&rt);
    ExitCode::from(run(rt.alloc(), words.as_slice(), &mut folder, &mut out))
}

//! Runs one step on the way to a problem's text many times over, for the comparison in `bench/unrolling.py`.
//!
//! The words are the step (`read` for the two texts, `unroll` for the clauses, formulas included, or `print` for their text), how
//! often it is run, and the names of the files of a controller and a question. What is written is how many things the step
//! made: states, clauses, or bytes.
#![tactic(auto)]

ghost use Rattle.std.specs.Prelude.{◌<◌, ◌-◌, ◌^◌, length};
ghost use Rattle.ctrl_types.specs.Limits.{IsController};
ghost use Rattle.question_text.specs.Limits.{IsQuestion};

use asked::{Asked, ask};
use ccac_ports::{Folder, RealFolder};
use smt_text::problem_text;
use std::alloc::Global;
use std::{env, io};
use unroll::unroll;

/// How many bytes a file may have.
const MOST_BYTES: u64 = 65_536;

fn read(alloc: Global, controller: &[u8], question: &[u8], count: u64) -> Option<u64>
    requires controller_in { length controller.now < 2 ^ 32 - 1 }
    requires question_in { length question.now < 2 ^ 32 - 1 }
{
    let mut sum: u64 = 0;
    for _ in 0..count {
        let asked = ask(alloc, controller, question).ok()?;
        sum = sum.wrapping_add(asked.controller.states.len() as u64);
    }
    Some(sum)
}

fn unrolled(alloc: Global, asked: &Asked, count: u64) -> Option<u64>
    requires controller_in { IsController asked.now.controller }
    requires question_in { IsQuestion (length asked.now.controller.states) asked.now.question }
{
    let mut sum: u64 = 0;
    for _ in 0..count {
        let problem = unroll(alloc, &asked.controller, &asked.question).ok()?;
        sum = sum.wrapping_add(problem.clauses.clauses.len() as u64);
    }
    Some(sum)
}

fn printed(alloc: Global, asked: &Asked, count: u64) -> Option<u64>
    requires controller_in { IsController asked.now.controller }
    requires question_in { IsQuestion (length asked.now.controller.states) asked.now.question }
{
    let problem = unroll(alloc, &asked.controller, &asked.question).ok()?;
    let mut sum: u64 = 0;
    for _ in 0..count {
        let text = problem_text(alloc, &problem.clauses).ok()?;
        sum = sum.wrapping_add(text.len() as u64);
    }
    Some(sum)
}

fn made(alloc: Global, step: &str, count: u64, controller: &[u8], question: &[u8]) -> Option<u64>
    requires controller_in { length controller.now < 2 ^ 32 - 1 }
    requires question_in { length question.now < 2 ^ 32 - 1 }
{
    if step == "read" {
        return read(alloc, controller, question, count);
    }
    let Ok(asked) = ask(alloc, controller, question) else {
        return None;
    };
    if step == "unroll" {
        unrolled(alloc, &asked, count)
    } else {
        printed(alloc, &asked, count)
    }
}

fn main(rt: HostRuntime) -> io::Result<()> {
    let mut words = env::args(&rt)?.skip(1);
    let step = words.next().unwrap_or(String::new(rt.alloc()));
    let count = words.next().unwrap_or(String::new(rt.alloc()));
    let count = count.as_str().parse::<u64>().unwrap_or(0);
    let controller = words.next().unwrap_or(String::new(rt.alloc()));
    let question = words.next().unwrap_or(String::new(rt.alloc()));
    let mut folder = RealFolder::new(&rt, rt.alloc());
    let controller = folder.fetch(controller.as_str(), MOST_BYTES);
    let question = folder.fetch(question.as_str(), MOST_BYTES);
    let (Ok(controller), Ok(question)) = (controller, question) else {
        return println!(rt; "no file");
    };
    match made(
        rt.alloc(),
        step.as_str(),
        count,
        controller.as_slice(),
        question.as_slice(),
    ) {
        Some(sum) => println!(rt; "{sum}"),
        None => println!(rt; "no problem"),
    }
}

//! Runs one operation of a fraction type many times over, for the comparison in `bench/fraction`.
//!
//! The words are the type (`wide` for `Frac128` or `mixed` for `MixedFrac`), the kind of numbers (`whole`, `small`
//! or `long`), the operation (`read`, `add`, `mul` or `compare`) and how often it is run. `read` takes an operand and
//! computes nothing, so its time is that of the loop. What is written is a checksum of the answers.
#![tactic(auto)]

use fraction::{Frac128, MixedFrac};
use ordered_field::OrderedField;
use std::alloc::{AllocError, Global};
use std::{env, io};

// How many numbers the operations take their operands from.
const NUMBERS: u64 = 64;

// The numbers that a generator of D. H. Lehmer's kind gives, as Knuth chose its constants for MMIX.
#[derive(Drop)]
struct Generator {
    state: u64,
}

impl Generator {
    // A number below `limit`, or 0.
    fn below(&mut self, limit: u64) -> u64 {
        self.state = self
            .state
            .wrapping_mul(6364136223846793005)
            .wrapping_add(1442695040888963407);
        (self.state >> 20).checked_rem(limit).unwrap_or(0)
    }
}

// `num / den`, for a `den` above 0.
fn quotient<F: OrderedField>(num: i128, den: i128) -> Option<F> {
    let (Ok(top), Ok(bottom)) = (F::from_whole(num), F::from_whole(den)) else {
        return None;
    };
    if bottom.sign() == 0 {
        return None;
    }
    top.div(bottom).ok()
}

fn numbers<F: OrderedField>(alloc: Global, kind: &str) -> Result<Vec<F>, AllocError> {
    let (num_limit, den_limit) = match kind {
        "whole" => (1000, 1),
        "small" => (1000, 1000),
        _ => (1 << 40, 1 << 40),
    };
    let mut generator = Generator { state: 1 };
    let mut numbers = Vec::new(alloc);
    for _ in 0..NUMBERS {
        let num = i128::from(generator.below(num_limit)) - i128::from(num_limit / 2);
        let den = i128::from(generator.below(den_limit)) + 1;
        if let Some(number) = quotient(num, den) {
            numbers.push(number)?;
        }
    }
    Ok(numbers)
}

// Bits of an answer that any change of it changes.
fn checksum<F: OrderedField>(answer: F) -> u64 {
    let (num, den) = answer.parts();
    (num.unsigned_abs() & 0xffff_ffff) as u64 ^ (den.unsigned_abs() & 0xffff_ffff) as u64
}

// What is done with two numbers; each has a loop of its own, as a solver's would be.
trait Turn {
    fn answer<F: OrderedField>(a: F, b: F) -> u64;
}

struct Read;

struct Add;

struct Mul;

struct Compare;

impl Turn for Read {
    fn answer<F: OrderedField>(a: F, _b: F) -> u64 {
        checksum(a)
    }
}

impl Turn for Add {
    fn answer<F: OrderedField>(a: F, b: F) -> u64 {
        a.add(b).map_or(1, checksum)
    }
}

impl Turn for Mul {
    fn answer<F: OrderedField>(a: F, b: F) -> u64 {
        a.mul(b).map_or(1, checksum)
    }
}

impl Turn for Compare {
    fn answer<F: OrderedField>(a: F, b: F) -> u64 {
        u64::from(a < b)
    }
}

fn run<F: OrderedField, T: Turn>(numbers: &[F], count: u64) -> u64 {
    let mut sum: u64 = 0;
    for turn in 0..count {
        let left = numbers.get((turn % NUMBERS) as usize);
        let right = numbers.get((turn / NUMBERS % NUMBERS) as usize);
        if let (Some(a), Some(b)) = (left, right) {
            sum = sum.wrapping_add(T::answer(*a, *b));
        }
    }
    sum
}

fn measured<F: OrderedField>(
    alloc: Global,
    kind: &str,
    operation: &str,
    count: u64,
) -> Result<u64, AllocError> {
    let numbers = numbers::<F>(alloc, kind)?;
    let sum = match operation {
        "add" => run::<F, Add>(numbers.as_slice(), count),
        "mul" => run::<F, Mul>(numbers.as_slice(), count),
        "compare" => run::<F, Compare>(numbers.as_slice(), count),
        _ => run::<F, Read>(numbers.as_slice(), count),
    };
    Ok(sum)
}

fn main(rt: HostRuntime) -> io::Result<()> {
    let mut words = env::args(&rt)?.skip(1);
    let field = words.next().unwrap_or(String::new(rt.alloc()));
    let kind = words.next().unwrap_or(String::new(rt.alloc()));
    let operation = words.next().unwrap_or(String::new(rt.alloc()));
    let count = words.next().unwrap_or(String::new(rt.alloc()));
    let count = count.as_str().parse::<u64>().unwrap_or(0);
    let sum = if field.as_str() == "mixed" {
        measured::<MixedFrac>(rt.alloc(), kind.as_str(), operation.as_str(), count)?
    } else {
        measured::<Frac128>(rt.alloc(), kind.as_str(), operation.as_str(), count)?
    };
    println!(rt; "{sum}")
}

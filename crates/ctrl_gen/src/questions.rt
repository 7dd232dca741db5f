//! The question of a drawn problem.

ghost use Rattle.std.specs.Prelude.{◌≡◌, IfOk};
ghost use Rattle.condition_syntax.specs.Trees.{condition_of};
ghost use Rattle.ctrl_gen.specs.Draws.{IsDrawn};
ghost use Rattle.ctrl_gen.specs.Problems.{whole_pair, pair_if, served_by, serves_at_least, buffer_by, drawn_buffer};

use crate::controllers::{number_term, over, sum_of_one, sum_of_two};
use crate::draws::Draws;
use ctrl_syntax::{Cond, ETerm, Name, Num, Rel5};
use sqlite_items::Items;
use std::alloc::Global;
use whole::{NoMemory, Pair};

pub(crate) fn whole_pair(number: u32) -> Pair
    ensures { result ≡ whole_pair number }
{
    Pair {
        num: i128::from(number),
        den: 1,
    }
}

pub(crate) fn pair_if(number: Option<u32>) -> Option<Pair>
    ensures { result ≡ pair_if number }
{
    number.map(whole_pair)
}

/// No buffer, or one of 1 to 4.
#[tactic(auto, unfolding(crate::specs::Problems::drawn_buffer, crate::specs::Problems::buffer_by))]
pub(crate) fn drawn_buffer(draws: &mut Draws) -> Option<u32>
    ensures { IsDrawn result draws.new.state (drawn_buffer draws.old.state) }
{
    match draws.draw(2) {
        0 => None,
        _ => Some(1 + draws.draw(4)),
    }
}

/// What all flows were served by a step: `S@STEP`.
fn served_by(alloc: Global, step: u32) -> Result<Name, NoMemory>
    ensures { IfOk result (λ name. name ≡ served_by step) }
{
    Ok(Name {
        text: Items::from_slice(alloc, b"S")?,
        flow: None,
        step: Some(step),
    })
}

/// `S@STEPS - S@0 >= LEAST`
pub(crate) fn serves_at_least(alloc: Global, steps: u32, least: u32) -> Result<Cond, NoMemory>
    ensures { IfOk result (λ cond. condition_of cond ≡ serves_at_least steps least) }
{
    let last = ETerm {
        coef: over(1, 1),
        name: Some(served_by(alloc, steps)?),
    };
    let first = ETerm {
        coef: Num { num: -1, den: 1 },
        name: Some(served_by(alloc, 0)?),
    };
    let left = sum_of_two(alloc, last, first)?;
    let right = sum_of_one(alloc, number_term(over(least, 1)))?;
    Ok(Cond::Cmp(left, Rel5::AtLeast, right))
}

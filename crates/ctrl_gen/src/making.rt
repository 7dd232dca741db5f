ghost use Rattle.std.specs.Prelude.{◌≡◌, ◌≤◌, IfOk};
ghost use Rattle.ctrl_syntax.specs.Sections.{sections_of as controller_sections};
ghost use Rattle.question_syntax.specs.Sections.{sections_of as question_sections};
ghost use Rattle.ctrl_gen.specs.Draws.{IsDrawn};
ghost use Rattle.ctrl_gen.specs.Problems.{controller_of, question_of, setting_of, drawn_problem, controller_text, question_text};
ghost use Rattle.ctrl_gen.specs.Views.{seen};

use crate::controllers::{
    drawn_rules, drawn_states, name_term, otherwise, over, state_name, sum_of_one,
};
use crate::draws::Draws;
use crate::questions::{drawn_buffer, pair_if, serves_at_least, whole_pair};
use ctrl_syntax::{RuleLine, StateLine, Syntax};
use path_server::{Path, Setting};
use question_syntax::{ConditionLine, QuestionSyntax};
use sqlite_items::Items;
use std::alloc::Global;
use whole::NoMemory;

/// What a search may cost.
const BUDGET: u64 = 2_000;

/// What is drawn of a seed, in the order of the draws.
#[derive(Debug, Drop)]
pub(crate) struct Problem {
    flows: u32,
    jitter: u32,
    rtt: u32,
    states: Items<StateLine>,
    rules: Items<RuleLine>,
    buffer: Option<u32>,
    least: u32,
}

#[tactic(auto, unfolding(crate::specs::Problems::drawn_problem))]
fn drawn_problem(alloc: Global, draws: &mut Draws) -> Result<Problem, NoMemory>
    ensures { IfOk result (λ d. IsDrawn (seen d) draws.new.state (drawn_problem draws.old.state)) }
{
    let flows = 1 + draws.draw(2);
    let jitter = draws.draw(3);
    let rtt = 1 + draws.draw(2);
    let count = 1 + draws.draw(3);
    let states = drawn_states(alloc, draws, count)?;
    let rules = drawn_rules(alloc, draws, count)?;
    let buffer = drawn_buffer(draws);
    let least = draws.draw(3);
    Ok(Problem {
        flows,
        jitter,
        rtt,
        states,
        rules,
        buffer,
        least,
    })
}

/// The setting of the question over so many steps.
fn setting(drawn: &Problem, steps: u32) -> Setting
    ensures { result ≡ setting_of (seen drawn.now) steps }
{
    Setting {
        flows: drawn.flows,
        steps,
        rtt: drawn.rtt,
        path: Path {
            rate: whole_pair(1),
            jitter: drawn.jitter,
            buffer: pair_if(drawn.buffer),
        },
        budget: BUDGET,
    }
}

/// The question of what was drawn, over so many steps.
fn question(alloc: Global, drawn: &Problem, steps: u32) -> Result<QuestionSyntax, NoMemory>
    ensures { IfOk result (λ q. question_sections q ≡ question_of (seen drawn.now) steps) }
{
    let require = ConditionLine {
        cond: serves_at_least(alloc, steps, drawn.least)?,
        line: 0,
    };
    Ok(QuestionSyntax {
        setting: setting(drawn, steps),
        rate_line: 0,
        buffer_line: 0,
        assumes: Items::new(alloc),
        require,
    })
}

/// The controller of what was drawn.
fn controller(alloc: Global, drawn: Problem) -> Result<Syntax, NoMemory>
    ensures { IfOk result (λ c. controller_sections c ≡ controller_of (seen drawn)) }
{
    let mut rules = drawn.rules;
    rules.push(otherwise(alloc))?;
    let name = state_name(alloc, 1)?;
    Ok(Syntax {
        states: drawn.states,
        rules,
        window: sum_of_one(alloc, name_term(over(1, 1), name))?,
        window_line: 0,
        rate: None,
    })
}

/// The texts of the controller and of the question of a seed; the size is the number of steps, 1 to 32. The same seed
/// and size give the same texts.
#[tactic(auto, unfolding(crate::specs::Problems::controller_text, crate::specs::Problems::question_text))]
pub fn make(alloc: Global, seed: u64, size: u32) -> Result<(Vec<u8>, Vec<u8>), NoMemory>
    requires { (1 ≤ size) × (size ≤ 32) }
    ensures controller { IfOk result (λ texts. texts.0.items ≡ controller_text seed) }
    ensures question { IfOk result (λ texts. texts.1.items ≡ question_text seed size) }
{
    let mut draws = Draws { state: seed };
    let drawn = drawn_problem(alloc, &mut draws)?;
    let question = question(alloc, &drawn, size)?;
    let controller = controller(alloc, drawn)?;
    let controller_text = ctrl_syntax::print(alloc, &controller)?;
    let question_text = question_syntax::print_syntax(alloc, &question)?;
    Ok((controller_text, question_text))
}

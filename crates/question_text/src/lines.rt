//! What the lines of a question mean, one after another, or the first rule that one breaks.
ghost use Rattle.std.specs.Prelude.{◌≡◌, ◌≤◌, length, map, unsigned_abs, All, IfOk, IfSome, Some, [], ◌∷◌};
ghost use Rattle.condition_syntax.specs.RefusalRules.{GivesRead};
ghost use Rattle.condition_syntax.specs.Trees.{condition_of as written_of};
ghost use Rattle.ctrl_syntax.specs.Views.{GivesSeenUnless};
ghost use Rattle.ctrl_types.specs.Denominators.{IsScale, with_numbers};
ghost use Rattle.ctrl_types.specs.Limits.{IsController};
ghost use Rattle.ctrl_types.specs.Statements.{condition_numbers};
ghost use Rattle.path_server.specs.Limits.{IsBuffer, IsNumber, IsSetting};
ghost use Rattle.question_syntax.specs.Sections.{all_wanted_of, sections_of, wanted_of};
ghost use Rattle.question_text.specs.Conditions.{condition_of};
ghost use Rattle.question_text.specs.StatementRules.{against, buffer_numbers, number_of, question_seen};
ghost use Rattle.question_text.specs.Resolution.{IsAsked, IsAskedText, numbers_by, resolved_by, wanted, wanted_by, wanteds_by};

use crate::conditions::QCond;
use crate::denominators::with_condition;
use crate::kinds::mixes;
use crate::questions::Question;
use crate::refusals::refusal;
use crate::trees::condition;
use ctrl_types::{Controller, State, with_number};
use path_server::Setting;
use question_syntax::{ConditionLine, QuestionSyntax};
use sqlite_items::Items;
use std::alloc::Global;
use weighing::Num;
use whole::{Pair, ReadFault, Refusal};

/// A number of the path.
fn number_of(pair: Pair) -> Num
    ensures { result ≡ number_of pair }
{
    Num {
        num: pair.num,
        den: pair.den,
    }
}

/// The least common multiple that a line leaves, or its refusal.
fn kept(den: Option<u32>, line: u32) -> Result<u32, Refusal>
    requires { IfSome den IsScale }
    ensures exact { result ≡ wanted den 14 line }
    ensures within { IfOk result IsScale }
{
    match den {
        Some(den) => Ok(den),
        None => Err(refusal(14, line)),
    }
}

/// The line of the rate.
#[tactic(auto, unfolding(crate::specs::Resolution::numbers_by, ctrl_types::specs::Denominators::with_numbers))]
fn rate(pair: Pair, line: u32, den: u32) -> Result<u32, Refusal>
    requires pair_in { IsNumber pair }
    requires den_in { IsScale den }
    ensures exact { result ≡ numbers_by line (number_of pair ∷ []) den }
    ensures within { IfOk result IsScale }
{
    kept(with_number(Some(den), number_of(pair)), line)
}

/// The line of the buffer.
#[tactic(auto, unfolding(crate::specs::Resolution::numbers_by, ctrl_types::specs::Denominators::with_numbers))]
fn buffer(pair: Option<Pair>, line: u32, den: u32) -> Result<u32, Refusal>
    requires pair_in { IsBuffer pair }
    requires den_in { IsScale den }
    ensures exact { result ≡ numbers_by line (buffer_numbers pair) den }
    ensures within { IfOk result IsScale }
{
    match pair {
        Some(pair) => rate(pair, line, den),
        None => Ok(den),
    }
}

/// The line of a condition.
#[tactic(auto, unfolding(crate::specs::Resolution::wanted_by, crate::specs::Resolution::numbers_by))]
fn wanted(
    alloc: Global,
    states: &[State],
    setting: &Setting,
    line: &ConditionLine,
    den: &mut u32,
) -> Result<QCond, ReadFault>
    requires states_to { length states.now ≤ 8 }
    requires line_in { IsAsked (written_of line.now.cond) }
    requires den_in { IsScale den.old }
    ensures exact { GivesRead condition_of result den.new (wanted_by states.now setting.now (wanted_of line.now) den.old) }
    ensures within { IsScale den.new }
{
    let resolved = condition(alloc, states, setting, &line.cond, line.line)?;
    if mixes(states, &resolved) {
        return Err(ReadFault::Refused(refusal(13, line.line)));
    }
    *den = kept(with_condition(Some(*den), &line.cond), line.line)?;
    Ok(resolved)
}

/// The lines of the assumptions.
fn assumes(
    alloc: Global,
    states: &[State],
    setting: &Setting,
    lines: &[ConditionLine],
    den: &mut u32,
) -> Result<Items<QCond>, ReadFault>
    requires states_to { length states.now ≤ 8 }
    requires lines_in { All (λ line. IsAsked (written_of line.cond)) lines.now }
    requires den_in { IsScale den.old }
    ensures exact { GivesRead (map condition_of) result den.new (wanteds_by states.now setting.now (all_wanted_of lines.now) den.old) }
    ensures within { IsScale den.new }
{
    let mut resolved = Items::new(alloc);
    for line in lines {
        let assume = wanted(alloc, states, setting, line, den)?;
        resolved.push(assume)?;
    }
    Ok(resolved)
}

/// The question that the syntax means, or the first line that breaks a rule.
#[tactic(auto, using(whole::proofs::Overflow::signed), unfolding(crate::specs::Resolution::resolved_by))]
pub(crate) fn resolved(
    alloc: Global,
    syntax: &QuestionSyntax,
    controller: &Controller,
) -> Result<Question, ReadFault>
    requires controller_in { IsController controller.now }
    requires setting_in { IsSetting syntax.now.setting }
    requires text_in { IsAskedText syntax.now }
    ensures { GivesSeenUnless question_seen result (resolved_by controller.now (sections_of syntax.now)) }
{
    let setting = &syntax.setting;
    let states = controller.states.as_slice();
    let den = rate(setting.path.rate, syntax.rate_line, controller.den as u32)?;
    let mut den = buffer(setting.path.buffer, syntax.buffer_line, den)?;
    let assumes = assumes(alloc, states, setting, syntax.assumes.as_slice(), &mut den)?;
    let require = wanted(alloc, states, setting, &syntax.require, &mut den)?;
    Ok(Question {
        setting: *setting,
        assumes,
        require,
    })
}

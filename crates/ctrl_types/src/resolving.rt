//! A controller from its syntax, or the first rule that a line breaks.
ghost use Rattle.std.specs.Prelude.{◌≡◌, map, All, IfOk, OnOk, IsErrOf, IsOkUnless, []};
ghost use Rattle.whole.specs.declared.answers.ReadFault.TheVariants.{Refused, NoMemory};
ghost use Rattle.whole.specs.declared.answers.Refusal.{Refusal};
ghost use Rattle.ctrl_syntax.specs.Limits.{IsRateLine, IsRuleLine, IsSetLine, IsStateLine, IsSyntax};
ghost use Rattle.ctrl_syntax.specs.Sections.{rule_of, rules_of, sections_of};
ghost use Rattle.ctrl_types.specs.Denominators.{IsScale};
ghost use Rattle.ctrl_types.specs.Limits.{IsController};
ghost use Rattle.ctrl_types.specs.Scopes.{AreNames, IsScope};
ghost use Rattle.ctrl_types.specs.Statements.{IsFirstBroken, IsUnbroken, ends_otherwise};
ghost use Rattle.ctrl_types.specs.Resolved.{RefusesUnless, Resolves};
ghost use Rattle.ctrl_types.specs.Resolving.{GivesSeenUnless, LeavesUnless, controller_by, controller_seen, fault_of, rate_by, rule_by, rule_seen, rules_by, sets_by, states_by, unset};

use crate::breaches::ResolveStop;
use crate::controllers::{Controller, Rule, State};
use crate::expressions::Lin;
use crate::names::Scope;
use crate::statements::{bound, guard, set, state};
use crate::surveys::Totals;
use ctrl_syntax::{RateLine, RuleLine, SetLine, StateLine, Syntax};
use indexmap::IndexSet;
use sqlite_items::Items;
use std::alloc::{AllocError, Global};
use whole::ReadFault;

/// The refusal of this line, or want of memory.
fn fault_of(halt: ResolveStop, line: u32) -> ReadFault
    ensures { result ≡ fault_of halt line }
{
    match halt {
        ResolveStop::Broken(breach) => ReadFault::Refused(breach.refusal(line)),
        ResolveStop::NoMemory => ReadFault::NoMemory,
    }
}

/// The states of the text, and their names in its order.
fn states<'a>(
    alloc: Global,
    lines: &'a [StateLine],
    names: &mut IndexSet<&'a [u8]>,
    den: &mut u32,
) -> Result<Items<State>, ReadFault>
    requires lines_in { All IsStateLine lines.now }
    requires names_in { names.old.keys ≡ [] }
    requires den_in { IsScale den.old }
    ensures exact { LeavesUnless (λ x. x) result den.new (states_by [] lines.now den.old) }
    ensures numbered { OnOk result (AreNames names.new.keys lines.now) }
    ensures within { IsScale den.new }
{
    let mut states = Items::new(alloc);
    for line in lines {
        let is_new = names.insert(line.name.as_slice())?;
        let made = match state(alloc, !is_new, line, den) {
            Ok(made) => made,
            Err(halt) => return Err(fault_of(halt, line.line)),
        };
        states.push(made)?;
    }
    Ok(states)
}

/// A place for each state, none of which is filled.
fn places(alloc: Global, states: &[StateLine]) -> Result<Items<Option<Lin>>, AllocError>
    ensures { IfOk result (λ places. places ≡ unset states.now) }
{
    let mut places = Items::new(alloc);
    for _state in states {
        places.push(None)?;
    }
    Ok(places)
}

/// The expressions that a rule gives its states.
fn sets(
    alloc: Global,
    scope: &Scope<'_>,
    lines: &[SetLine],
    den: &mut u32,
) -> Result<Items<Option<Lin>>, ReadFault>
    requires scope_in { IsScope scope.now }
    requires lines_in { All IsSetLine lines.now }
    requires den_in { IsScale den.old }
    ensures exact { LeavesUnless (λ x. x) result den.new (sets_by scope.now.states.now lines.now (unset scope.now.states.now) den.old) }
    ensures within { IsScale den.new }
{
    let mut places = places(alloc, scope.states)?;
    for line in lines {
        match set(alloc, scope, line, &mut places, den) {
            Ok(()) => {}
            Err(halt) => return Err(fault_of(halt, line.line)),
        }
    }
    Ok(places)
}

/// A rule with its assignments.
#[tactic(auto, unfolding(crate::specs::Resolving::rule_by))]
fn rule(
    alloc: Global,
    scope: &Scope<'_>,
    is_last: bool,
    line: &RuleLine,
    totals: &mut Totals,
) -> Result<Rule, ReadFault>
    requires scope_in { IsScope scope.now }
    requires line_in { IsRuleLine line.now }
    requires totals_in { IsScale totals.old.den }
    ensures exact { LeavesUnless rule_seen result totals.new (rule_by scope.now.states.now is_last (rule_of line.now) totals.old) }
    ensures within { IsScale totals.new.den }
{
    let guard = match guard(alloc, scope, is_last, &line.guard, totals) {
        Ok(guard) => guard,
        Err(halt) => return Err(fault_of(halt, line.line)),
    };
    let mut den = totals.den;
    let sets = sets(alloc, scope, line.sets.as_slice(), &mut den)?;
    totals.den = den;
    Ok(Rule { guard, sets })
}

/// The rules of the text.
fn rules(
    alloc: Global,
    scope: &Scope<'_>,
    lines: &[RuleLine],
    totals: &mut Totals,
) -> Result<Items<Rule>, ReadFault>
    requires scope_in { IsScope scope.now }
    requires lines_in { All IsRuleLine lines.now }
    requires totals_in { IsScale totals.old.den }
    ensures exact { LeavesUnless (λ rules. map rule_seen rules) result totals.new (rules_by scope.now.states.now (rules_of lines.now) totals.old) }
    ensures within { IsScale totals.new.den }
{
    let mut rules = Items::new(alloc);
    for (number, line) in lines.iter().enumerate() {
        let is_last = number + 1 == lines.len();
        let made = rule(alloc, scope, is_last, line, totals)?;
        rules.push(made)?;
    }
    Ok(rules)
}

/// Whether the last rule is an `otherwise`.
#[tactic(auto, unfolding(crate::specs::Statements::ends_otherwise))]
fn ends_otherwise(rules: &[RuleLine]) -> bool
    ensures { result ≡ ends_otherwise (rules_of rules.now) }
{
    match rules.last() {
        Some(rule) => rule.guard.is_none(),
        None => false,
    }
}

/// The rate, where there is one.
#[tactic(auto, unfolding(crate::specs::Resolving::rate_by))]
fn rate(
    alloc: Global,
    scope: &Scope<'_>,
    line: &Option<RateLine>,
    den: &mut u32,
) -> Result<Option<Lin>, ReadFault>
    requires scope_in { IsScope scope.now }
    requires line_in { IsRateLine line.now }
    requires den_in { IsScale den.old }
    ensures exact { LeavesUnless (λ x. x) result den.new (rate_by scope.now.states.now line.now den.old) }
    ensures within { IsScale den.new }
{
    match line {
        Some(line) => match bound(alloc, scope, false, &line.expr, den) {
            Ok(lin) => Ok(Some(lin)),
            Err(halt) => Err(fault_of(halt, line.line)),
        },
        None => Ok(None),
    }
}

/// The controller, line by line.
#[tactic(auto, unfolding(crate::specs::Resolving::controller_by))]
fn controller(alloc: Global, syntax: &Syntax) -> Result<Controller, ReadFault>
    requires { IsSyntax syntax.now }
    ensures { GivesSeenUnless controller_seen result (controller_by (sections_of syntax.now)) }
{
    let lines = syntax.states.as_slice();
    let mut den = 1;
    let mut names = IndexSet::new(alloc);
    let states = states(alloc, lines, &mut names, &mut den)?;
    let scope = Scope {
        states: lines,
        names,
    };
    let mut totals = Totals { delay_max: 0, den };
    let rules = rules(alloc, &scope, syntax.rules.as_slice(), &mut totals)?;
    den = totals.den;
    let unended = !ends_otherwise(syntax.rules.as_slice());
    let window = match bound(alloc, &scope, unended, &syntax.window, &mut den) {
        Ok(window) => window,
        Err(halt) => return Err(fault_of(halt, syntax.window_line)),
    };
    let rate = rate(alloc, &scope, &syntax.rate, &mut den)?;
    Ok(Controller {
        states,
        rules,
        window,
        rate,
        delay_max: totals.delay_max,
        den: i128::from(den),
    })
}

/// The controller that the syntax means.
///
/// Refused by the first of the rules Y1 to Y9 that is broken: the first line that breaks one, and the least rule that it breaks.
pub fn resolve(alloc: Global, syntax: &Syntax) -> Result<Controller, ReadFault>
    requires { IsSyntax syntax.now }
    ensures found { IfOk result (λ c. Resolves (sections_of syntax.now) c) }
    ensures limits { IfOk result IsController }
    ensures unbroken { OnOk result (IsUnbroken (sections_of syntax.now)) }
    ensures refused { (r : Refusal) → IsErrOf result (Refused r) → IsFirstBroken (sections_of syntax.now) r }
    ensures only { IsUnbroken (sections_of syntax.now) → IsOkUnless result NoMemory }
    ensures first { (r : Refusal) → IsFirstBroken (sections_of syntax.now) r → RefusesUnless r result }
{
    controller(alloc, syntax)
}

// Formulas without constants: comparisons in normal form, and no part that is always or never true.
ghost use Rattle.std.specs.Prelude.{◌≡◌, ◌≤◌, ◌<◌, ◌^◌, IfOk, Option, map, length, unsigned_abs, All};
ghost use Rattle.condition_tree.specs.Trees.{EachLeaf, conjunction, disjunction};
ghost use Rattle.linear_form.specs.NormalForm.{normal_of};
ghost use Rattle.clause_form.specs.Formulas.{formula_of, CanNormalise};
ghost use Rattle.clause_form.specs.Simplified.{known_of, parts_of, simple_of, simplified, conjuncts_of, disjuncts_of, lone, trimmed_all, trimmed_any, trimmed_leaf, trimmed_opposite};

use crate::formulas::Formula;
use linear_form::{Comparison, Form, Normal, normalise};
use std::alloc::Global;
use whole::NoMemory;

/// A literal of a row: `form <= num / den`, or `<` where strict; its negation where it isn't positive.
#[derive(Debug, Drop)]
pub(crate) struct RowLit {
    pub(crate) form: Form,
    pub(crate) num: i128,
    pub(crate) den: i128,
    pub(crate) strict: bool,
    pub(crate) positive: bool,
}

/// A formula without constants.
#[derive(Debug, Drop)]
pub(crate) enum Simple {
    Row(RowLit),
    Not(Box<Simple>),
    All(Vec<Simple>),
    Any(Vec<Simple>),
}

/// A formula whose truth may be known.
#[derive(Debug, Drop)]
pub(crate) enum Known {
    True,
    False,
    Open(Simple),
}

/// The formula without constants, or its truth.
#[cycle(simplified)]
#[tactic(auto, unfolding(crate::specs::Simplified::simplified))]
pub(crate) fn simplified(alloc: Global, formula: &Formula) -> Result<Known, NoMemory>
    requires { EachLeaf CanNormalise (formula_of formula.now) }
    ensures { IfOk result (λ k. known_of k ≡ simplified (formula_of formula.now)) }
{
    match formula {
        Formula::True => Ok(Known::True),
        Formula::False => Ok(Known::False),
        Formula::Cmp(comparison) => Ok(row(normalise(alloc, comparison)?)),
        Formula::Not(part) => opposite(alloc, simplified(alloc, part)?),
        Formula::And(parts) => Ok(all_of(conjuncts(alloc, parts)?)),
        Formula::Or(parts) => Ok(any_of(disjuncts(alloc, parts)?)),
    }
}

/// The parts of a conjunction that aren't always true; none where one is never true.
#[cycle(simplified)]
fn conjuncts(alloc: Global, parts: &Vec<Formula>) -> Result<Option<Vec<Simple>>, NoMemory>
    requires { EachLeaf CanNormalise (conjunction (map formula_of parts.now.items)) }
    ensures { IfOk result (λ kept. parts_of kept ≡ conjuncts_of (map formula_of parts.now.items)) }
{
    let mut kept = Vec::new(alloc);
    for part in parts {
        match simplified(alloc, part)? {
            Known::True => {}
            Known::False => return Ok(None),
            Known::Open(simple) => kept.push(simple)?,
        }
    }
    Ok(Some(kept))
}

/// The parts of a disjunction that aren't never true; none where one is always true.
#[cycle(simplified)]
fn disjuncts(alloc: Global, parts: &Vec<Formula>) -> Result<Option<Vec<Simple>>, NoMemory>
    requires { EachLeaf CanNormalise (disjunction (map formula_of parts.now.items)) }
    ensures { IfOk result (λ kept. parts_of kept ≡ disjuncts_of (map formula_of parts.now.items)) }
{
    let mut kept = Vec::new(alloc);
    for part in parts {
        match simplified(alloc, part)? {
            Known::True => return Ok(None),
            Known::False => {}
            Known::Open(simple) => kept.push(simple)?,
        }
    }
    Ok(Some(kept))
}

// A comparison in normal form.
fn row(normal: Normal) -> Known
    ensures { known_of result ≡ trimmed_leaf normal }
{
    match normal {
        Normal::Always => Known::True,
        Normal::Never => Known::False,
        Normal::Bound {
            form,
            num,
            den,
            strict,
            positive,
        } => Known::Open(Simple::Row(RowLit {
            form,
            num,
            den,
            strict,
            positive,
        })),
    }
}

fn opposite(alloc: Global, known: Known) -> Result<Known, NoMemory>
    ensures { IfOk result (λ k. known_of k ≡ trimmed_opposite (known_of known)) }
{
    match known {
        Known::True => Ok(Known::False),
        Known::False => Ok(Known::True),
        Known::Open(simple) => Ok(Known::Open(Simple::Not(Box::new(alloc, simple)?))),
    }
}

// The conjunction of the parts that are left: one part alone is the whole.
fn all_of(parts: Option<Vec<Simple>>) -> Known
    ensures { known_of result ≡ trimmed_all (parts_of parts) }
{
    match parts {
        Some(kept) if kept.len() > 1 => Known::Open(Simple::All(kept)),
        Some(kept) => lone(kept, Known::True),
        None => Known::False,
    }
}

// The disjunction of the parts that are left: one part alone is the whole.
fn any_of(parts: Option<Vec<Simple>>) -> Known
    ensures { known_of result ≡ trimmed_any (parts_of parts) }
{
    match parts {
        Some(kept) if kept.len() > 1 => Known::Open(Simple::Any(kept)),
        Some(kept) => lone(kept, Known::False),
        None => Known::True,
    }
}

// The only part, or what stands where there is none.
fn lone(mut kept: Vec<Simple>, none: Known) -> Known
    requires { length kept.items ≤ 1 }
    ensures { known_of result ≡ lone (map simple_of kept.items) (known_of none) }
{
    match kept.pop() {
        Some(part) => Known::Open(part),
        None => none,
    }
}

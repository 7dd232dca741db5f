ghost use Rattle.std.specs.Prelude.{◌≡◌, ℕ};
ghost use Rattle.condition_tree.specs.Trees.{all_of, any_of, opposite};
ghost use Rattle.weighing.specs.Claim.{Claim, both_outcomes, compare, either_outcome, not_outcome, outcome};
ghost use Rattle.weighing.specs.Overflow.{Answers};
ghost use Rattle.weighing.specs.Weighed.{EachWithin};

use crate::weighings::{Rel5, Summand, Weighing};
use whole::Stuck;

/// Whether the sum of the terms stands so to zero, or the operation at which its weighing is stuck: the first product or
/// sum, over unbounded numbers, that exceeds `2^127 - 1` in size.
pub fn compare(row: u32, terms: &[Summand], rel: Rel5) -> Result<bool, Stuck>
    requires { EachWithin terms.now }
    ensures exact { result ≡ outcome row (compare terms.now rel) }
    ensures means { Answers row (compare terms.now rel) result }
{
    Weighing::new(row).plus_all(terms).stands(rel)
}

/// Whether both comparisons hold, or the first of them that is stuck.
pub fn both(first: Result<bool, Stuck>, second: Result<bool, Stuck>) -> Result<bool, Stuck>
    ensures exact { result ≡ both_outcomes first second }
    ensures means { (row : ℕ) (c d : Claim) → Answers row c first → Answers row d second → Answers row (all_of c d) result }
{
    let first = first?;
    let second = second?;
    Ok(first && second)
}

/// Whether one of the comparisons holds, or the first of them that is stuck.
pub fn either(first: Result<bool, Stuck>, second: Result<bool, Stuck>) -> Result<bool, Stuck>
    ensures exact { result ≡ either_outcome first second }
    ensures means { (row : ℕ) (c d : Claim) → Answers row c first → Answers row d second → Answers row (any_of c d) result }
{
    let first = first?;
    let second = second?;
    Ok(first || second)
}

/// Whether the comparison doesn't hold, or the operation at which it is stuck.
pub fn not(inner: Result<bool, Stuck>) -> Result<bool, Stuck>
    ensures exact { result ≡ not_outcome inner }
    ensures means { (row : ℕ) (c : Claim) → Answers row c inner → Answers row (opposite c) result }
{
    let inner = inner?;
    Ok(!inner)
}

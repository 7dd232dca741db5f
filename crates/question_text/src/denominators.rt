//! The least common multiple of the denominators of conditions.
ghost use Rattle.std.specs.Prelude.{◌≡◌, ◌++◌, map, IfSome};
ghost use Rattle.std.specs.List.{flat_map};
ghost use Rattle.condition_syntax.specs.Trees.{condition_of};
ghost use Rattle.question_syntax.specs.Limits.{IsPlacedExpr};
ghost use Rattle.ctrl_types.specs.Denominators.{IsScale, with_numbers};
ghost use Rattle.ctrl_types.specs.Statements.{coefs, condition_numbers};
ghost use Rattle.question_text.specs.Resolution.{EachAsked, IsAsked};

use ctrl_syntax::{Cond, Expr};
use ctrl_types::with_number;

/// The least common multiple with an expression's denominators, unless it exceeds the limit.
fn with_expr(den: Option<u32>, expr: &Expr) -> Option<u32>
    requires den_in { IfSome den IsScale }
    requires expr_in { IsPlacedExpr expr.now }
    ensures exact { result ≡ with_numbers den (coefs expr.now.terms) }
    ensures within { IfSome result IsScale }
{
    let mut common = den;
    for term in expr.terms.as_slice() {
        common = with_number(common, term.coef);
    }
    common
}

/// The same with a comparison's denominators.
fn with_comparison(den: Option<u32>, left: &Expr, right: &Expr) -> Option<u32>
    requires den_in { IfSome den IsScale }
    requires left_in { IsPlacedExpr left.now }
    requires right_in { IsPlacedExpr right.now }
    ensures exact { result ≡ with_numbers den (coefs left.now.terms ++ coefs right.now.terms) }
    ensures within { IfSome result IsScale }
{
    with_expr(with_expr(den, left), right)
}

/// The least common multiple with a condition's denominators, unless it exceeds the limit.
#[cycle(denominators)]
pub(crate) fn with_condition(den: Option<u32>, condition: &Cond) -> Option<u32>
    requires den_in { IfSome den IsScale }
    requires condition_in { IsAsked (condition_of condition.now) }
    ensures exact { result ≡ with_numbers den (condition_numbers (condition_of condition.now)) }
    ensures within { IfSome result IsScale }
{
    match condition {
        Cond::True => den,
        Cond::False => den,
        Cond::Delay(_) => den,
        Cond::Cmp(left, _, right) => with_comparison(den, left, right),
        Cond::Not(part) => with_condition(den, part),
        Cond::And(parts) => with_parts(den, parts),
        Cond::Or(parts) => with_parts(den, parts),
    }
}

/// The same with the parts of a condition.
#[cycle(denominators)]
fn with_parts(den: Option<u32>, parts: &Vec<Cond>) -> Option<u32>
    requires den_in { IfSome den IsScale }
    requires parts_in { EachAsked (map condition_of parts.now.items) }
    ensures exact { result ≡ with_numbers den (flat_map condition_numbers (map condition_of parts.now.items)) }
    ensures within { IfSome result IsScale }
{
    let mut common = den;
    for part in parts {
        common = with_condition(common, part);
    }
    common
}

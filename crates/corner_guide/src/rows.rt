// Which rows hold where each column has a whole value over one denominator?
ghost use Rattle.std.specs.Prelude.{◌≡◌, ◌↔◌, ◌*ℤ◌, true, length, All, IsTrue, IfSome};
ghost use Rattle.whole.specs.Numbers.{IsWithin};
ghost use Rattle.linear_form.specs.NormalForm.{Bounds};
ghost use Rattle.linear_form.specs.Sums.{entry};
ghost use Rattle.clause_form.specs.Models.{form_value};
ghost use Rattle.clause_form.specs.WellFormed.{IsWellFormed};

use clause_form::Clauses;
use linear_form::sum_at;

/// Whether `den * form <= num` holds, or `<` where it is strict. None where a number is too wide.
#[tactic(auto, using(whole::proofs::Overflow::signed))]
pub(crate) fn row_holds(
    clauses: &Clauses,
    values: &[i128],
    over: i128,
    form: u32,
    num: i128,
    den: i128,
    strict: bool,
) -> Option<bool>
    requires formed { IsWellFormed clauses.now }
    requires count { length values.now ≡ clauses.now.columns }
    requires each_in { All IsWithin values.now }
    ensures { IfSome result (λ holds. IsTrue holds ↔ Bounds strict true (den *ℤ form_value clauses.now.columns clauses.now.forms (entry values.now) form) (num *ℤ over)) }
{
    let value = value_of(clauses, values, form)?;
    is_bounded(den, value, num, over, strict)
}

// Whether `den * value` is at most `num * over`, or below it where that is asked.
#[tactic(auto, using(whole::proofs::Overflow::signed))]
fn is_bounded(den: i128, value: i128, num: i128, over: i128, strict: bool) -> Option<bool>
    ensures { IfSome result (λ holds. IsTrue holds ↔ Bounds strict true (den *ℤ value) (num *ℤ over)) }
{
    let sum = den.checked_mul(value)?;
    let bound = num.checked_mul(over)?;
    Some(is_at_most(sum, bound, strict))
}

fn is_at_most(sum: i128, bound: i128, strict: bool) -> bool
    ensures { IsTrue result ↔ Bounds strict true sum bound }
{
    if strict { sum < bound } else { sum <= bound }
}

// The value of a form by its number: of a column, or of a form of several columns.
fn value_of(clauses: &Clauses, values: &[i128], form: u32) -> Option<i128>
    requires formed { IsWellFormed clauses.now }
    requires count { length values.now ≡ clauses.now.columns }
    requires each_in { All IsWithin values.now }
    ensures { IfSome result (λ z. z ≡ form_value clauses.now.columns clauses.now.forms (entry values.now) form) }
{
    if form < clauses.columns {
        return Some(values[form as usize]);
    }
    let number = form - clauses.columns;
    match clauses.forms.get(number as usize) {
        Some(form) => sum_at(form, values),
        None => None,
    }
}

//! Where does a value come to its limit as the infinitesimal grows? Two numbers with infinitesimals, of which the lesser
//! one grows faster, meet where the infinitesimal is the quotient of their real and their infinitesimal distance.

ghost use Rattle.std.specs.Prelude.{◌≡◌, ◌↔◌, IsTrue, pos, IfOk, OnOk, IfErr};
ghost use Rattle.ordered_field.specs.Rational.{whole, ◌*ℚ◌, neg_ℚ};
ghost use Rattle.ordered_field.specs.Order.{◌<ℚ◌};
ghost use Rattle.ordered_field.specs.Delta.{delta_value};
ghost use Rattle.ordered_field.specs.Wideness.{SumIsWide};
ghost use Rattle.whole.specs.declared.answers.Stuck.{Stuck as StuckAt};
ghost use Rattle.corner_values.specs.Epsilon.{difference, Approaches, MeetAt, IsLeastOf};
ghost use Rattle.corner_values.specs.Faults.{IsStuckDifference, IsStuckQuotient, IsStuckMeeting};

use crate::operation::operation;
use field_rows::inverse;
use ordered_field::{Delta, OrderedField, Wide, compare};
use std::cmp::Ordering;
use whole::{Op, Stuck};

/// The lesser of `epsilon` and the number at which `lesser`, which is at most `greater`, meets it, if it grows faster.
/// `Stuck` names one of the two differences, or the quotient, that is too wide, with the variable.
pub(crate) fn up_to_meeting<F: OrderedField>(
    variable: u32,
    lesser: Delta<F>,
    greater: Delta<F>,
    epsilon: F,
) -> Result<F, Stuck>
    ensures exact { IfOk result (λ e. IsLeastOf (F.value epsilon)
        (MeetAt (delta_value F.value lesser) (delta_value F.value greater)) (F.value e)) }
    ensures kept { OnOk result ((s : StuckAt) →
        ¬ IsStuckMeeting F.LIMIT variable (delta_value F.value lesser) (delta_value F.value greater) s) }
    ensures stuck { IfErr result (IsStuckMeeting F.LIMIT variable (delta_value F.value lesser) (delta_value F.value greater)) }
{
    if approaches(lesser, greater) {
        match meeting(variable, lesser, greater) {
            Ok(number) => Ok(least(epsilon, number)),
            Err(stuck) => Err(stuck),
        }
    } else {
        Ok(epsilon)
    }
}

// Whether it is below the other number, and grows faster.
fn approaches<F: OrderedField>(lesser: Delta<F>, greater: Delta<F>) -> bool
    ensures { IsTrue result ↔ Approaches (delta_value F.value lesser) (delta_value F.value greater) }
{
    is_below(lesser.real(), greater.real()) && is_below(greater.inf(), lesser.inf())
}

fn is_below<F: OrderedField>(a: F, b: F) -> bool
    ensures { IsTrue result ↔ (F.value a <ℚ F.value b) }
{
    match compare(a, b) {
        Ordering::Less => true,
        Ordering::Equal => false,
        Ordering::Greater => false,
    }
}

// The lesser of two numbers.
fn least<F: OrderedField>(a: F, b: F) -> F
    ensures { IsLeastOf (F.value a) (λ q. q ≡ F.value b) (F.value result) }
{
    if is_below(b, a) { b } else { a }
}

// The number at which they meet.
fn meeting<F: OrderedField>(variable: u32, lesser: Delta<F>, greater: Delta<F>) -> Result<F, Stuck>
    requires { Approaches (delta_value F.value lesser) (delta_value F.value greater) }
    ensures exact { IfOk result (λ q. MeetAt (delta_value F.value lesser) (delta_value F.value greater) (F.value q)) }
    ensures kept { OnOk result ((s : StuckAt) →
        ¬ IsStuckMeeting F.LIMIT variable (delta_value F.value lesser) (delta_value F.value greater) s) }
    ensures stuck { IfErr result (IsStuckMeeting F.LIMIT variable (delta_value F.value lesser) (delta_value F.value greater)) }
{
    let distance = difference(variable, greater.real(), lesser.real())?;
    let pace = difference(variable, lesser.inf(), greater.inf())?;
    quotient(variable, distance, pace)
}

// `y - x`, as the sum of `y` and the opposite of `x`.
fn difference<F: OrderedField>(variable: u32, y: F, x: F) -> Result<F, Stuck>
    ensures exact { IfOk result (λ d. F.value d ≡ difference (F.value y) (F.value x)) }
    ensures kept { OnOk result (¬ SumIsWide F.LIMIT (F.value y) (neg_ℚ (F.value x))) }
    ensures stuck { IfErr result (IsStuckDifference F.LIMIT variable (F.value y) (F.value x)) }
{
    let less = x.neg();
    match y.add(less) {
        Ok(difference) => Ok(difference),
        Err(Wide) => Err(operation(variable, Op::Sum, y, less)),
    }
}

// `n / d`, as the product of `n` and the inverse of `d`.
fn quotient<F: OrderedField>(variable: u32, n: F, d: F) -> Result<F, Stuck>
    requires { ¬ (F.value d ≡ whole (pos 0)) }
    ensures exact { IfOk result (λ q. F.value q *ℚ F.value d ≡ F.value n) }
    ensures kept { OnOk result ((s : StuckAt) → ¬ IsStuckQuotient F.LIMIT variable (F.value n) (F.value d) s) }
    ensures stuck { IfErr result (IsStuckQuotient F.LIMIT variable (F.value n) (F.value d)) }
{
    let over = inverse(d);
    match n.mul(over) {
        Ok(quotient) => Ok(quotient),
        Err(Wide) => Err(operation(variable, Op::Product, n, over)),
    }
}

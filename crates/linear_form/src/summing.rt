// The exact value of a form.
ghost use Rattle.std.specs.Prelude.{◌≡◌, ◌<◌, pos, length, All, IfSome};
ghost use Rattle.whole.specs.Numbers.{IsWithin};
ghost use Rattle.linear_form.specs.Sums.{sum_of, running, entry};

use crate::lists::Form;
use whole::checked_fma;

/// The sum of the form at these values of the columns, added in the form's order.
///
/// None exactly where a product or a running sum exceeds `2^127 - 1` in size. It takes no memory.
pub fn sum_at(form: &Form, values: &[i128]) -> Option<i128>
    requires columns { All (λ t. t.column < length values.now) form.now.terms }
    requires coefs { All (λ t. IsWithin t.coef) form.now.terms }
    requires entries { All IsWithin values.now }
    ensures exact { result ≡ running (entry values.now) (pos 0) form.now.terms }
    ensures sum { IfSome result (λ z. z ≡ sum_of (entry values.now) form.now.terms) }
{
    let mut sum = 0;
    for term in form.terms.as_slice() {
        sum = checked_fma(sum, term.coef, values[term.column as usize])?;
    }
    Some(sum)
}

#[cfg(test)]
mod tests {
    use super::sum_at;
    use crate::lists::{Form, Term, Terms};
    use std::test::Fail;

    #[test]
    fn a_form_is_summed_in_its_order(rt: HostRuntime) -> Result<(), Fail> {
        let mut terms = Vec::new(rt.alloc());
        terms.push(Term { column: 0, coef: 2 })?;
        terms.push(Term {
            column: 2,
            coef: -3,
        })?;
        let form = Form {
            terms: Terms::from_vec(terms),
        };
        // 2 * 5 - 3 * 7; column 1 has no term
        assert_eq!(rt; sum_at(&form, &[5, 100, 7]), Some(-11));
        // 2 * 2^126 overflows, although the sum would be 0
        assert_eq!(rt; sum_at(&form, &[1 << 126, 0, 1 << 125]), None);
        Ok(())
    }
}

// The normal form of a comparison.
ghost use Rattle.std.specs.Prelude.{◌≡◌, ◌≢◌, ◌≤◌, ◌<◌, ◌*◌, ◌^◌, ◌↔◌, ◌≤ℤ◌, ◌<ℤ◌, ℕ, ℤ, pos, neg_ℤ, [], map, All, IfOk, IsTrue, length, unsigned_abs};
ghost use Rattle.whole.specs.Numbers.{IsWithin};
ghost use Rattle.linear_form.specs.Reduced.{reduced, IsReduced};
ghost use Rattle.linear_form.specs.NormalForm.{Meets, MeetsNormal, IsNormal, HasSmallNumbers, HasColumnsBelow, SameUpToFactor, bound, normal, normal_of, literal, is_related, quotient, divisor_from, negated_if, turned_if, lowest_num, lowest_den};

use crate::lists::{Form, Term, Terms};
use crate::reducing::reduce_terms;
use crate::relations::{Comparison, Normal, Rel};
use lowest_terms::{Reduced, reduce};
use std::alloc::Global;
use whole::{NoMemory, gcd};

/// What the comparison says, as a literal in normal form: like columns are added and zeros dropped,
/// the form is divided by its greatest common divisor, its first coefficient is above 0, and the
/// threshold is in lowest terms.
///
/// At most 128 terms of at most `10^13` in size, and a constant below `10^16` in size. Comparisons
/// that agree up to a factor above 0 become one literal.
pub fn normalise(alloc: Global, c: &Comparison) -> Result<Normal, NoMemory>
    requires count { length c.now.terms ≤ 128 }
    requires coefs { All (λ t. unsigned_abs t.coef ≤ 10 ^ 13) c.now.terms }
    requires constant { unsigned_abs c.now.constant < 10 ^ 16 }
    ensures exact { IfOk result (λ n. n ≡ normal_of c.now) }
    ensures truth { IfOk result (λ n. (value : ℕ → ℤ) (den : ℕ) → 0 < den → (Meets value den c.now ↔ MeetsNormal value den n)) }
    ensures normal { IfOk result IsNormal }
    ensures small { IfOk result HasSmallNumbers }
    ensures columns { IfOk result (λ n. (columns : ℕ) → All (λ t. t.column < columns) c.now.terms → HasColumnsBelow columns n) }
    ensures unique { IfOk result (λ n. (other : Comparison) → SameUpToFactor c.now other → n ≡ normal_of other) }
{
    let terms = reduce_terms(alloc, c.terms.as_slice())?;
    Ok(literal_of(terms, c.constant, c.rel))
}

// The literal of a reduced sum plus a constant.
fn literal_of(terms: Vec<Term>, constant: i128, rel: Rel) -> Normal
    requires sum { IsReduced terms.items }
    requires coefs { All (λ t. unsigned_abs t.coef ≤ 128 * 10 ^ 13) terms.items }
    requires constant { unsigned_abs constant < 10 ^ 16 }
    ensures { result ≡ normal terms.items constant rel }
{
    match terms.first().copied() {
        Some(first) => bound_of(first.coef < 0, terms, constant, rel),
        None => decided(rel, constant),
    }
}

// The literal of a sum with terms, turned where its first coefficient is below 0.
fn bound_of(negate: bool, terms: Vec<Term>, constant: i128, rel: Rel) -> Normal
    requires coefs { All (λ t. unsigned_abs t.coef ≤ 128 * 10 ^ 13) terms.items }
    requires constant { unsigned_abs constant < 10 ^ 16 }
    requires some { 0 < divisor_from 0 terms.items }
    ensures { result ≡ bound negate terms.items constant rel }
{
    let divisor = divisor_of(terms.as_slice());
    let threshold = threshold_of(negate, constant, divisor);
    let form = Form {
        terms: Terms::from_vec(divided(terms, negate, divisor)),
    };
    literal(rel.turned_if(negate), form, threshold.num, threshold.den)
}

// The constant on the other side, over the divisor.
fn threshold_of(negate: bool, constant: i128, divisor: i128) -> Reduced
    requires constant { unsigned_abs constant < 10 ^ 16 }
    requires some { pos 1 ≤ℤ divisor }
    ensures num { result.num ≡ lowest_num (neg_ℤ (negated_if negate constant)) (unsigned_abs divisor) }
    ensures den { result.den ≡ pos (lowest_den (neg_ℤ (negated_if negate constant)) (unsigned_abs divisor)) }
{
    reduce(-negated_if(negate, constant), divisor)
}

// What a sum without terms says.
fn decided(rel: Rel, constant: i128) -> Normal
    ensures { result ≡ normal [] constant rel }
{
    let holds = match rel {
        Rel::AtMost => constant <= 0,
        Rel::Below => constant < 0,
        Rel::AtLeast => constant >= 0,
        Rel::Above => constant > 0,
    };
    if holds { Normal::Always } else { Normal::Never }
}

fn literal(rel: Rel, form: Form, num: i128, den: i128) -> Normal
    ensures { result ≡ literal rel form.terms num den }
{
    let strict = matches!(rel, Rel::Below | Rel::AtLeast);
    let positive = matches!(rel, Rel::AtMost | Rel::Below);
    Normal::Bound {
        form,
        num,
        den,
        strict,
        positive,
    }
}

fn negated_if(negate: bool, n: i128) -> i128
    requires { IsWithin n }
    ensures { result ≡ negated_if negate n }
{
    if negate { -n } else { n }
}

// The greatest common divisor of all coefficients; 0 where there is none.
fn divisor_of(terms: &[Term]) -> i128
    requires { All (λ t. IsWithin t.coef) terms.now }
    ensures divisor { result ≡ pos (divisor_from 0 terms.now) }
    ensures within { IsWithin result }
{
    let mut divisor = 0;
    for term in terms {
        divisor = gcd(divisor, term.coef);
    }
    divisor
}

// Each coefficient over the divisor, negated where that is asked.
fn divided(mut terms: Vec<Term>, negate: bool, divisor: i128) -> Vec<Term>
    requires coefs { All (λ t. IsWithin t.coef) terms.items }
    requires some { pos 1 ≤ℤ divisor }
    ensures { result.items ≡ map (quotient negate (unsigned_abs divisor)) terms.items }
{
    for term in terms.iter_mut() {
        *term = quotient(*term, negate, divisor);
    }
    terms
}

fn quotient(term: Term, negate: bool, divisor: i128) -> Term
    requires coef { IsWithin term.coef }
    requires some { pos 1 ≤ℤ divisor }
    ensures { result ≡ quotient negate (unsigned_abs divisor) term }
{
    Term {
        column: term.column,
        coef: negated_if(negate, term.coef) / divisor,
    }
}

#[cfg(test)]
mod tests {
    use super::normalise;
    use crate::lists::{Form, Term, Terms};
    use crate::relations::{Comparison, Normal, Rel};
    use std::alloc::{AllocError, Global};
    use std::test::Fail;

    fn list(alloc: Global, terms: &[Term]) -> Result<Terms, AllocError>
        ensures { IfOk result (λ t. t ≡ terms.now) }
    {
        Ok(Terms::from_vec(Vec::from_slice(alloc, terms)?))
    }

    // -2*x0 + 4*x1 + 3 <= 0 says x0 - 2*x1 >= 3/2
    #[test]
    fn a_first_coefficient_below_zero_turns_the_relation(rt: HostRuntime) -> Result<(), Fail> {
        let alloc = rt.alloc();
        let terms = [
            Term {
                column: 0,
                coef: -2,
            },
            Term { column: 1, coef: 4 },
        ];
        let comparison = Comparison {
            terms: list(alloc, &terms)?,
            constant: 3,
            rel: Rel::AtMost,
        };
        let quotients = [
            Term { column: 0, coef: 1 },
            Term {
                column: 1,
                coef: -2,
            },
        ];
        let expected = Normal::Bound {
            form: Form {
                terms: list(alloc, &quotients)?,
            },
            num: 3,
            den: 2,
            strict: true,
            positive: false,
        };
        assert_eq!(rt;
            normalise(alloc, &comparison).expect(&rt, "memory"),
            expected
        );
        Ok(())
    }

    // 3*x2 + 6*x0 - 3*x2 - 4 > 0 says x0 > 2/3
    #[test]
    fn like_columns_are_added_and_zeros_dropped(rt: HostRuntime) -> Result<(), Fail> {
        let alloc = rt.alloc();
        let terms = [
            Term { column: 2, coef: 3 },
            Term { column: 0, coef: 6 },
            Term {
                column: 2,
                coef: -3,
            },
        ];
        let comparison = Comparison {
            terms: list(alloc, &terms)?,
            constant: -4,
            rel: Rel::Above,
        };
        let expected = Normal::Bound {
            form: Form {
                terms: list(alloc, &[Term { column: 0, coef: 1 }])?,
            },
            num: 2,
            den: 3,
            strict: false,
            positive: false,
        };
        assert_eq!(rt;
            normalise(alloc, &comparison).expect(&rt, "memory"),
            expected
        );
        Ok(())
    }

    // 0 < 0 is never true, and -7 < 0 always is
    #[test]
    fn a_sum_without_terms_is_decided_by_its_constant(rt: HostRuntime) -> Result<(), Fail> {
        let alloc = rt.alloc();
        let never = Comparison {
            terms: list(alloc, &[Term { column: 5, coef: 0 }])?,
            constant: 0,
            rel: Rel::Below,
        };
        assert_eq!(rt;
            normalise(alloc, &never).expect(&rt, "memory"),
            Normal::Never
        );
        let always = Comparison {
            terms: list(alloc, &[])?,
            constant: -7,
            rel: Rel::Below,
        };
        assert_eq!(rt;
            normalise(alloc, &always).expect(&rt, "memory"),
            Normal::Always
        );
        Ok(())
    }
}

ghost use Rattle.std.specs.Prelude.{◌≡◌, ◌<◌};
ghost use Rattle.path_server.specs.Limits.{IsBuffer};
ghost use Rattle.unroll_tests.specs.Example as example;

use clause_form::Formula;
use linear_form::{Comparison, Rel};
use path_server::{Path, Setting};
use run_rows::Shape;
use std::alloc::Global;
use std::test::Fail;
use unroll::path_row;
use whole::Pair;

// One flow, one state, rows 0 to 3: the credit is column 0, row 0 has columns 1 to 4, row 1 has columns 5 to 8.
const SHAPE: Shape = Shape {
    flows: 1,
    states: 1,
    h: 2,
    t: 1,
};

#[tactic(auto, using(whole::proofs::Overflow::signed))]
fn setting(buffer: Option<Pair>) -> Setting
    ensures { result ≡ example.setting buffer }
{
    Setting {
        flows: 1,
        steps: 1,
        rtt: 1,
        path: Path {
            rate: Pair { num: 3, den: 2 },
            jitter: 1,
            buffer,
        },
        budget: 1,
    }
}

// Whether the formula is this comparison: columns with their coefficients, a constant and the relation.
pub(crate) fn says(formula: &Formula, terms: &[(u32, i128)], constant: i128, rel: Rel) -> bool {
    match formula {
        Formula::Cmp(comparison) => is_sum(comparison, terms, constant) && comparison.rel == rel,
        _ => false,
    }
}

fn is_sum(comparison: &Comparison, terms: &[(u32, i128)], constant: i128) -> bool {
    let mut same = comparison.constant == constant && comparison.terms.len() == terms.len();
    for (term, wanted) in comparison.terms.as_slice().iter().zip(terms.iter()) {
        same = same && term.column == wanted.0 && term.coef == wanted.1;
    }
    same
}

// Whether the formula is that the column is 0: a conjunction of two comparisons.
fn says_zero(formula: &Formula, column: u32) -> bool {
    match formula {
        Formula::And(parts) if parts.len() == 2 => {
            says(&parts[0], &[(column, 1)], 0, Rel::AtMost)
                && says(&parts[1], &[(column, 1)], 0, Rel::AtLeast)
        }
        _ => false,
    }
}

// The formulas of a row.
fn made(alloc: Global, buffer: Option<Pair>, row: u32) -> Result<Vec<Formula>, Fail>
    requires buffer_in { IsBuffer buffer }
    requires row_in { row < 4 }
{
    match path_row(alloc, &setting(buffer), &SHAPE, row) {
        Ok(formulas) => Ok(formulas),
        Err(_) => Err(Fail::from("no memory")),
    }
}

#[test]
fn the_first_row_of_one_flow_has_eight_formulas(rt: HostRuntime) -> Result<(), Fail> {
    let made = made(rt.alloc(), None, 0)?;
    assert_eq!(rt; made.len(), 8);
    // W = 0, the credit is at least 0, S = 0, L = 0, A is at least 0.
    assert!(rt; says_zero(&made[0], 1));
    assert!(rt; says(&made[1], &[(0, 1)], 0, Rel::AtLeast));
    assert!(rt; says_zero(&made[2], 3));
    assert!(rt; says_zero(&made[3], 4));
    assert!(rt; says(&made[4], &[(2, 1)], 0, Rel::AtLeast));
    // A - L - S is at least 0.
    assert!(rt; says(&made[5], &[(2, 1), (4, -1), (3, -1)], 0, Rel::AtLeast));
    // 3/2 * 0 + Q0 - W - S is at least 0, and S - 3/2 * (0 - 1) - Q0 + W is, both times 2.
    assert!(rt; says(&made[6], &[(0, 2), (1, -2), (3, -2)], 0, Rel::AtLeast));
    assert!(rt; says(&made[7], &[(3, 2), (0, -2), (1, 2)], 3, Rel::AtLeast));
    Ok(())
}

#[test]
fn a_full_buffer_stands_at_the_row_before(rt: HostRuntime) -> Result<(), Fail> {
    let buffer = Some(Pair { num: 1, den: 3 });
    let made = made(rt.alloc(), buffer, 1)?;
    // Growth has 4 formulas, and each other rule after the start has one.
    assert_eq!(rt; made.len(), 12);
    // 3/2 + Q0 - W(1) + 1/3 - (A - L) is at least 0, times 6.
    assert!(rt;
        says(
            &made[9],
            &[(0, 6), (5, -6), (6, -6), (8, 6)],
            11,
            Rel::AtLeast
        )
    );
    // L(1) - L(0) is at most 0, or A - L - Q0 + W(0) - 1/3 is at least 0, times 6.
    match &made[10] {
        Formula::Or(parts) => {
            assert_eq!(rt; parts.len(), 2);
            assert!(rt; says(&parts[0], &[(8, 1), (4, -1)], 0, Rel::AtMost));
            let full = [(6, 6), (8, -6), (0, -6), (1, 6)];
            assert!(rt; says(&parts[1], &full, -2, Rel::AtLeast));
        }
        _ => assert!(rt; false),
    }
    // 3/2 - W(1) + W(0) is at least 0, times 2.
    assert!(rt; says(&made[11], &[(5, -2), (1, 2)], 3, Rel::AtLeast));
    Ok(())
}

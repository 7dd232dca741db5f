ghost use Rattle.std.specs.Prelude.{◌≡◌, length, IfOk};
ghost use Rattle.tableau.specs.Terms.{AreForms};

use crate::{PivotFault, RowTerm, Tableau};
use fraction::{Frac7, MixedFrac};
use ordered_field::OrderedField;
use std::alloc::{AllocError, Global};
use std::test::Fail;
use whole::{Op, Pair, Place, Stuck};

// The one form `coef * x0 + x1`
fn form(alloc: Global, coef: i128) -> Result<Vec<Vec<RowTerm>>, AllocError>
    ensures forms { IfOk result (λ rows. AreForms 2 rows.items) }
    ensures one { IfOk result (λ rows. length rows.items ≡ 1) }
{
    let terms = Vec::from_slice(
        alloc,
        &[RowTerm { var: 0, coef }, RowTerm { var: 1, coef: 1 }],
    )?;
    let mut rows = Vec::new(alloc);
    rows.push(terms)?;
    Ok(rows)
}

fn tableau<F: OrderedField>(alloc: Global, coef: i128) -> Result<Tableau<F>, PivotFault> {
    let rows = form(alloc, coef)?;
    Tableau::new(alloc, 2, &rows)
}

fn entry<F: OrderedField>(tableau: &Tableau<F>, basic: u32, other: u32) -> (i128, i128) {
    if basic < tableau.variables() {
        tableau.entry(basic, other).parts()
    } else {
        (0, 0)
    }
}

fn exchange<F: OrderedField>(
    tableau: &mut Tableau<F>,
    basic: u32,
    other: u32,
) -> Result<(), PivotFault> {
    if basic < tableau.variables() && tableau.entry(basic, other).sign() != 0 {
        tableau.pivot(basic, other)
    } else {
        Ok(())
    }
}

// Entry (2, 0) at the opening, and then (0, 2) and (0, 1)
fn entries<F: OrderedField>(alloc: Global, coef: i128) -> Result<[(i128, i128); 3], PivotFault> {
    let mut tableau = tableau::<F>(alloc, coef)?;
    let opening = entry(&tableau, 2, 0);
    exchange(&mut tableau, 2, 0)?;
    Ok([opening, entry(&tableau, 0, 2), entry(&tableau, 0, 1)])
}

#[test]
fn the_row_is_solved_for_the_variable_that_enters(rt: HostRuntime) -> Result<(), Fail> {
    // s = x0 + x1, so x0 = s - x1
    let sum = [(1, 1), (1, 1), (-1, 1)];
    assert_eq!(rt; entries::<Frac7>(rt.alloc(), 1), Ok(sum));
    assert_eq!(rt; entries::<MixedFrac>(rt.alloc(), 1), Ok(sum));
    // s = -3 * x0 + x1, so x0 = -1/3 * s + 1/3 * x1
    let third = [(-3, 1), (-1, 3), (1, 3)];
    assert_eq!(rt; entries::<Frac7>(rt.alloc(), -3), Ok(third));
    Ok(())
}

#[test]
fn the_two_variables_change_places(rt: HostRuntime) -> Result<(), Fail> {
    let mut tableau = tableau::<Frac7>(rt.alloc(), 1)?;
    assert_eq!(rt; tableau.columns(), 2);
    assert_eq!(rt; tableau.variables(), 3);
    exchange(&mut tableau, 2, 0)?;
    if tableau.variables() == 3 {
        assert!(rt; tableau.is_basic(0));
        assert!(rt; !tableau.is_basic(2));
        assert_eq!(rt; tableau.row(0).len(), 2);
        assert_eq!(rt; tableau.row(2).len(), 0);
        assert_eq!(rt; tableau.rows_with(1).contains(&0), true);
    }
    Ok(())
}

#[test]
fn a_coefficient_past_the_limit_is_named(rt: HostRuntime) -> Result<(), Fail> {
    let stuck = Stuck {
        place: Place::Bound,
        at: 2,
        by: 0,
        op: Op::Product,
        left: Pair { num: 128, den: 1 },
        right: Pair { num: 1, den: 1 },
    };
    assert_eq!(rt;
        entries::<Frac7>(rt.alloc(), 128),
        Err(PivotFault::Stuck(stuck))
    );
    Ok(())
}

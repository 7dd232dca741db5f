//! Runs a fixed list of pivots or of bounds on a tableau of differences, for the comparison in `bench/simplex`.
//!
//! The words are the type of numbers (`wide` for `Frac128` or `mixed` for `MixedFrac`), the work (`pivot` or
//! `check`), the number of columns, and how many turns are made. There are about as many rows as columns, and each is
//! the difference of two columns, so that all entries stay -1, 0 or 1.
//!
//! A turn of `pivot` takes a variable and, if it is basic, an entry of its row, and exchanges the two. A turn of
//! `check` sets a lower and an upper bound of one row and checks; after the last row all bounds are undone, and others
//! are set. Some values meet all bounds of a round. What is written is how many pivots were made, and a checksum of
//! them.
#![tactic(auto)]

ghost use Rattle.std.specs.Prelude.{◌≡◌, ◌+◌, ◌≤◌, [], ◌∷◌, length, pos, negsuc, IfOk};
ghost use Rattle.tableau.specs.Terms.{AreForms};

use fraction::{Frac128, MixedFrac};
use ordered_field::OrderedField;
use simplex::{Bound, Outcome, Simplex};
use std::alloc::{AllocError, Global};
use std::{env, io};
use tableau::{PivotFault, RowTerm, Tableau};
use whole::Budget;

// The numbers that a generator of D. H. Lehmer's kind gives, as Knuth chose its constants for MMIX.
#[derive(Drop)]
struct Generator {
    state: u64,
}

impl Generator {
    // A number below `limit`, or 0.
    fn below(&mut self, limit: u32) -> u32 {
        self.state = self
            .state
            .wrapping_mul(6364136223846793005)
            .wrapping_add(1442695040888963407);
        ((self.state >> 33) as u32).checked_rem(limit).unwrap_or(0)
    }
}

// How many pivots were made, and a checksum of them.
#[derive(Clone, Copy, Debug)]
struct Tally {
    pivots: u64,
    sum: u64,
}

impl Tally {
    fn new() -> Tally {
        Tally { pivots: 0, sum: 0 }
    }

    fn add(&mut self, basic: u32, other: u32) {
        self.pivots = self.pivots.wrapping_add(1);
        self.sum = self
            .sum
            .wrapping_mul(31)
            .wrapping_add(u64::from(basic))
            .wrapping_mul(31)
            .wrapping_add(u64::from(other));
    }
}

// The form `x_plus - x_minus`.
fn difference(alloc: Global, plus: u32, minus: u32) -> Result<Vec<RowTerm>, AllocError>
    ensures { IfOk result (λ row. row.items
        ≡ record { var = plus; coef = pos 1 } ∷ record { var = minus; coef = negsuc 0 } ∷ []) }
{
    let terms = [
        RowTerm { var: plus, coef: 1 },
        RowTerm {
            var: minus,
            coef: -1,
        },
    ];
    Vec::from_slice(alloc, &terms)
}

// The forms with `x_plus - x_minus` behind them, if that is a difference of two columns.
fn with_difference(
    alloc: Global,
    mut forms: Vec<Vec<RowTerm>>,
    columns: u32,
    plus: u32,
    minus: u32,
) -> Result<Vec<Vec<RowTerm>>, AllocError>
    requires { AreForms columns forms.items }
    ensures forms { IfOk result (λ more. AreForms columns more.items) }
    ensures few { IfOk result (λ more. length more.items ≤ length forms.items + 1) }
{
    if plus >= columns || minus >= columns {
        return Ok(forms);
    }
    if plus == minus {
        return Ok(forms);
    }
    let form = difference(alloc, plus, minus)?;
    forms.push(form)?;
    Ok(forms)
}

// As many differences as columns, but where the generator gives a column twice.
fn differences(alloc: Global, columns: u32) -> Result<Vec<Vec<RowTerm>>, AllocError>
    ensures forms { IfOk result (λ forms. AreForms columns forms.items) }
    ensures few { IfOk result (λ forms. length forms.items ≤ columns) }
{
    let mut generator = Generator { state: 1 };
    let mut forms = Vec::new(alloc);
    for _made in 0..columns {
        let plus = generator.below(columns);
        let minus = generator.below(columns);
        forms = with_difference(alloc, forms, columns, plus, minus)?;
    }
    Ok(forms)
}

// The variable of an entry in the row of a variable, if that is basic.
fn entering<F: OrderedField>(
    tableau: &Tableau<F>,
    basic: u32,
    generator: &mut Generator,
) -> Option<u32> {
    if basic >= tableau.variables() {
        return None;
    }
    let row = tableau.row(basic);
    let at = generator.below(row.len().min(1 << 20) as u32);
    match row.get(at as usize) {
        Some(entry) => Some(entry.variable),
        None => None,
    }
}

fn exchange<F: OrderedField>(
    tableau: &mut Tableau<F>,
    generator: &mut Generator,
    tally: &mut Tally,
) -> Result<(), PivotFault> {
    let basic = generator.below(tableau.variables());
    let Some(other) = entering(tableau, basic, generator) else {
        return Ok(());
    };
    if basic >= tableau.variables() || tableau.entry(basic, other).sign() == 0 {
        return Ok(());
    }
    tableau.pivot(basic, other)?;
    tally.add(basic, other);
    Ok(())
}

fn exchanges<F: OrderedField>(alloc: Global, columns: u32, turns: u64) -> Result<Tally, PivotFault>
    requires { columns ≤ 4096 }
{
    let forms = differences(alloc, columns)?;
    let mut tableau = Tableau::<F>::new(alloc, columns, &forms)?;
    let mut generator = Generator { state: 2 };
    let mut tally = Tally::new();
    for _turn in 0..turns {
        exchange(&mut tableau, &mut generator, &mut tally)?;
    }
    Ok(tally)
}

// The level of a column in a round, from 0 to 96.
fn level(round: u64, column: u32) -> u8 {
    let mixed = round
        .wrapping_mul(6364136223846793005)
        .wrapping_add(u64::from(column).wrapping_mul(1442695040888963407));
    ((mixed >> 40) % 97) as u8
}

// What a form is at the levels of a round.
fn height(form: &[RowTerm], round: u64) -> i128 {
    match form {
        [plus, minus] => {
            let high = i128::from(level(round, plus.var));
            high - i128::from(level(round, minus.var))
        }
        _ => 0,
    }
}

// Sets a bound that is small, and says whether it is granted.
fn set<F: OrderedField>(simplex: &mut Simplex<F>, var: u32, upper: bool, num: i128) -> bool {
    if var >= simplex.variables() || simplex.mark() >= 1 << 20 || num.unsigned_abs() > 1000 {
        return false;
    }
    let bound = Bound {
        var,
        upper,
        num,
        den: 1,
        strict: false,
    };
    matches!(simplex.set_bound(bound, 0), Outcome::Fine)
}

// The form of this variable is from `height` to `height + 3`.
fn check<F: OrderedField>(
    simplex: &mut Simplex<F>,
    var: u32,
    height: i128,
    budget: &mut Budget,
    tally: &mut Tally,
) -> bool {
    if height.unsigned_abs() > 200 {
        return false;
    }
    if !set(simplex, var, false, height) || !set(simplex, var, true, height + 3) {
        return false;
    }
    let fine = matches!(simplex.check(budget), Outcome::Fine);
    for pivot in simplex.pivots() {
        tally.add(pivot.0, pivot.1);
    }
    fine
}

fn checks<F: OrderedField>(alloc: Global, columns: u32, turns: u64) -> Result<Tally, PivotFault>
    requires { columns ≤ 4096 }
{
    let forms = differences(alloc, columns)?;
    let mut simplex = Simplex::<F>::new(alloc, columns, &forms)?;
    let mut budget = Budget::new(1 << 40);
    let mut tally = Tally::new();
    let count = forms.len() as u64;
    if count == 0 {
        return Ok(tally);
    }
    for turn in 0..turns {
        let at = (turn % count) as u32;
        if at == 0 {
            simplex.undo(0);
        }
        if let Some(form) = forms.get(at as usize) {
            let height = height(form.as_slice(), turn / count);
            if !check(&mut simplex, columns + at, height, &mut budget, &mut tally) {
                return Ok(tally);
            }
        }
    }
    Ok(tally)
}

fn measured<F: OrderedField>(
    alloc: Global,
    work: &str,
    columns: u32,
    turns: u64,
) -> Result<Tally, PivotFault> {
    let columns = columns.min(4096);
    if work == "pivot" {
        exchanges::<F>(alloc, columns, turns)
    } else {
        checks::<F>(alloc, columns, turns)
    }
}

fn main(rt: HostRuntime) -> io::Result<()> {
    let mut words = env::args(&rt)?.skip(1);
    let field = words.next().unwrap_or(String::new(rt.alloc()));
    let work = words.next().unwrap_or(String::new(rt.alloc()));
    let columns = words.next().unwrap_or(String::new(rt.alloc()));
    let turns = words.next().unwrap_or(String::new(rt.alloc()));
    let columns = columns.as_str().parse::<u32>().unwrap_or(0);
    let turns = turns.as_str().parse::<u64>().unwrap_or(0);
    let tally = if field.as_str() == "mixed" {
        measured::<MixedFrac>(rt.alloc(), work.as_str(), columns, turns)
    } else {
        measured::<Frac128>(rt.alloc(), work.as_str(), columns, turns)
    };
    match tally {
        Ok(tally) => println!(rt; "{} {}", tally.pivots, tally.sum),
        Err(fault) => println!(rt; "{fault:?}"),
    }
}

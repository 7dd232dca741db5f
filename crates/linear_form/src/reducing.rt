// Like columns are added, by one sort and one pass.
ghost use Rattle.std.specs.Prelude.{◌≡◌, ◌≤◌, ◌*◌, ◌^◌, ℕ, All, IfOk, length, unsigned_abs, OnOk};
ghost use Rattle.std.specs.List.Sorted.{IsNonDecreasingBy};
ghost use Rattle.linear_form.specs.Reduced.{reduced, closed};

use crate::lists::Term;
use std::alloc::Global;
use whole::NoMemory;

// The terms with like columns added and zeros left out, in column order.
pub fn reduce_terms(alloc: Global, terms: &[Term]) -> Result<Vec<Term>, NoMemory>
    requires count { length terms.now ≤ 128 }
    requires coefs { All (λ t. unsigned_abs t.coef ≤ 10 ^ 13) terms.now }
    ensures sum { IfOk result (λ v. v.items ≡ reduced terms.now) }
    ensures coefs { IfOk result (λ v. All (λ t. unsigned_abs t.coef ≤ 128 * 10 ^ 13) v.items) }
{
    let mut sorted = Vec::from_slice(alloc, terms)?;
    sorted.sort_unstable_by_key(|term| term.column);
    join_runs(alloc, sorted.as_slice())
}

fn join_runs(alloc: Global, sorted: &[Term]) -> Result<Vec<Term>, NoMemory>
    requires count { length sorted.now ≤ 128 }
    requires coefs { All (λ t. unsigned_abs t.coef ≤ 10 ^ 13) sorted.now }
    requires order { IsNonDecreasingBy (λ t. t.column) sorted.now }
    ensures sum { IfOk result (λ v. v.items ≡ reduced sorted.now) }
    ensures coefs { IfOk result (λ v. All (λ t. unsigned_abs t.coef ≤ 128 * 10 ^ 13) v.items) }
{
    let mut done = Vec::new(alloc);
    let mut run = Term { column: 0, coef: 0 };
    for term in sorted {
        if term.column == run.column {
            run.coef += term.coef;
        } else {
            close_run(&mut done, run)?;
            run = *term;
        }
    }
    close_run(&mut done, run)?;
    Ok(done)
}

// A run whose coefficients sum to 0 leaves no term.
fn close_run(done: &mut Vec<Term>, run: Term) -> Result<(), NoMemory>
    ensures { OnOk result (done.new.items ≡ closed done.old.items run) }
{
    if run.coef != 0 {
        done.push(run)?;
    }
    Ok(())
}

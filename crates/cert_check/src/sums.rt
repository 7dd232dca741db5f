// The running sums of a leaf, by column.
ghost use Rattle.std.specs.Prelude.{◌≡◌, ◌↔◌, ℕ, ℤ, ◌+◌, ◌<◌, ◌≤◌, ◌^◌, ◌*ℤ◌, length, unsigned_abs, All, IsTrue, IfOk, Some, slice_set};
ghost use Rattle.whole.specs.Numbers.{IsWithin};
ghost use Rattle.linear_form.specs.Reduced.{IsReduced};
ghost use Rattle.linear_form.specs.Sums.{coef_at};
ghost use Rattle.cert_check.specs.Tables.{stepped, sum_at, is_settled, weight, EachWithin, IsLeastOverflowed, IsCleared, least_of, overflowed_after};

use linear_form::Term;
use std::alloc::Global;
use std::marker::Model;
use whole::{NoMemory, checked_fma};

/// The running sum of each column; None where it overflowed 128 bits. Contracts see that list.
///
/// How many sums aren't 0, and the least column that overflowed, are kept on the way: so a leaf is
/// judged without a look at the columns that it doesn't name. All sums are 0 again after a leaf that
/// closes, since they cancel.
#[derive(Debug, Drop)]
pub(crate) struct Sums {
    sums: Vec<Option<i128>>,
    unsettled: usize,
    overflowed: Option<u32>,
}

impl Model for Sums {
    ghost use Rattle.std.specs.Prelude.{List, Option, ℤ};
    ghost use Rattle.cert_check.specs.Tables.{Tallies};

    ghost Value = { List (Option ℤ) };

    ghost view = { λ s. s.sums.items };

    ghost invariant = { λ s. Tallies s.sums.items s.unsettled s.overflowed };
}

impl Sums {
    /// A sum of 0 for each column.
    pub(crate) fn new(alloc: Global, columns: u32) -> Result<Sums, NoMemory>
        ensures { IfOk result (IsCleared columns) }
    {
        Ok(Sums {
            sums: Vec::from_elem(alloc, Some(0), columns as usize)?,
            unsettled: 0,
            overflowed: None,
        })
    }

    /// Adds a product to a column's sum.
    pub(crate) fn add(&mut self, column: u32, mult: i128, number: i128)
        requires column { column < length self.old }
        requires mult { IsWithin mult }
        requires number { IsWithin number }
        ensures sums { self.new ≡ slice_set self.old column (stepped mult number (sum_at self.old column)) }
        ensures within { EachWithin self.new }
    {
        let before = sum_of(self.sums.as_slice(), column);
        let after = stepped(before, mult, number);
        self.sums[column as usize] = after;
        self.unsettled = recounted(self.unsettled, before, after);
        self.overflowed = overflowed_after(self.overflowed, after, column);
    }

    /// Adds the terms of a row, multiplied.
    pub(crate) fn add_terms(&mut self, terms: &[Term], mult: i128, factor: i128)
        requires reduced { IsReduced terms.now }
        requires columns { All (λ t. t.column < length self.old) terms.now }
        requires small { All (λ t. unsigned_abs t.coef < 10 ^ 16) terms.now }
        requires factor { unsigned_abs factor < 10 ^ 16 }
        requires mult { IsWithin mult }
        requires within { EachWithin self.old }
        ensures length { length self.new ≡ length self.old }
        ensures sums { (column : ℕ) → sum_at self.new column ≡ stepped mult (factor *ℤ coef_at column terms.now) (sum_at self.old column) }
        ensures within { EachWithin self.new }
    {
        for term in terms {
            self.add(term.column, mult, factor * term.coef);
        }
    }

    /// The least column whose sum overflowed.
    pub(crate) fn overflowed(&self) -> Option<u32>
        ensures { IsLeastOverflowed self.now result }
    {
        self.overflowed
    }

    /// All sums are 0.
    pub(crate) fn cancel(&self) -> bool
        ensures { IsTrue result ↔ IsCleared (length self.now) self.now }
    {
        self.unsettled == 0
    }
}

fn settled(sum: Option<i128>) -> bool
    ensures { result ≡ is_settled sum }
{
    match sum {
        Some(sum) => sum == 0,
        None => false,
    }
}

// The number of unsettled sums after one of them has changed.
fn recounted(count: usize, before: Option<i128>, after: Option<i128>) -> usize
    requires some { weight before ≤ count }
    requires room { count < 2 ^ 32 }
    ensures { result + weight before ≡ count + weight after }
{
    match (settled(before), settled(after)) {
        (true, false) => count + 1,
        (false, true) => count - 1,
        _ => count,
    }
}

fn least(overflowed: Option<u32>, column: u32) -> u32
    ensures { result ≡ least_of overflowed column }
{
    match overflowed {
        Some(least) if least < column => least,
        _ => column,
    }
}

// The least column that overflowed, after a column's sum has become this one.
fn overflowed_after(overflowed: Option<u32>, after: Option<i128>, column: u32) -> Option<u32>
    ensures { result ≡ overflowed_after after overflowed column }
{
    match after {
        Some(_) => overflowed,
        None => Some(least(overflowed, column)),
    }
}

fn sum_of(sums: &[Option<i128>], column: u32) -> Option<i128>
    ensures { result ≡ sum_at sums.now column }
{
    match sums.get(column as usize) {
        Some(sum) => *sum,
        None => None,
    }
}

/// A running sum after one product more; None where it overflowed before or overflows now.
pub(crate) fn stepped(sum: Option<i128>, mult: i128, number: i128) -> Option<i128>
    requires sum { (z : ℤ) → sum ≡ Some z → IsWithin z }
    requires mult { IsWithin mult }
    requires number { IsWithin number }
    ensures { result ≡ stepped mult number sum }
{
    match sum {
        Some(sum) => checked_fma(sum, mult, number),
        None => None,
    }
}

//! Which rows may have a variable? Each variable has the list of their names, so that a pivot visits no others.

ghost use Rattle.std.specs.Prelude.{◌≡◌, ◌<◌, [], ℕ, All, Contains, OnOk, IfOk, length, get_or, set};
ghost use Rattle.field_rows.specs.declared.row.Entry.{Entry};
ghost use Rattle.tableau.specs.Layout.{IsGrown, AreBelow};

use crate::exchange::Followed;
use crate::listed::Listed;
use field_rows::Entry;
use ordered_field::OrderedField;
use std::alloc::{AllocError, Global};

/// As many empty lists.
pub(crate) fn empty_lists<T>(alloc: Global, count: usize) -> Result<Vec<Listed<T>>, AllocError>
where
    T: Drop,
    ensures length { IfOk result (λ lists. length lists.items ≡ count) }
    ensures empty { IfOk result (λ lists. (v : ℕ) → get_or lists.items v [] ≡ []) }
{
    let mut lists = Vec::new(alloc);
    for _made in 0..count {
        lists.push(Listed::new(alloc))?;
    }
    Ok(lists)
}

// Names a row at one variable.
fn name_at(users: &mut Vec<Listed<u32>>, variable: u32, name: u32) -> Result<(), AllocError>
    requires { variable < length users.old.items }
    ensures grown { IsGrown users.old.items users.new.items }
    ensures within { (n : ℕ) → name < n → AreBelow n users.old.items → AreBelow n users.new.items }
    ensures named { OnOk result (Contains (get_or users.new.items variable []) name) }
{
    users[variable as usize].name(name)
}

/// Names a row at each of these entries' variables.
pub(crate) fn name_row<F: OrderedField>(
    users: &mut Vec<Listed<u32>>,
    row: &[Entry<F>],
    name: u32,
) -> Result<(), AllocError>
    requires { All (λ (e : Entry F). e.variable < length users.old.items) row.now }
    ensures grown { IsGrown users.old.items users.new.items }
    ensures within { (n : ℕ) → name < n → AreBelow n users.old.items → AreBelow n users.new.items }
    ensures named { OnOk result (All (λ (e : Entry F). Contains (get_or users.new.items e.variable []) name) row.now) }
{
    for entry in row {
        match name_at(users, entry.variable, name) {
            Ok(()) => {}
            Err(fault) => return Err(fault),
        }
    }
    Ok(())
}

/// Names the rows of an exchange at the entries of the solved row.
pub(crate) fn name_exchange<F: OrderedField>(
    users: &mut Vec<Listed<u32>>,
    solved: &[Entry<F>],
    followed: &[Followed<F>],
    other: u32,
) -> Result<(), AllocError>
    requires { All (λ (e : Entry F). e.variable < length users.old.items) solved.now }
    ensures grown { IsGrown users.old.items users.new.items }
    ensures within { (n : ℕ) → other < n → All (λ f. f.variable < n) followed.now →
        AreBelow n users.old.items → AreBelow n users.new.items }
    ensures own { OnOk result (All (λ (e : Entry F). Contains (get_or users.new.items e.variable []) other) solved.now) }
    ensures each { OnOk result (All (λ f. All (λ (e : Entry F). Contains (get_or users.new.items e.variable []) f.variable) solved.now) followed.now) }
{
    match name_row(users, solved, other) {
        Ok(()) => name_followed(users, solved, followed),
        Err(fault) => Err(fault),
    }
}

/// Takes away the names at a variable.
pub(crate) fn forget(users: &mut Vec<Listed<u32>>, variable: u32)
    requires { variable < length users.old.items }
    ensures { users.new.items ≡ set users.old.items variable [] }
{
    users[variable as usize].clear();
}

// Names each followed row at each of these entries' variables.
fn name_followed<F: OrderedField>(
    users: &mut Vec<Listed<u32>>,
    row: &[Entry<F>],
    followed: &[Followed<F>],
) -> Result<(), AllocError>
    requires inside { All (λ (e : Entry F). e.variable < length users.old.items) row.now }
    ensures grown { IsGrown users.old.items users.new.items }
    ensures within { (n : ℕ) → All (λ f. f.variable < n) followed.now → AreBelow n users.old.items → AreBelow n users.new.items }
    ensures named { OnOk result (All (λ f. All (λ (e : Entry F). Contains (get_or users.new.items e.variable []) f.variable) row.now) followed.now) }
{
    for change in followed {
        match name_row(users, row, change.variable) {
            Ok(()) => {}
            Err(fault) => return Err(fault),
        }
    }
    Ok(())
}

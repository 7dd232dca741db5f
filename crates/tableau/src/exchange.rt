//! The rows of an exchange are formed aside, and put in place once all of them are.

ghost use Rattle.std.specs.Prelude.{◌≡◌, ◌<◌, ◌↔◌, [], ℕ, All, IsTrue, IfOk, OnOk, IfErr, length, get_or, set, pos};
ghost use Rattle.ordered_field.specs.Rational.{whole};
ghost use Rattle.field_rows.specs.Rows.{coefficient, IsRow, AreQuotients, SomeQuotientIsWide, SomeEntryIsWide, IsSubstituted};
ghost use Rattle.whole.specs.declared.answers.Place.TheVariants.{Pivot};
ghost use Rattle.tableau.specs.Operations.{IsOperation, IsOperationOf, IsFaultOf, IfStuck};
ghost use Rattle.tableau.specs.Exchange.{IsStuckQuotient, IsStuckStep};
ghost use Rattle.tableau.specs.Layout.{IsFollowed, IsVisited, IsFormed, IsStuckRow, placed, exchanged_rows, exchanged_flags, IsStuckForming};

use crate::fault::PivotFault;
use crate::listed::{Listed, list_at};
use field_rows::{Entry, Operation, RowFault, WideEntry, coefficient, solve, substitute};
use ordered_field::OrderedField;
use std::alloc::Global;
use std::mem;
use whole::{Op, Pair, Place, Stuck};

/// The new row of a variable that stays basic.
#[derive(Drop)]
pub(crate) struct Followed<F> {
    pub(crate) variable: u32,
    pub(crate) row: Listed<Entry<F>>,
}

/// The rows of an exchange: that of the variable that enters, and those that follow it.
#[derive(Drop)]
pub(crate) struct Aside<F> {
    pub(crate) solved: Listed<Entry<F>>,
    pub(crate) followed: Vec<Followed<F>>,
}

/// Forms the rows of an exchange; the tableau's own rows stay. The variables in `users` are those whose rows may
/// have `other`.
pub(crate) fn formed<F: OrderedField>(
    alloc: Global,
    rows: &[Listed<Entry<F>>],
    users: &[u32],
    basic: u32,
    other: u32,
    spare: &mut Vec<Vec<Entry<F>>>,
) -> Result<Aside<F>, PivotFault>
    requires rows { (b : ℕ) → IsRow F.value (get_or rows.now b []) }
    requires within { basic < length rows.now }
    requires users_within { All (λ b. b < length rows.now) users.now }
    requires outside { coefficient F.value (get_or rows.now basic []) basic ≡ whole (pos 0) }
    requires solvable { ¬ (coefficient F.value (get_or rows.now basic []) other ≡ whole (pos 0)) }
    ensures formed { IfOk result (λ a. IsFormed F.LIMIT F.value basic other rows.now users.now a.solved a.followed.items) }
    ensures stuck { IfErr result (λ fault. IfStuck fault (IsStuckForming F.LIMIT F.value basic other rows.now)) }
{
    let room = room_from(alloc, spare);
    let solved = match solved_row(alloc, basic, list_at(rows, basic), other, room) {
        Ok(solved) => solved,
        Err(fault) => return Err(fault),
    };
    let followed = match followed_rows(alloc, rows, users, basic, other, solved.as_slice(), spare) {
        Ok(followed) => followed,
        Err(fault) => return Err(fault),
    };
    Ok(Aside { solved, followed })
}

/// The row of `basic` solved for `other`.
fn solved_row<F: OrderedField>(
    alloc: Global,
    basic: u32,
    row: &[Entry<F>],
    other: u32,
    room: Vec<Entry<F>>,
) -> Result<Listed<Entry<F>>, PivotFault>
    requires row { IsRow F.value row.now }
    requires outside { coefficient F.value row.now basic ≡ whole (pos 0) }
    requires solvable { ¬ (coefficient F.value row.now other ≡ whole (pos 0)) }
    ensures row { IfOk result (IsRow F.value) }
    ensures quotients { IfOk result (λ s. AreQuotients basic other
        (coefficient F.value row.now) (coefficient F.value s)) }
    ensures kept { OnOk result (¬ SomeQuotientIsWide F.LIMIT basic other (coefficient F.value row.now)) }
    ensures stuck { IfErr result (λ fault. IfStuck fault
        (IsStuckQuotient F.LIMIT basic other (coefficient F.value row.now))) }
{
    let mut solved = room;
    match solve(alloc, basic, row, other, &mut solved) {
        Ok(()) => Ok(Listed::from_vec(solved)),
        Err(fault) => Err(pivot_fault(other, fault)),
    }
}

/// The rows of these users that have `other`, with the solved row in its place.
fn followed_rows<F: OrderedField>(
    alloc: Global,
    rows: &[Listed<Entry<F>>],
    users: &[u32],
    basic: u32,
    other: u32,
    solved: &[Entry<F>],
    spare: &mut Vec<Vec<Entry<F>>>,
) -> Result<Vec<Followed<F>>, PivotFault>
    requires rows { (b : ℕ) → IsRow F.value (get_or rows.now b []) }
    requires users_within { All (λ b. b < length rows.now) users.now }
    requires solved { IsRow F.value solved.now }
    ensures each { IfOk result (λ fs. All (IsFollowed F.LIMIT F.value basic other rows.now
        (coefficient F.value solved.now)) fs.items) }
    ensures all { IfOk result (λ fs. All (IsVisited F.value basic other rows.now fs.items) users.now) }
    ensures stuck { IfErr result (λ fault. IfStuck fault (IsStuckRow F.LIMIT F.value basic other rows.now
        (coefficient F.value solved.now))) }
{
    let mut followed = Vec::new(alloc);
    for user in users {
        let user = *user;
        let row = list_at(rows, user);
        if user == basic {
            continue;
        }
        if lacks(row, other) {
            continue;
        }
        let room = room_from(alloc, spare);
        match followed_row(user, row, other, solved, room) {
            Ok(change) => followed.push(change)?,
            Err(fault) => return Err(fault),
        }
    }
    Ok(followed)
}

/// The row of a variable with the solved row in the place of `other`.
fn followed_row<F: OrderedField>(
    variable: u32,
    row: &[Entry<F>],
    other: u32,
    solved: &[Entry<F>],
    room: Vec<Entry<F>>,
) -> Result<Followed<F>, PivotFault>
    requires row { IsRow F.value row.now }
    requires solved { IsRow F.value solved.now }
    ensures variable { IfOk result (λ f. f.variable ≡ variable) }
    ensures row { IfOk result (λ f. IsRow F.value f.row) }
    ensures substituted { IfOk result (λ f. IsSubstituted other (coefficient F.value solved.now)
        (coefficient F.value row.now) (coefficient F.value f.row)) }
    ensures kept { OnOk result (¬ SomeEntryIsWide F.LIMIT other
        (coefficient F.value solved.now) (coefficient F.value row.now)) }
    ensures stuck { IfErr result (λ fault. IfStuck fault (IsStuckStep F.LIMIT variable other
        (coefficient F.value solved.now) (coefficient F.value row.now))) }
{
    let mut followed = room;
    match substitute(row, other, solved, &mut followed) {
        Ok(()) => Ok(Followed {
            variable,
            row: Listed::from_vec(followed),
        }),
        Err(fault) => Err(pivot_fault(variable, fault)),
    }
}

/// Whether a row has no entry at a variable.
fn lacks<F: OrderedField>(row: &[Entry<F>], variable: u32) -> bool
    requires { IsRow F.value row.now }
    ensures { IsTrue result ↔ (coefficient F.value row.now variable ≡ whole (pos 0)) }
{
    coefficient(row, variable).sign() == 0
}

// The room of a row that is gone, or new room.
fn room_from<F: OrderedField>(alloc: Global, spare: &mut Vec<Vec<Entry<F>>>) -> Vec<Entry<F>> {
    match spare.pop() {
        Some(room) => room,
        None => Vec::new(alloc),
    }
}

/// Puts the rows of an exchange in place, and keeps the room of those that were there.
#[tactic(auto, unfolding(crate::specs::Layout::exchanged_rows))]
pub(crate) fn put_in_place<F: OrderedField>(
    alloc: Global,
    rows: &mut Vec<Listed<Entry<F>>>,
    aside: Aside<F>,
    basic: u32,
    other: u32,
    spare: &mut Vec<Vec<Entry<F>>>,
)
    requires basic_within { basic < length rows.old.items }
    requires other_within { other < length rows.old.items }
    requires within { All (λ f. f.variable < length rows.old.items) aside.followed.items }
    ensures { rows.new.items ≡ exchanged_rows basic other rows.old.items aside.solved aside.followed.items }
{
    let Aside { solved, followed } = aside;
    put_followed(rows, followed, spare);
    put_row(rows, basic, Listed::new(alloc), spare);
    put_row(rows, other, solved, spare);
}

fn put_followed<F: OrderedField>(
    rows: &mut Vec<Listed<Entry<F>>>,
    followed: Vec<Followed<F>>,
    spare: &mut Vec<Vec<Entry<F>>>,
)
    requires { All (λ f. f.variable < length rows.old.items) followed.items }
    ensures placed { rows.new.items ≡ placed rows.old.items followed.items }
    ensures length { length rows.new.items ≡ length rows.old.items }
{
    let mut followed = followed;
    while let Some(change) = followed.pop() {
        let Followed { variable, row } = change;
        put_row(rows, variable, row, spare);
    }
}

// Puts one row in place. Where memory is short, the room of the old one is given back.
fn put_row<F: OrderedField>(
    rows: &mut Vec<Listed<Entry<F>>>,
    variable: u32,
    row: Listed<Entry<F>>,
    spare: &mut Vec<Vec<Entry<F>>>,
)
    requires { variable < length rows.old.items }
    ensures { rows.new.items ≡ set rows.old.items variable row }
{
    let old = mem::replace(&mut rows[variable as usize], row);
    let _ = spare.push(old.into_vec());
}

/// Which variables are basic after an exchange.
#[tactic(auto, unfolding(crate::specs::Layout::exchanged_flags))]
pub(crate) fn exchange_flags(flags: &mut Vec<bool>, basic: u32, other: u32)
    requires basic_within { basic < length flags.old.items }
    requires other_within { other < length flags.old.items }
    ensures { flags.new.items ≡ exchanged_flags basic other flags.old.items }
{
    flags[basic as usize] = false;
    flags[other as usize] = true;
}

/// The fault of the row of a variable as one of the tableau.
fn pivot_fault<F: OrderedField>(variable: u32, fault: RowFault<F>) -> PivotFault
    ensures { IsFaultOf F.value variable fault result }
{
    match fault {
        RowFault::Wide(entry) => PivotFault::Stuck(stuck_at(variable, entry)),
        RowFault::NoMemory => PivotFault::NoMemory,
    }
}

fn stuck_at<F: OrderedField>(variable: u32, entry: WideEntry<F>) -> Stuck
    ensures { IsOperationOf F.value variable entry.variable entry.operation result }
{
    match entry.operation {
        Operation::Product(left, right) => operation(
            variable,
            entry.variable,
            Op::Product,
            left,
            right,
        ),
        Operation::Sum(left, right) => operation(variable, entry.variable, Op::Sum, left, right),
    }
}

fn operation<F: OrderedField>(at: u32, by: u32, op: Op, left: F, right: F) -> Stuck
    ensures { IsOperation Pivot at by op (F.value left) (F.value right) result }
{
    Stuck {
        place: Place::Pivot,
        at,
        by,
        op,
        left: pair_of(left),
        right: pair_of(right),
    }
}

// The two parts of a number, in lowest terms.
fn pair_of<F: OrderedField>(number: F) -> Pair
    ensures num { result.num ≡ (F.pair number).num }
    ensures den { result.den ≡ pos (F.pair number).den }
{
    let (num, den) = number.parts();
    Pair { num, den }
}

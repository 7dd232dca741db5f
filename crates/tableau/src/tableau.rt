//! A tableau keeps the row of each variable as the list of its entries that aren't zero, and for each variable a list
//! of the rows that may have it. So a pivot visits the rows that change, and a few that once had the variable. The list
//! of a variable that enters is emptied, since no row has it then.

ghost use Rattle.std.specs.Prelude.{◌≡◌, ◌+◌, ◌^◌, ◌<◌, ◌↔◌, ℕ, All, Contains, IsTrue, true, IfOk, OnOk, OnErr, IfErr, length, pos};
ghost use Rattle.ordered_field.specs.Rational.{ℚ, whole};
ghost use Rattle.field_rows.specs.Rows.{coefficient, IsRow};
ghost use Rattle.tableau.specs.Tables.{variables, is_basic, entry, Meets, IsTable};
ghost use Rattle.tableau.specs.Terms.{AreForms, MeetsForms, CoefficientsFit};
ghost use Rattle.tableau.specs.Operations.{IfStuck};
ghost use Rattle.tableau.specs.Opening.{IsOpening, IsStuckCoefficient};
ghost use Rattle.tableau.specs.Exchange.{IsExchanged, ExchangeFits, IsStuckExchange};

use crate::exchange::{exchange_flags, formed, put_in_place};
use crate::fault::PivotFault;
use crate::listed::{Listed, list_at};
use crate::names::{forget, name_exchange};
use crate::opening::{Opening, open_rows};
use crate::terms::RowTerm;
use field_rows::{Entry, coefficient};
use ordered_field::OrderedField;
use std::alloc::Global;
use std::marker::Model;

/// Linear rows, one for each basic variable, over variables that aren't basic.
///
/// Contracts see a tableau as a list of rows, one for each variable, which is empty where the variable isn't basic.
#[derive(Drop)]
pub struct Tableau<F: OrderedField> {
    alloc: Global,
    columns: u32,
    basic: Vec<bool>,
    rows: Vec<Listed<Entry<F>>>,
    users: Vec<Listed<u32>>,
    spare: Vec<Vec<Entry<F>>>,
}

impl<F: OrderedField> Model for Tableau<F> {
    ghost use Rattle.tableau.specs.Tables.{Table};
    ghost use Rattle.tableau.specs.Layout.{IsLaidOut};

    ghost Value = { Table F };

    ghost view = { λ t. record { columns = t.columns; basic = t.basic.items; rows = t.rows.items } };

    ghost invariant = { λ t. IsLaidOut F.value (record { columns = t.columns; basic = t.basic.items; rows = t.rows.items }) t.users.items };
}

impl<F: OrderedField> Tableau<F> {
    /// The tableau of the defining rows: variables `0..columns` aren't basic, and variable `columns + j` is basic
    /// with row `j`. The terms of a row are of columns, each at most once.
    ///
    /// `Stuck` comes exactly where a coefficient exceeds the field's limit in size, and names one: the product of
    /// the coefficient and 1, at the row's variable and the column, with the place `Bound`.
    pub fn new(
        alloc: Global,
        columns: u32,
        rows: &Vec<Vec<RowTerm>>,
    ) -> Result<Tableau<F>, PivotFault>
        requires terms { AreForms columns rows.now.items }
        requires few { columns + length rows.now.items < 2 ^ 32 }
        ensures opening { IfOk result (IsOpening F.value columns rows.now.items) }
        ensures exact { IfOk result (λ t. (x : ℕ → ℚ) → Meets F.value t x ↔ MeetsForms columns rows.now.items x) }
        ensures kept { OnOk result (CoefficientsFit F.LIMIT rows.now.items) }
        ensures stuck { IfErr result (λ fault. IfStuck fault (IsStuckCoefficient F.LIMIT columns rows.now.items)) }
    {
        let opened = match open_rows(alloc, columns, rows) {
            Ok(opened) => opened,
            Err(fault) => return Err(fault),
        };
        let Opening { basic, rows, users } = opened;
        Ok(Tableau {
            alloc,
            columns,
            basic,
            rows,
            users,
            spare: Vec::new(alloc),
        })
    }

    /// How many columns the tableau was made with.
    pub fn columns(&self) -> u32
        ensures { result ≡ self.now.columns }
    {
        self.columns
    }

    /// How many variables there are: the columns, and one for each row.
    pub fn variables(&self) -> u32
        ensures count { result ≡ variables self.now }
        ensures table { IsTable F.value self.now }
    {
        self.rows.len() as u32
    }

    /// Whether a variable is basic.
    pub fn is_basic(&self, variable: u32) -> bool
        requires { variable < variables self.now }
        ensures { result ≡ is_basic self.now variable }
    {
        self.basic[variable as usize]
    }

    /// The coefficient of `other` in the row of `basic`.
    pub fn entry(&self, basic: u32, other: u32) -> F
        requires { basic < variables self.now }
        ensures { F.value result ≡ entry F.value self.now basic other }
    {
        coefficient(list_at(self.rows.as_slice(), basic), other)
    }

    /// The entries of the row of `basic` that aren't zero, by rising variables.
    pub fn row(&self, basic: u32) -> &[Entry<F>]
        requires { basic < variables self.now }
        ensures row { IsRow F.value result.now }
        ensures same { (v : ℕ) → coefficient F.value result.now v ≡ entry F.value self.now basic v }
        ensures entries { All (λ e. F.value e.number ≡ entry F.value self.now basic e.variable) result.now }
    {
        list_at(self.rows.as_slice(), basic)
    }

    /// Variables among which are all basic ones whose rows have an entry at `variable` that isn't zero.
    pub fn rows_with(&self, variable: u32) -> &[u32]
        requires { variable < variables self.now }
        ensures within { All (λ b. b < variables self.now) result.now }
        ensures named { (b : ℕ) → ¬ (entry F.value self.now b variable ≡ whole (pos 0)) → Contains result.now b }
    {
        list_at(self.users.as_slice(), variable)
    }

    /// Exchanges the basic variable `basic` with `other`, where the entry of `other` in its row isn't zero: its row
    /// is solved for `other`, and each other row follows. The same vectors meet all rows.
    ///
    /// `Stuck` comes exactly where a product or sum of the exchange is too wide for the field, and names one, with
    /// the place `Pivot`, the basic variable whose row it is for after the exchange, and the entry's variable. After
    /// a refusal the tableau is what it was.
    pub fn pivot(&mut self, basic: u32, other: u32) -> Result<(), PivotFault>
        requires { ¬ (entry F.value self.old basic other ≡ whole (pos 0)) }
        ensures exchanged { OnOk result (IsExchanged F.value basic other self.old self.new) }
        ensures same { OnOk result ((x : ℕ → ℚ) → Meets F.value self.new x ↔ Meets F.value self.old x) }
        ensures kept { OnOk result (ExchangeFits F.LIMIT F.value basic other self.old self.new) }
        ensures stuck { IfErr result (λ fault. IfStuck fault (IsStuckExchange F.LIMIT F.value basic other self.old)) }
        ensures refused { OnErr result (self.new ≡ self.old) }
    {
        let lists = self.users.as_slice();
        let users = list_at(lists, other);
        let rows = self.rows.as_slice();
        let aside = match formed(self.alloc, rows, users, basic, other, &mut self.spare) {
            Ok(aside) => aside,
            Err(fault) => return Err(fault),
        };
        let solved = aside.solved.as_slice();
        let followed = aside.followed.as_slice();
        name_exchange(&mut self.users, solved, followed, other)?;
        exchange_flags(&mut self.basic, basic, other);
        put_in_place(
            self.alloc,
            &mut self.rows,
            aside,
            basic,
            other,
            &mut self.spare,
        );
        forget(&mut self.users, other);
        Ok(())
    }
}

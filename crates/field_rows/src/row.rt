//! A row lists the coefficients that aren't zero, by their variables, and a look-up halves the list.

ghost use Rattle.std.specs.Prelude.{◌≡◌, ◌∷◌, ◌++◌, [], MatchOption};
ghost use Rattle.field_rows.specs.Rows.{coefficient, IsRow};

use ordered_field::{OrderedField, zero};

/// One term of a row: the coefficient of a variable. In a row the variables rise and no number is zero.
#[derive(Clone, Copy, PartialEq, Eq, Debug)]
pub struct Entry<F> {
    pub variable: u32,
    pub number: F,
}

/// The coefficient of a variable in a row, which is zero where no entry names the variable.
pub fn coefficient<F: OrderedField>(row: &[Entry<F>], variable: u32) -> F
    requires { IsRow F.value row.now }
    ensures { F.value result ≡ coefficient F.value row.now variable }
{
    let mut rest = row;
    while let Some((before, entry, behind)) = parted(rest) {
        if variable == entry.variable {
            return entry.number;
        }
        if variable < entry.variable {
            rest = before;
        } else {
            rest = behind;
        }
    }
    zero()
}

// The entry in the middle, with those before it and behind it.
fn parted<F: OrderedField>(row: &[Entry<F>]) -> Option<(&[Entry<F>], Entry<F>, &[Entry<F>])>
    ensures { MatchOption result (row.now ≡ []) (λ parts. row.now ≡ parts.0.now ++ parts.1 ∷ parts.2.now) }
{
    let (before, from) = row.split_at(row.len() / 2);
    match from.split_first() {
        Some((entry, behind)) => {
            let entry = *entry;
            Some((before, entry, behind))
        }
        None => None,
    }
}

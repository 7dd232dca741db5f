//! The list of literals is cut, with the limits that they gave.

ghost use Rattle.std.specs.Prelude.{◌<◌, length};
ghost use Rattle.clause_form.specs.Derivations.{Rows};
ghost use Rattle.lra_theory.specs.Soundness.{IsCut, IsSound};
ghost use Rattle.lra_theory.specs.Standings.{lits_of};

use crate::trail::Trail;
use ordered_field::OrderedField;
use simplex::Simplex;
use sqlite_items::at;

/// Cuts the list, and takes the limits back that the literals after it gave.
pub(crate) fn cut<F: OrderedField>(trail: &mut Trail, simplex: &mut Simplex<F>, mark: u32)
    requires sound { (rows : Rows) × IsSound F.value rows trail.old.told.items simplex.old }
    requires some { mark < length (lits_of trail.old.told.items trail.old.refused) }
    ensures { IsCut F.value mark trail.old.told.items trail.old.refused simplex.old trail.new.told.items trail.new.refused simplex.new }
{
    trail.refused = None;
    if let Some(told) = at(trail.told.as_slice(), mark as usize) {
        simplex.undo(told.mark);
        trail.told.truncate(mark as usize);
    }
}

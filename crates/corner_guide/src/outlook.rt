// What is seen where a search decides: the trail and the corner.
use crate::definitions::{Definitions, Parts};
use crate::distance::Distance;
use clause_form::Clauses;
use farkas_cert::Lit;
use learned_clause::Assigned;
use lra_theory::Lra;
use ordered_field::OrderedField;
use std::alloc::Global;
use whole::NoMemory;

/// Names within names are looked into so deep.
pub(crate) const DEEPEST: u32 = 32;

/// The trail's truths, and the values of the theory. No literal is measured before it is asked for.
#[derive(Drop)]
pub(crate) struct Outlook<'a, F: OrderedField> {
    pub(crate) clauses: &'a Clauses,
    definitions: &'a Definitions,
    theory: &'a Lra<F>,
    truths: Vec<Option<bool>>,
}

impl<'a, F: OrderedField> Outlook<'a, F> {
    pub(crate) fn new(
        alloc: Global,
        clauses: &'a Clauses,
        definitions: &'a Definitions,
        trail: &[Assigned],
        theory: &'a Lra<F>,
    ) -> Result<Outlook<'a, F>, NoMemory> {
        let truths = truths(alloc, clauses.atoms.len(), trail)?;
        Ok(Outlook {
            clauses,
            definitions,
            theory,
            truths,
        })
    }

    /// The truth that the trail gives a literal, if its atom is on it.
    pub(crate) fn truth(&self, lit: Lit) -> Option<bool> {
        match self.truths.get(lit.atom as usize) {
            Some(Some(truth)) => Some(*truth == lit.positive),
            _ => None,
        }
    }

    pub(crate) fn parts(&self, lit: Lit) -> Option<Parts<'a>> {
        self.definitions.parts(self.clauses, lit)
    }

    /// Whether a name is true, where the atoms before it have these truths: as the trail says, and off
    /// the trail as its formula. The parts of a name stand before it.
    pub(crate) fn name_holds(&self, before: &[bool]) -> bool {
        let Ok(atom) = u32::try_from(before.len()) else {
            return false;
        };
        let name = Lit {
            atom,
            positive: true,
        };
        match self.truth(name) {
            Some(truth) => truth,
            None => match self.parts(name) {
                Some(parts) => parts.hold(before),
                None => false,
            },
        }
    }

    /// Whether a literal is true on the trail or at the corner: its distance is none.
    pub(crate) fn holds(&self, lit: Lit, depth: u32) -> bool {
        if let Some(truth) = self.truth(lit) {
            return truth;
        }
        let Some(parts) = self.parts(lit) else {
            return Distance::of_excess(self.theory.excess(lit)).is_true();
        };
        if depth == 0 {
            return false;
        }
        for part in parts.rest {
            let holds = self.holds(parts.signed(*part), depth - 1);
            if holds != parts.all {
                return holds;
            }
        }
        parts.all
    }

    /// How far a literal is from true: on the trail it is true or far; a row's is by its row, and a
    /// name's by its parts, the sum where all are wanted and else the least.
    pub(crate) fn distance(&self, lit: Lit, depth: u32) -> Distance<F> {
        match self.truth(lit) {
            Some(true) => return Distance::True,
            Some(false) => return Distance::Far,
            None => {}
        }
        let Some(parts) = self.parts(lit) else {
            return Distance::of_excess(self.theory.excess(lit));
        };
        if depth == 0 {
            return Distance::Far;
        }
        let mut together = if parts.all {
            Distance::True
        } else {
            Distance::Far
        };
        for part in parts.rest {
            let next = self.distance(parts.signed(*part), depth - 1);
            together = if parts.all {
                together.and(next)
            } else {
                together.or(next)
            };
        }
        together
    }
}

fn truths(alloc: Global, atoms: usize, trail: &[Assigned]) -> Result<Vec<Option<bool>>, NoMemory> {
    let mut truths = Vec::from_elem(alloc, None, atoms)?;
    for entry in trail {
        if let Some(truth) = truths.as_mut_slice().get_mut(entry.lit.atom as usize) {
            *truth = Some(entry.lit.positive);
        }
    }
    Ok(truths)
}

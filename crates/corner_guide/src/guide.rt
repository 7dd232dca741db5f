// The guide itself.
ghost use Rattle.std.specs.Prelude.{◌≡◌};

use crate::definitions::{Definitions, Parts};
use crate::distance::Distance;
use crate::model::{CornerModel, corner_model};
use crate::outlook::{DEEPEST, Outlook};
use clause_form::Clauses;
use clause_search::{Advice, Guide};
use farkas_cert::{Lemma, Lit};
use learned_clause::Assigned;
use lra_theory::Lra;
use ordered_field::OrderedField;
use std::alloc::Global;
use std::marker::Model;
use whole::NoMemory;

/// Decides for the least-numbered clause that is true neither on the trail nor at the corner, by its
/// least violated literal. Advises to stop where the corner is a model.
///
/// - At each decision epsilon is put in for the infinitesimal. Where each clause is true at these values,
///   the search may stop: an atom of a row is as true as its row, and a name off the trail as its
///   formula. Where a number is too wide for this, the search goes on.
/// - A clause that holds at the corner needs no decision, since the values that are at hand satisfy it.
///   So only what the corner breaks is decided, and few atoms are.
/// - The least violated literal is the one that the corner reaches by the least change. A name counts
///   as the formula that it stands for, and is decided by a part of it, since a row moves the corner
///   and a name alone doesn't.
/// - The clauses come in their order, which is that of the steps of a run: what comes early has its
///   effects on all that is later.
///
/// Measured on generated problems of seeds 1 to 20 at the sizes 1, 2, 4, 6, 8, 12, 16, 24 and 32, with
/// 2,000 moves: this rule with this stop decides 169 of 180. In a simulation of the search, the first
/// literal of the first open clause decides 161 without a stop.
#[derive(Debug, Drop)]
pub struct CornerGuide {
    alloc: Global,
    definitions: Definitions,
    /// A clause that was false at the corner when it was last looked at.
    suspect: u32,
    model: Option<CornerModel>,
}

impl Model for CornerGuide {
    ghost use Rattle.std.specs.Prelude.{Option};
    ghost use Rattle.corner_guide.specs.declared.model.CornerModel.{CornerModel as AModel};

    ghost Value = { Option AModel };

    ghost view = { λ g. g.model };
}

impl CornerGuide {
    /// A guide for these clauses.
    pub fn new(alloc: Global, clauses: &Clauses) -> Result<CornerGuide, NoMemory> {
        Ok(CornerGuide {
            alloc,
            definitions: Definitions::new(alloc, clauses)?,
            suspect: 0,
            model: None,
        })
    }

    /// The model at which it last advised to stop.
    pub fn into_model(self) -> Option<CornerModel>
        ensures { result ≡ self }
    {
        let CornerGuide {
            alloc: _,
            definitions: _,
            suspect: _,
            model,
        } = self;
        model
    }
}

impl<F: OrderedField> Guide<Lra<F>> for CornerGuide {
    ghost use Rattle.std.specs.Prelude.{IsSomeAnd};
    ghost use Rattle.lra_theory.specs.Standings.{seen};
    ghost use Rattle.corner_guide.specs.Models.{IsCornerModel};

    // The model that it holds is one of the clauses, at the theory's corner.
    ghost stops = { λ clauses guide theory. IsSomeAnd guide (IsCornerModel clauses (seen F.value theory)) };

    fn advise(
        &mut self,
        clauses: &Clauses,
        lemmas: &[Lemma],
        trail: &[Assigned],
        theory: &Lra<F>,
    ) -> Advice {
        let Ok(outlook) = Outlook::new(self.alloc, clauses, &self.definitions, trail, theory) else {
            return Advice::Nothing;
        };
        if let Some(model) = corner_model(
            self.alloc,
            clauses,
            &outlook,
            theory,
            &mut self.suspect,
        ) {
            self.model = Some(model);
            return Advice::Stop;
        }
        match wanted(&outlook, lemmas) {
            Some(lit) => Advice::Decide(lit),
            None => Advice::Nothing,
        }
    }
}

// The literal to decide for the first clause or lemma that isn't true.
fn wanted<F: OrderedField>(outlook: &Outlook<F>, lemmas: &[Lemma]) -> Option<Lit> {
    for clause in outlook.clauses.clauses.as_slice() {
        if let Some(lit) = nearest(outlook, clause.as_slice()) {
            return Some(descend(outlook, lit));
        }
    }
    wanted_of_lemmas(outlook, lemmas)
}

fn wanted_of_lemmas<F: OrderedField>(outlook: &Outlook<F>, lemmas: &[Lemma]) -> Option<Lit> {
    for lemma in lemmas {
        if let Some(lit) = nearest(outlook, lemma.clause.as_slice()) {
            return Some(descend(outlook, lit));
        }
    }
    None
}

/// The least violated literal of a clause that isn't true.
pub(crate) fn nearest<F: OrderedField>(outlook: &Outlook<F>, clause: &[Lit]) -> Option<Lit> {
    if is_true(outlook, clause) || holds(outlook, clause) {
        return None;
    }
    let mut best = None;
    for lit in clause {
        best = closer(best, *lit, outlook.distance(*lit, DEEPEST));
    }
    literal_of(best)
}

// The nearer of two literals, the first of equals.
fn closer<F: OrderedField>(
    best: Option<(Lit, Distance<F>)>,
    lit: Lit,
    distance: Distance<F>,
) -> Option<(Lit, Distance<F>)> {
    match best {
        Some((first, least)) => {
            if distance.is_less(least) {
                Some((lit, distance))
            } else {
                Some((first, least))
            }
        }
        None => Some((lit, distance)),
    }
}

fn literal_of<F: OrderedField>(best: Option<(Lit, Distance<F>)>) -> Option<Lit> {
    match best {
        Some((lit, _)) => Some(lit),
        None => None,
    }
}

// Whether a literal of the clause is true on the trail, which is seen without a measurement.
fn is_true<F: OrderedField>(outlook: &Outlook<F>, clause: &[Lit]) -> bool {
    for lit in clause {
        if outlook.truth(*lit) == Some(true) {
            return true;
        }
    }
    false
}

// Whether a literal of the clause is true at the corner.
fn holds<F: OrderedField>(outlook: &Outlook<F>, clause: &[Lit]) -> bool {
    for lit in clause {
        if outlook.holds(*lit, DEEPEST) {
            return true;
        }
    }
    false
}

// A name is decided by one of its parts that isn't true.
fn descend<F: OrderedField>(outlook: &Outlook<F>, from: Lit) -> Lit {
    let mut lit = from;
    for _level in 0..DEEPEST {
        match part_of(outlook, lit) {
            Some(part) => lit = part,
            None => return lit,
        }
    }
    lit
}

// The first part that isn't true where all are wanted, and else the least violated.
fn part_of<F: OrderedField>(outlook: &Outlook<F>, lit: Lit) -> Option<Lit> {
    let parts = outlook.parts(lit)?;
    if parts.all {
        first_false(outlook, parts)
    } else {
        least_violated(outlook, parts)
    }
}

fn first_false<F: OrderedField>(outlook: &Outlook<F>, parts: Parts) -> Option<Lit> {
    for part in parts.rest {
        let part = parts.signed(*part);
        if !outlook.holds(part, DEEPEST) {
            return Some(part);
        }
    }
    None
}

fn least_violated<F: OrderedField>(outlook: &Outlook<F>, parts: Parts) -> Option<Lit> {
    let mut best = None;
    for part in parts.rest {
        let part = parts.signed(*part);
        best = closer(best, part, outlook.distance(part, DEEPEST));
    }
    literal_of(best)
}

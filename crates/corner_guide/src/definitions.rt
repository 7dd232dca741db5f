// What the names of a problem stand for.
use crate::model::truth_in;
use clause_form::{Atom, Clauses};
use farkas_cert::Lit;
use std::alloc::Global;
use whole::NoMemory;

/// By atom, the number of the clause in which a name stands with all its parts. That is the first one
/// that begins with it, since a name is defined before it is used.
#[derive(Debug, Drop)]
pub(crate) struct Definitions {
    numbers: Vec<Option<u32>>,
}

/// The parts of a name's literal, as they stand in the name's clause.
#[derive(Clone, Copy, Debug)]
pub(crate) struct Parts<'a> {
    pub(crate) rest: &'a [Lit],
    as_written: bool,
    /// The literal is true where all its parts are, and else where one is.
    pub(crate) all: bool,
}

impl Definitions {
    pub(crate) fn new(alloc: Global, clauses: &Clauses) -> Result<Definitions, NoMemory> {
        let mut numbers = Vec::from_elem(alloc, None, clauses.atoms.len())?;
        let mut number = 0u32;
        for clause in clauses.clauses.as_slice() {
            note(clauses, &mut numbers, clause.as_slice(), number);
            number = number.saturating_add(1);
        }
        Ok(Definitions { numbers })
    }

    /// The parts of a name's literal, if it is one.
    pub(crate) fn parts<'a>(&self, clauses: &'a Clauses, lit: Lit) -> Option<Parts<'a>> {
        let number = match self.numbers.get(lit.atom as usize) {
            Some(Some(number)) => *number,
            _ => return None,
        };
        let clause = clauses.clauses.as_slice().get(number as usize)?;
        match clause.as_slice() {
            [name, rest @ ..] => Some(Parts {
                rest,
                as_written: name.positive != lit.positive,
                all: name.positive == lit.positive,
            }),
            _ => None,
        }
    }
}

// Keeps the number of a clause that begins with a name, if it is the first.
fn note(clauses: &Clauses, numbers: &mut [Option<u32>], clause: &[Lit], number: u32) {
    if let Some(name) = clause.first() {
        let atom = name.atom as usize;
        if let Some(Atom::Named) = clauses.atoms.get(atom) {
            if let Some(place) = numbers.get_mut(atom) {
                if place.is_none() {
                    *place = Some(number);
                }
            }
        }
    }
}

impl<'a> Parts<'a> {
    /// Whether all parts are true, or one, as is wanted, where the atoms have these truths.
    pub(crate) fn hold(&self, truths: &[bool]) -> bool {
        for part in self.rest {
            let part = self.signed(*part);
            let holds = truth_in(truths, part.atom) == part.positive;
            if holds != self.all {
                return holds;
            }
        }
        self.all
    }

    /// A part, signed as it stands for the name's literal.
    pub(crate) fn signed(&self, part: Lit) -> Lit {
        if self.as_written {
            part
        } else {
            part.negated()
        }
    }
}

// Formulas that are demanded: their literals, and the clauses that say that they are true.
ghost use Rattle.std.specs.Prelude.{◌≡◌, ◌≤◌, map};
ghost use Rattle.clause_form.specs.Answers.{Gives, build_of};
ghost use Rattle.clause_form.specs.Building.{demanded, demanded_each, demanded_known, literal, literals, one_of};
ghost use Rattle.clause_form.specs.Keys.{signed};
ghost use Rattle.clause_form.specs.Simplified.{known_of, simple_of};

use crate::building::{Builder, signed};
use crate::clauses::BuildFault;
use crate::keys::Connective;
use crate::simple::{Known, Simple};
use farkas_cert::Lit;

impl Builder {
    /// What is true gives nothing, and what is false the empty clause.
    pub(crate) fn demand_known(&mut self, known: Known) -> Result<(), BuildFault>
        requires { self.old.columns ≤ 2048 }
        ensures answer { Gives (λ _. build_of self.new) result (demanded_known (known_of known) (build_of self.old)) }
        ensures columns { self.new.columns ≡ self.old.columns }
    {
        match known {
            Known::True => Ok(()),
            Known::False => self.clause(Vec::new(self.alloc)),
            Known::Open(formula) => self.demand(true, &formula),
        }
    }

    /// Demands the formula, or its negation where the sign is false.
    #[cycle(demands)]
    fn demand(&mut self, sign: bool, formula: &Simple) -> Result<(), BuildFault>
        requires { self.old.columns ≤ 2048 }
        ensures answer { Gives (λ _. build_of self.new) result (demanded sign (simple_of formula.now) (build_of self.old)) }
        ensures columns { self.new.columns ≡ self.old.columns }
    {
        match formula {
            Simple::Row(row) => {
                let lit = self.row(row)?;
                let lits = Vec::from_slice(self.alloc, &[signed(sign, lit)])?;
                self.clause(lits)
            }
            Simple::Not(part) => self.demand(!sign, part),
            Simple::All(parts) => {
                if sign {
                    self.demand_each(true, parts)
                } else {
                    self.demand_one(false, parts)
                }
            }
            Simple::Any(parts) => {
                if sign {
                    self.demand_one(true, parts)
                } else {
                    self.demand_each(false, parts)
                }
            }
        }
    }

    /// Demands each of the formulas, or the negation of each.
    #[cycle(demands)]
    fn demand_each(&mut self, sign: bool, parts: &Vec<Simple>) -> Result<(), BuildFault>
        requires { self.old.columns ≤ 2048 }
        ensures answer { Gives (λ _. build_of self.new) result (demanded_each sign (map simple_of parts.now.items) (build_of self.old)) }
        ensures columns { self.new.columns ≡ self.old.columns }
    {
        for part in parts {
            self.demand(sign, part)?;
        }
        Ok(())
    }

    /// Demands one of the formulas, or the negation of one.
    fn demand_one(&mut self, sign: bool, parts: &Vec<Simple>) -> Result<(), BuildFault>
        requires { self.old.columns ≤ 2048 }
        ensures answer { Gives (λ _. build_of self.new) result (one_of sign (literals (map simple_of parts.now.items) (build_of self.old))) }
        ensures columns { self.new.columns ≡ self.old.columns }
    {
        let lits = self.literals(parts)?;
        self.clause(each_signed(sign, lits))
    }

    /// The literal of the formula.
    #[cycle(literals)]
    #[tactic(auto, unfolding(crate::specs::Building::literal))]
    fn literal(&mut self, formula: &Simple) -> Result<Lit, BuildFault>
        requires { self.old.columns ≤ 2048 }
        ensures answer { Gives (λ l. (build_of self.new, l)) result (literal (simple_of formula.now) (build_of self.old)) }
        ensures columns { self.new.columns ≡ self.old.columns }
    {
        match formula {
            Simple::Row(row) => self.row(row),
            Simple::Not(part) => Ok(self.literal(part)?.negated()),
            Simple::All(parts) => {
                let lits = self.literals(parts)?;
                self.named(Connective::And, lits)
            }
            Simple::Any(parts) => {
                let lits = self.literals(parts)?;
                self.named(Connective::Or, lits)
            }
        }
    }

    /// The literals of the formulas, from the left.
    #[cycle(literals)]
    #[tactic(auto, using(crate::proofs::LiteralLaws::one_more, crate::proofs::LiteralLaws::no_more))]
    fn literals(&mut self, parts: &Vec<Simple>) -> Result<Vec<Lit>, BuildFault>
        requires { self.old.columns ≤ 2048 }
        ensures answer { Gives (λ lits. (build_of self.new, lits.items)) result (literals (map simple_of parts.now.items) (build_of self.old)) }
        ensures columns { self.new.columns ≡ self.old.columns }
    {
        let mut lits = Vec::with_capacity(self.alloc, parts.len())?;
        for part in parts {
            let lit = self.literal(part)?;
            lits.push(lit)?;
        }
        Ok(lits)
    }
}

// The literals, or the negation of each where the sign is false.
fn each_signed(sign: bool, mut lits: Vec<Lit>) -> Vec<Lit>
    ensures { result.items ≡ map (signed sign) lits.items }
{
    for lit in lits.iter_mut() {
        *lit = signed(sign, *lit);
    }
    lits
}

#[cfg(test)]
mod tests {
    use crate::building::Builder;
    use crate::clauses::Atom;
    use crate::simple::{Known, RowLit, Simple};
    use farkas_cert::Lit;
    use linear_form::{Form, Term, Terms};
    use std::alloc::{AllocError, Global};
    use std::test::Fail;

    // column <= 0
    fn at_most_zero(alloc: Global, column: u32) -> Result<Simple, AllocError> {
        let terms = Vec::from_slice(alloc, &[Term { column, coef: 1 }])?;
        Ok(Simple::Row(RowLit {
            form: Form {
                terms: Terms::from_vec(terms),
            },
            num: 0,
            den: 1,
            strict: false,
            positive: true,
        }))
    }

    fn plus(atom: u32) -> Lit {
        Lit {
            atom,
            positive: true,
        }
    }

    fn minus(atom: u32) -> Lit {
        Lit {
            atom,
            positive: false,
        }
    }

    // x0 <= 0 or x1 <= 0
    #[test]
    fn a_disjunction_of_two_rows_is_one_clause(rt: HostRuntime) -> Result<(), Fail> {
        let alloc = rt.alloc();
        let parts = vec![in alloc; at_most_zero(alloc, 0)?, at_most_zero(alloc, 1)?]?;
        let mut builder = Builder::new(alloc, 2);
        builder
            .demand_known(Known::Open(Simple::Any(parts)))
            .expect(&rt, "few enough");
        let clauses = builder.finish().expect(&rt, "memory");
        let row = |form| Atom::Row {
            form,
            num: 0,
            den: 1,
            strict: false,
        };
        assert_eq!(rt; clauses.atoms.as_slice(), [row(0), row(1)].as_slice());
        assert_eq!(rt; clauses.clauses.len(), 1);
        for clause in clauses.clauses.as_slice() {
            assert_eq!(rt; clause.as_slice(), [plus(0), plus(1)].as_slice());
        }
        Ok(())
    }

    // not (x0 <= 0 and x1 <= 0) or x0 <= 0: the conjunction gets the name 2 and three clauses
    #[test]
    fn a_conjunction_inside_gets_a_name_with_its_clauses(rt: HostRuntime) -> Result<(), Fail> {
        let alloc = rt.alloc();
        let both = Simple::All(vec![in alloc; at_most_zero(alloc, 0)?, at_most_zero(alloc, 1)?]?);
        let not_both = Simple::Not(Box::new(alloc, both)?);
        let parts = vec![in alloc; not_both, at_most_zero(alloc, 0)?]?;
        let mut builder = Builder::new(alloc, 2);
        builder
            .demand_known(Known::Open(Simple::Any(parts)))
            .expect(&rt, "few enough");
        let clauses = builder.finish().expect(&rt, "memory");
        assert_eq!(rt; clauses.atoms.len(), 3);
        let mut lits = Vec::new(alloc);
        for clause in clauses.clauses.as_slice() {
            lits.extend_from_slice(clause.as_slice())?;
        }
        let expected = [
            plus(2),
            minus(0),
            minus(1),
            minus(2),
            plus(0),
            minus(2),
            plus(1),
            minus(2),
            plus(0),
        ];
        assert_eq!(rt; lits.as_slice(), expected.as_slice());
        Ok(())
    }
}

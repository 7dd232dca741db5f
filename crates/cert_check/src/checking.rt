// All lemmas of a certificate.
ghost use Rattle.std.specs.Prelude.{◌≡◌, ℕ, [], ◌∷◌, length, map, slice_get, IfOk, Some, ◌≤◌, ◌<◌};
ghost use Rattle.farkas_cert.specs.Trees.{derived};
ghost use Rattle.clause_form.specs.Derivations.{Proves, rows_of};
ghost use Rattle.clause_form.specs.WellFormed.{IsWellFormed};
ghost use Rattle.cert_check.specs.declared.found.Checked.TheVariants.{NoMemory as OutOfMemory, Proved};
ghost use Rattle.cert_check.specs.declared.found.Found.TheVariants.{Sound};
ghost use Rattle.cert_check.specs.Answers.{IsAnswer, SaysFailed, SaysOverflowed, SaysProved, answer_of, named};
ghost use Rattle.cert_check.specs.Causes.{end_event, has_sizes};
ghost use Rattle.cert_check.specs.Examples.{problem};
ghost use Rattle.cert_check.specs.NoModel.{HasNoModel};
ghost use Rattle.cert_check.specs.Verdicts.{first_of, verdict, verdict_at, proved};

use crate::found::{Checked, Found};
use crate::lemmas::of_lemma;
use crate::nodes::Desk;
use clause_form::Clauses;
use farkas_cert::{Cert, Lemma};
use std::alloc::Global;
use whole::NoMemory;

/// Whether the certificate proves that the clauses have no model.
///
/// Each lemma is to follow from the problem's clauses and the lemmas before it, and the last one is
/// to be the empty clause. What is asked at a place, in this order:
///
/// - K1 (at lemma 0, node 0): the certificate's sizes are those of the clauses.
/// - At a lemma's clause, K2: each atom is in range and stands once.
/// - At a split, K2: its atom is in range and not on the path.
/// - At a leaf that cites a clause, K6: there is such a clause before the lemma; K5: it is false on
///   the path.
/// - At a Farkas leaf, for each part in order, K2: its atom is in range; K7: its literal is on the
///   path and of a row; K4: its multiplier isn't below 0. Then whether a sum overflows, at each column
///   from 0 and last at the bound. Then K3: the sums are a contradiction.
/// - K8 (at the last lemma, node 0, after all nodes): there is a lemma, and the last clause is empty.
///
/// The time is linear in the certificate, but for what it takes to make a table by atom and one by
/// column. Memory is taken for these alone, at the beginning.
pub fn check(alloc: Global, clauses: &Clauses, cert: &Cert) -> Checked
    requires formed { IsWellFormed clauses.now }
    ensures exact { IsAnswer result (answer_of (verdict clauses.now cert.now)) }

    // It is proved exactly where the certificate proves and no running sum overflows.
    ensures proved { SaysProved clauses.now cert.now result }

    // It fails, or is too wide, exactly at the first place at which something is found.
    ensures failed { SaysFailed clauses.now cert.now result }
    ensures overflowed { SaysOverflowed clauses.now cert.now result }

    // What is proved has no model.
    ensures no_model { result ≡ Proved → HasNoModel clauses.now }
{
    match checked(alloc, clauses, cert) {
        Ok(answer) => answer,
        Err(_) => Checked::NoMemory,
    }
}

#[tactic(auto, unfolding(crate::specs::Verdicts::verdict, crate::specs::Causes::events, crate::specs::Answers::answer_of))]
fn checked(alloc: Global, clauses: &Clauses, cert: &Cert) -> Result<Checked, NoMemory>
    requires formed { IsWellFormed clauses.now }
    ensures { IfOk result (λ answer. answer ≡ answer_of (verdict clauses.now cert.now)) }
{
    if !has_sizes(clauses, cert) {
        return Ok(Checked::Fails {
            lemma: 0,
            node: 0,
            cause: 1,
        });
    }
    let lemmas = cert.lemmas.as_slice();
    let mut desk = Desk::new(alloc, clauses)?;
    for i in 0..lemmas.len() {
        let mut node = 0;
        let lemma = lemma_at(lemmas, i);
        match of_lemma(clauses, &lemmas[..i], &mut desk, lemma, &mut node)? {
            Found::Sound => {}
            fault => return Ok(answer(name(i), node, fault)),
        }
    }
    Ok(at_end(lemmas))
}

fn has_sizes(clauses: &Clauses, cert: &Cert) -> bool
    ensures { result ≡ has_sizes clauses.now cert.now }
{
    cert.columns == clauses.columns
        && cert.atoms as usize == clauses.atoms.len()
        && cert.clauses as usize == clauses.clauses.len()
}

// What is found after all lemmas: whether there is a last one, whose clause is empty.
fn at_end(lemmas: &[Lemma]) -> Checked
    ensures { result ≡ answer_of (first_of (end_event 0 (map derived lemmas.now) ∷ [])) }
{
    let count = lemmas.len();
    if count == 0 {
        return Checked::Fails {
            lemma: 0,
            node: 0,
            cause: 8,
        };
    }
    if lemma_at(lemmas, count - 1).clause.is_empty() {
        Checked::Proved
    } else {
        Checked::Fails {
            lemma: name(count - 1),
            node: 0,
            cause: 8,
        }
    }
}

fn lemma_at(lemmas: &[Lemma], i: usize) -> &Lemma
    requires { i < length lemmas.now }
    ensures { slice_get lemmas.now i ≡ Some result.now }
{
    &lemmas[i]
}

#[tactic(auto, unfolding(crate::specs::Answers::answer_of))]
fn answer(lemma: u32, node: u32, found: Found) -> Checked
    ensures { (l n : ℕ) → lemma ≡ named l → node ≡ named n → result ≡ answer_of (verdict_at l n found proved) }
{
    match found {
        Found::Sound => Checked::Proved,
        Found::Breaks(cause) => Checked::Fails { lemma, node, cause },
        Found::Overflows(column) => Checked::Wide {
            lemma,
            node,
            column,
        },
    }
}

fn name(number: usize) -> u32
    ensures { result ≡ named number }
{
    if number < u32::MAX as usize {
        number as u32
    } else {
        u32::MAX
    }
}

#[cfg(test)]
mod tests {
    use super::check;
    use crate::found::Checked;
    use clause_form::{Atom, Clauses};
    use farkas_cert::{Cert, Lemma, Lit, Lits, Part, Proof};
    use sqlite_items::Items;
    use std::alloc::Global;
    use std::test::Fail;
    use whole::NoMemory;

    fn lit(atom: u32, positive: bool) -> Lit
        ensures { result ≡ record { atom = atom; positive = positive } }
    {
        Lit { atom, positive }
    }

    fn one(alloc: Global, atom: u32, positive: bool) -> Result<Lits, NoMemory>
        ensures { IfOk result (λ lits. lits ≡ record { atom = atom; positive = positive } ∷ []) }
    {
        Ok(Lits::from_vec(Vec::from_slice(alloc, &[lit(atom, positive)])?))
    }

    // Over one column x: atom 0 is `x <= 0` and true, atom 1 is this row and false.
    fn problem(alloc: Global, num: i128, strict: bool) -> Result<Clauses, NoMemory>
        ensures { IfOk result (λ c. c ≡ problem strict num) }
    {
        let first = Atom::Row {
            form: 0,
            num: 0,
            den: 1,
            strict: false,
        };
        let second = Atom::Row {
            form: 0,
            num,
            den: 1,
            strict,
        };
        let mut clauses = Items::new(alloc);
        clauses.push(one(alloc, 0, true)?)?;
        clauses.push(one(alloc, 1, false)?)?;
        Ok(Clauses {
            columns: 1,
            forms: Items::new(alloc),
            atoms: Items::from_slice(alloc, &[first, second])?,
            clauses,
        })
    }

    // Atom 1 is `x < 0`.
    fn even(alloc: Global) -> Result<Clauses, NoMemory>
        ensures { IfOk result IsWellFormed }
    {
        problem(alloc, 0, true)
    }

    // Atom 1 is `x <= 1`.
    fn above(alloc: Global) -> Result<Clauses, NoMemory>
        ensures { IfOk result IsWellFormed }
    {
        problem(alloc, 1, false)
    }

    // A certificate of these lemmas, each of them the empty clause.
    fn of_empty(alloc: Global, trees: Vec<Proof>) -> Result<Cert, NoMemory> {
        let mut lemmas = Items::new(alloc);
        for proof in trees {
            lemmas.push(Lemma {
                clause: Lits::from_vec(Vec::new(alloc)),
                proof,
            })?;
        }
        Ok(Cert {
            columns: 1,
            atoms: 2,
            clauses: 2,
            lemmas,
        })
    }

    // Splits both atoms; the leaf stands where atom 0 is true and atom 1 false.
    fn by_leaf(alloc: Global, first: i128, second: i128) -> Result<Cert, NoMemory> {
        let parts = [
            Part {
                lit: lit(0, true),
                mult: first,
            },
            Part {
                lit: lit(1, false),
                mult: second,
            },
        ];
        let leaf = Proof::farkas(Items::from_slice(alloc, &parts)?);
        let inner = Proof::split(alloc, 1, Proof::clause(1), leaf)?;
        let tree = Proof::split(alloc, 0, inner, Proof::clause(0))?;
        of_empty(alloc, Vec::from_array(alloc, [tree])?)
    }

    fn fails(lemma: u32, node: u32, cause: u8) -> Checked {
        Checked::Fails { lemma, node, cause }
    }

    // `0 <= 0` is no contradiction; `0 < -1` is one.
    #[test]
    fn a_leaf_closes_only_by_a_contradiction(rt: HostRuntime) -> Result<(), Fail> {
        let alloc = rt.alloc();
        let zero = even(alloc).expect(&rt, "memory");
        let one_more = above(alloc).expect(&rt, "memory");
        let cert = by_leaf(alloc, 1, 1).expect(&rt, "memory");
        assert_eq!(rt; check(alloc, &zero, &cert), fails(0, 4, 3));
        assert_eq!(rt; check(alloc, &one_more, &cert), Checked::Proved);
        let turned = by_leaf(alloc, 1, -1).expect(&rt, "memory");
        assert_eq!(rt; check(alloc, &one_more, &turned), fails(0, 4, 4));
        let huge = by_leaf(alloc, i128::MAX, i128::MAX).expect(&rt, "memory");
        assert_eq!(rt; check(alloc, &one_more, &huge), Checked::Proved);
        Ok(())
    }

    // The clauses are numbered 0 and 1, and the lemmas 2 and 3.
    #[test]
    fn a_lemma_cites_no_later_one_and_not_itself(rt: HostRuntime) -> Result<(), Fail> {
        let alloc = rt.alloc();
        let clauses = even(alloc).expect(&rt, "memory");
        for number in 2..4 {
            let trees = Vec::from_array(alloc, [Proof::clause(number), Proof::clause(0)])?;
            let cert = of_empty(alloc, trees).expect(&rt, "memory");
            assert_eq!(rt; check(alloc, &clauses, &cert), fails(0, 1, 6));
        }
        let none = of_empty(alloc, Vec::new(alloc)).expect(&rt, "memory");
        assert_eq!(rt; check(alloc, &clauses, &none), fails(0, 0, 8));
        let mut other = by_leaf(alloc, 1, 1).expect(&rt, "memory");
        other.columns = 2;
        assert_eq!(rt; check(alloc, &clauses, &other), fails(0, 0, 1));
        Ok(())
    }

    // Names alone, and the empty clause.
    fn names(alloc: Global, count: usize) -> Result<Clauses, NoMemory>
        requires { count ≤ 4096 }
        ensures { IfOk result IsWellFormed }
    {
        let mut clauses = Items::new(alloc);
        clauses.push(Lits::from_vec(Vec::new(alloc)))?;
        Ok(Clauses {
            columns: 0,
            forms: Items::new(alloc),
            atoms: Items::from_vec(Vec::from_elem(alloc, Atom::Named, count)?),
            clauses,
        })
    }

    // Each atom is split, the first outermost; each leaf cites the empty clause.
    fn of_depth(alloc: Global, count: u32) -> Result<Cert, NoMemory> {
        let mut tree = Proof::clause(0);
        for i in 0..count {
            tree = Proof::split(alloc, count - 1 - i, tree, Proof::clause(0))?;
        }
        let mut cert = of_empty(alloc, Vec::from_array(alloc, [tree])?)?;
        cert.columns = 0;
        cert.atoms = count;
        cert.clauses = 1;
        Ok(cert)
    }

    #[test]
    fn a_tree_is_read_to_the_greatest_depth(rt: HostRuntime) -> Result<(), Fail> {
        let alloc = rt.alloc();
        let clauses = names(alloc, 4096).expect(&rt, "memory");
        let cert = of_depth(alloc, 4096).expect(&rt, "memory");
        assert_eq!(rt; check(alloc, &clauses, &cert), Checked::Proved);
        Ok(())
    }
}

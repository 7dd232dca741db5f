// The tree of a lemma, node by node in prefix order.
ghost use Rattle.std.specs.Prelude.{◌≡◌, ◌+◌, [], ◌∷◌, map, length, IfOk};
ghost use Rattle.farkas_cert.specs.Literals.{negation};
ghost use Rattle.farkas_cert.specs.Trees.{derived, tree_of};
ghost use Rattle.clause_form.specs.Derivations.{rows_of};
ghost use Rattle.clause_form.specs.WellFormed.{IsWellFormed};
ghost use Rattle.cert_check.specs.declared.found.Found.TheVariants.{Sound};
ghost use Rattle.cert_check.specs.Answers.{first_found, named, sound_before};
ghost use Rattle.cert_check.specs.Causes.{founds, lemma_founds};
ghost use Rattle.cert_check.specs.Known.{known_with};
ghost use Rattle.cert_check.specs.Desks.{IsReady, IsReadyAgain};

use crate::found::{Found, next};
use crate::leaves::leaf;
use crate::nodes::{Desk, citation, split};
use clause_form::Clauses;
use farkas_cert::{Lemma, Lit, Proof};
use whole::NoMemory;

/// What is found first at the places of a lemma: its clause, which is node 0, and then the nodes of
/// its tree, from 1 on. `node` is left at the place.
pub(crate) fn of_lemma(
    clauses: &Clauses,
    earlier: &[Lemma],
    desk: &mut Desk,
    lemma: &Lemma,
    node: &mut u32,
) -> Result<Found, NoMemory>
    requires formed { IsWellFormed clauses.now }
    requires ready { IsReady clauses.now desk.old }
    requires path { desk.old.path.lits ≡ [] }
    requires start { node.old ≡ 0 }
    ensures found { IfOk result (λ f. f ≡ first_found (lemma_founds (rows_of clauses.now) (known_with clauses.now.clauses earlier.now) (derived lemma.now))) }
    ensures node { IfOk result (λ f. node.new ≡ named (sound_before (lemma_founds (rows_of clauses.now) (known_with clauses.now.clauses earlier.now) (derived lemma.now)))) }
    ensures ready { IfOk result (λ f. IsReadyAgain clauses.now desk.old.path desk.new f) }
{
    if !desk.path.assume_negations(lemma.clause.as_slice())? {
        return Ok(Found::Breaks(2));
    }
    *node = next(*node);
    let found = of_tree(clauses, earlier, desk, &lemma.proof, node)?;
    desk.path.clear();
    Ok(found)
}

/// What is found first at the nodes of a tree, of which `node` is the first's number. `node` is left
/// at the place, or after the tree where each node is sound.
///
/// The recursion is as deep as the splits of the tree that lie in one another and are sound. Each of
/// them assumes an atom that the path doesn't name yet, so there are at most as many as atoms, 4,096,
/// and one level more for the node below them.
fn of_tree(
    clauses: &Clauses,
    earlier: &[Lemma],
    desk: &mut Desk,
    proof: &Proof,
    node: &mut u32,
) -> Result<Found, NoMemory>
    requires formed { IsWellFormed clauses.now }
    requires ready { IsReady clauses.now desk.old }
    ensures found { IfOk result (λ f. f ≡ first_found (founds (rows_of clauses.now) (known_with clauses.now.clauses earlier.now) desk.old.path.lits (tree_of proof.now))) }
    ensures node { IfOk result (λ f. node.new ≡ named (node.old + sound_before (founds (rows_of clauses.now) (known_with clauses.now.clauses earlier.now) desk.old.path.lits (tree_of proof.now)))) }
    ensures ready { IfOk result (λ f. IsReadyAgain clauses.now desk.old.path desk.new f) }
{
    match proof {
        Proof::Split { atom, yes, no } => {
            match counted(split(clauses, &desk.path, *atom), node) {
                Found::Sound => {}
                fault => return Ok(fault),
            }
            desk.path.assume(Lit {
                atom: *atom,
                positive: true,
            })?;
            match of_tree(clauses, earlier, desk, yes, node)? {
                Found::Sound => desk.path.retract(),
                fault => return Ok(fault),
            }
            desk.path.assume(Lit {
                atom: *atom,
                positive: false,
            })?;
            match of_tree(clauses, earlier, desk, no, node)? {
                Found::Sound => desk.path.retract(),
                fault => return Ok(fault),
            }
            Ok(Found::Sound)
        }
        Proof::Farkas { parts } => Ok(counted(leaf(clauses, desk, parts.as_slice()), node)),
        Proof::Clause { number } => {
            let found = citation(clauses, earlier, &desk.path, *number);
            Ok(counted(found, node))
        }
    }
}

// Goes on to the next number where the node is sound.
fn counted(found: Found, node: &mut u32) -> Found
    ensures found { result ≡ found }
    ensures node { node.new ≡ named (node.old + sound_before (found ∷ [])) }
{
    let number = *node;
    if let Found::Sound = found {
        *node = next(number);
    }
    found
}

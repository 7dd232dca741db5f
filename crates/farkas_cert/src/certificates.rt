// Certificates: lemmas with their derivations.
use crate::literals::Lits;
use crate::trees::Proof;
use sqlite_items::Items;

/// A clause that follows, and the tree that closes the path of its negated literals.
#[derive(Debug, Drop)]
pub struct Lemma {
    pub clause: Lits,
    pub proof: Proof,
}

/// The lemmas that lead to the empty clause, and the sizes of the problem for which they were made.
#[derive(Debug, Drop)]
pub struct Cert {
    /// How many columns the problem has.
    pub columns: u32,
    /// How many atoms the problem has.
    pub atoms: u32,
    /// How many clauses the problem has.
    pub clauses: u32,
    pub lemmas: Items<Lemma>,
}

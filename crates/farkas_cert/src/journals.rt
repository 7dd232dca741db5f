// Journals: the moves of a search, in order.
use crate::literals::{Lit, Lits};
use sqlite_items::Items;

/// One move of a search.
#[derive(Debug, Drop)]
pub enum Move {
    /// The literal is assumed.
    Decide(Lit),
    /// The literal follows from the clause with this number, whose other literals are false.
    Propagate(Lit, u32),
    /// The basic variable, named first, and the other one exchange their places in the tableau.
    Pivot(u32, u32),
    /// The clause is false and becomes a lemma, and the trail is cut to this length.
    Conflict(Lits, u32),
}

/// All moves of a search.
#[derive(Debug, Drop)]
pub struct Journal {
    pub moves: Items<Move>,
}

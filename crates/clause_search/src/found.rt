// What a search finds.
use farkas_cert::{Cert, Journal};
use sqlite_items::Items;
use whole::Stuck;

/// What a search over clauses found, with the moves that it made where it proves nothing by itself.
#[derive(Debug, Drop)]
pub enum Found {
    /// A truth of each atom with which each clause has a true literal, and the theory has a solution.
    Total(Items<bool>, Journal),
    /// The clauses have no model, as this certificate proves.
    Closed(Cert),
    /// The budget is spent, and a further move may be made.
    Spent(Journal),
    /// An operation of the theory overflowed.
    Stuck(Stuck, Journal),
    NoMemory,
}

/// What a search that its guide may stop came to.
#[derive(Debug, Drop)]
pub enum Until {
    /// The guide stopped it at a decision, after these moves.
    Stopped(Journal),
    Found(Found),
}

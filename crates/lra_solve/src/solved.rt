// What a search over linear rows comes to.
use farkas_cert::{Cert, Journal};
use lra_theory::Values;
use sqlite_items::Items;
use whole::{Budget, Stuck};

/// What a search has spent, and on which moves.
#[derive(Debug, Drop)]
pub struct Spent {
    pub budget: Budget,
    pub journal: Journal,
}

/// What a search comes to.
#[derive(Debug, Drop)]
pub enum Solved {
    /// A value for each column and a truth for each atom with which they are a model.
    Model(Values, Items<bool>, Spent),
    /// There is no model, as this certificate proves.
    Closed(Cert),
    /// The budget is spent, and a further move may be made.
    Spent(Spent),
    /// An operation has a result past 128 bits.
    Stuck(Stuck, Spent),
    NoMemory,
}

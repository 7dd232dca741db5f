// The trait of theories: what a search over clauses asks of the arithmetic.
ghost use Rattle.std.specs.Prelude.{◌≡◌, ℕ, ◌-◌, ◌<◌, ◌≤◌, ◌^◌, false, nat_lt, take, length, if◌then◌else◌};
ghost use Rattle.clause_form.specs.Derivations.{HasAtom};
ghost use Rattle.clause_form.specs.Theories.{HearsCheck, HearsLiteral, Relations, TheoryView};

use farkas_cert::{Journal, Lit, Part};
use sqlite_items::Items;
use whole::{Budget, Stuck};

/// What a theory answers.
#[derive(Debug, Drop)]
pub enum Heard {
    /// Nothing speaks against the literals told.
    Fine,
    /// The rows of these literals, multiplied, sum to a contradiction.
    Clash(Items<Part>),
    /// The budget is spent, and some pivot may be made.
    Spent,
    /// An operation overflowed.
    Stuck(Stuck),
    NoMemory,
}

/// A theory of the rows of some clauses, which hears literals and says whether they have a common
/// solution.
pub trait Theory {
    /// What a theory's contracts see of its inside.
    ghost State: { Type 0 };

    /// How its states stand to each other.
    ghost relations: { Relations State };

    /// What was told, the state reached, and what the last call answered.
    ghost seen: { Self → TheoryView State };

    /// At an opening no bounds contradict, and nothing is violated.
    ghost begins_calm: { (s : State) → relations.opening s → (relations.contradicts s → ⊥) × (relations.violated s → ⊥) };

    /// A pivot is allowed only where a variable is violated.
    ghost pivots_mend: { (s : State) (b o : ℕ) → relations.allowed_pivot s b o → relations.violated s };

    /// Tells a literal of an atom of which none is told. It never answers Spent.
    fn tell(&mut self, lit: Lit) -> Heard
        requires in_range { lit.atom < length (seen self.old).rows.atoms }
        requires free { HasAtom lit.atom (seen self.old).told → ⊥ }
        requires room { length (seen self.old).told < 2 ^ 32 - 1 }
        requires paid { (seen self.old).owes ≡ false }
        ensures { HearsLiteral relations (seen self.old) lit result (seen self.new) };

    /// Looks for a common solution of the literals told, by pivots that are charged and written.
    fn check(&mut self, budget: &mut Budget, journal: &mut Journal) -> Heard
        requires paid { (seen self.old).owes ≡ false }
        ensures { HearsCheck relations (seen self.old) result (seen self.new) budget.old budget.new journal.old journal.new };

    /// The number of literals told.
    fn mark(&self) -> u32
        ensures { result ≡ length (seen self.now).told };

    /// Cuts the list of literals told to this length. It takes no memory.
    fn undo(&mut self, mark: u32)
        requires { mark ≤ length (seen self.old).told }
        ensures told { (seen self.new).told ≡ take mark (seen self.old).told }
        ensures state { relations.after_undo (seen self.old).state mark (seen self.new).state }
        ensures rows { (seen self.new).rows ≡ (seen self.old).rows }
        ensures fine { (seen self.new).fine ≡ false }
        ensures owes { (seen self.new).owes ≡ (if nat_lt mark (length (seen self.old).told) then false else (seen self.old).owes) }
        ensures rest { (seen self.new).rest ≡ (seen self.old).rest };
}

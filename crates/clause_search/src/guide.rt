// What guides a search where it decides.
ghost use Rattle.std.specs.Prelude.{◌≡◌};
ghost use Rattle.clause_form.specs.declared.clauses.Clauses.{Clauses};
ghost use Rattle.clause_form.specs.Derivations.{rows_of};
ghost use Rattle.clause_form.specs.Journals.{literals};
ghost use Rattle.clause_form.specs.WellFormed.{IsWellFormed};
ghost use Rattle.learned_clause.specs.Trails.{entries};
ghost use Rattle.clause_search.specs.Answers.{IsCalm};
ghost use Rattle.clause_search.specs.Advices.{IfStop};

use clause_form::{Clauses, Theory};
use farkas_cert::{Lemma, Lit};
use learned_clause::Assigned;

/// What a guide advises where a search decides.
#[derive(Clone, Copy, Debug)]
pub enum Advice {
    /// Decide this literal. One of an atom that is out of range or on the trail is passed over.
    Decide(Lit),
    /// Decide by the search's own rule.
    Nothing,
    /// Stop here. A search that must name each atom goes on by its own rule.
    Stop,
}

/// What guides a search where it decides. Any literal may be advised, since decisions are free.
pub trait Guide<T: Theory> {
    /// What a stop says of the clauses, of the guide that is left, and of the theory.
    ghost stops: { Clauses → Self → T → Type 0 };

    /// What to do at a decision. All is propagated, and the theory's last answer was Fine.
    fn advise(
        &mut self,
        clauses: &Clauses,
        lemmas: &[Lemma],
        trail: &[Assigned],
        theory: &T,
    ) -> Advice
        requires formed { IsWellFormed clauses.now }
        requires rows { (T.seen theory.now).rows ≡ rows_of clauses.now }
        requires told { (T.seen theory.now).told ≡ literals (entries trail.now) }
        requires calm { IsCalm T.relations (T.seen theory.now) }
        ensures { IfStop (stops clauses.now self.new theory.now) result };
}

/// No advice: a search decides by its own rule.
#[derive(Clone, Copy, Debug)]
pub struct Unguided;

impl<T: Theory> Guide<T> for Unguided {
    ghost stops = { λ clauses guide theory. ⊥ };

    fn advise(
        &mut self,
        _clauses: &Clauses,
        _lemmas: &[Lemma],
        _trail: &[Assigned],
        _theory: &T,
    ) -> Advice {
        Advice::Nothing
    }
}

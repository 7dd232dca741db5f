// The budget of a search: how many moves it may make, and how many of each kind it has made.
ghost use Rattle.std.specs.Prelude.{◌≤◌, ◌+◌};

/// A move that is charged to the budget.
#[derive(Clone, Copy, Debug, PartialEq, Eq)]
pub enum Charge {
    Decision,
    Propagation,
    Pivot,
}

/// A limit of moves, and the counts so far. What is spent is the sum of decisions, propagations and
/// pivots, and never exceeds the limit; conflicts are counted and cost nothing.
#[derive(Clone, Copy, Debug)]
pub struct Budget {
    pub limit: u64,
    pub decisions: u64,
    pub propagations: u64,
    pub pivots: u64,
    pub conflicts: u64,
    pub ghost within: { decisions + propagations + pivots ≤ limit },
}

impl Budget {
    ghost use Rattle.std.specs.Prelude.{◌≡◌, ◌<◌, ◌^◌, nat_lt, if◌then◌else◌};
    ghost use Rattle.whole.specs.Budget.{counts, spent, opening, charged, conflict_noted};

    /// A budget of `limit` moves, of which none is spent.
    pub fn new(limit: u64) -> Budget
        ensures { counts result ≡ opening limit }
    {
        Budget {
            limit,
            decisions: 0,
            propagations: 0,
            pivots: 0,
            conflicts: 0,
        }
    }

    /// Spends one move, and counts it as `what` alone.
    ///
    /// False exactly where all is spent already; then nothing changes.
    pub fn charge(&mut self, what: Charge) -> bool
        ensures answer { result ≡ nat_lt (spent (counts self.old)) self.old.limit }
        ensures counted { counts self.new ≡ (if result then charged what (counts self.old) else counts self.old) }
    {
        if self.decisions + self.propagations + self.pivots == self.limit {
            return false;
        }
        match what {
            Charge::Decision => self.decisions += 1,
            Charge::Propagation => self.propagations += 1,
            Charge::Pivot => self.pivots += 1,
        }
        true
    }

    /// Counts one more conflict, which costs nothing.
    pub fn note_conflict(&mut self)
        requires { self.old.conflicts < 2 ^ 63 }
        ensures { counts self.new ≡ conflict_noted (counts self.old) }
    {
        self.conflicts += 1;
    }
}

#[cfg(test)]
mod tests {
    use super::{Budget, Charge};

    #[test]
    fn each_move_is_counted_once_until_all_is_spent(rt: HostRuntime) {
        let mut budget = Budget::new(3);
        assert!(rt; budget.charge(Charge::Pivot));
        assert!(rt; budget.charge(Charge::Decision));
        assert!(rt; budget.charge(Charge::Pivot));
        assert!(rt; !budget.charge(Charge::Propagation));
        assert_eq!(rt; budget.decisions, 1);
        assert_eq!(rt; budget.propagations, 0);
        assert_eq!(rt; budget.pivots, 2);
        assert_eq!(rt; budget.conflicts, 0);
        budget.note_conflict();
        assert_eq!(rt; budget.conflicts, 1);
        assert_eq!(rt; budget.limit, 3);
    }
}

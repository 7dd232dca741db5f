// The entries of a trail.
ghost use Rattle.std.specs.Prelude.{◌≡◌, ◌<◌, length, slice_get, Some};
ghost use Rattle.learned_clause.specs.Trails.{entries, entry};

use farkas_cert::Lit;

/// A literal of the trail.
#[derive(Clone, Copy, Debug, PartialEq, Eq)]
pub struct Assigned {
    pub lit: Lit,
    /// The number of the clause that it follows from; none where it was decided. The problem's
    /// clauses are counted first, from 0, and then the lemmas.
    pub by: Option<u32>,
}

pub(crate) fn at(trail: &[Assigned], k: usize) -> Assigned
    requires { k < length trail.now }
    ensures { slice_get (entries trail.now) k ≡ Some (entry result) }
{
    trail[k]
}

// Looks along the trail.
ghost use Rattle.std.specs.Prelude.{◌≤◌, length};
ghost use Rattle.learned_clause.specs.Trails.{entries};
ghost use Rattle.learned_clause.specs.Resolvents.{IsFirstDecision, IsFirstOn, IsLastDecision, IsLastOn};

use crate::marks::Marks;
use crate::trails::{Assigned, at};

/// The last of so many entries whose atom is on, counted from 1, or 0.
pub(crate) fn last_on(trail: &[Assigned], marks: &Marks, many: usize) -> usize
    requires { many ≤ length trail.now }
    ensures { IsLastOn (entries trail.now) marks.now.on many result }
{
    let mut last = many;
    while last > 0 {
        if marks.is_on(at(trail, last - 1).lit.atom) {
            return last;
        }
        last -= 1;
    }
    0
}

/// The last of so many entries that is a decision, counted from 1, or 0.
pub(crate) fn last_decision(trail: &[Assigned], many: usize) -> usize
    requires { many ≤ length trail.now }
    ensures { IsLastDecision (entries trail.now) many result }
{
    let mut last = many;
    while last > 0 {
        if at(trail, last - 1).by.is_none() {
            return last;
        }
        last -= 1;
    }
    0
}

/// The first place in the range whose atom is on, or the range's end.
pub(crate) fn first_on(trail: &[Assigned], marks: &Marks, from: usize, to: usize) -> usize
    requires order { from ≤ to }
    requires within { to ≤ length trail.now }
    ensures { IsFirstOn (entries trail.now) marks.now.on from to result }
{
    for k in from..to {
        if marks.is_on(at(trail, k).lit.atom) {
            return k;
        }
    }
    to
}

/// The first place in the range with a decision, or the range's end.
pub(crate) fn first_decision(trail: &[Assigned], from: usize, to: usize) -> usize
    requires order { from ≤ to }
    requires within { to ≤ length trail.now }
    ensures { IsFirstDecision (entries trail.now) from to result }
{
    for k in from..to {
        if at(trail, k).by.is_none() {
            return k;
        }
    }
    to
}

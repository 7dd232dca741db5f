ghost use Rattle.std.specs.Prelude.{◌≡◌, true};
ghost use Rattle.line_tables.specs.Tables.{version_of, may_stand, leads_by};

use crate::tables::Place;

/// Where a line stands.
#[derive(Clone, Copy, Debug, PartialEq, Eq)]
pub enum Spot {
    /// Before the header.
    Start,
    /// Behind the header of this version, within so many parts.
    Body { version: u128, depth: u32 },
    /// Behind the last line.
    Done,
}

/// Whether a line of this place may stand here.
pub(crate) fn may_stand(place: Place, spot: Spot) -> bool
    ensures { result ≡ may_stand place spot }
{
    match (place, spot) {
        (Place::Header, Spot::Start) => true,
        (Place::Within { since }, Spot::Body { version, depth: _ }) => u128::from(since) <= version,
        (Place::Opens { since, deepest }, Spot::Body { version, depth }) => {
            u128::from(since) <= version && depth < deepest
        }
        (Place::Closes, Spot::Body { version: _, depth }) => 0 < depth,
        (Place::Ends, Spot::Body { version: _, depth }) => depth == 0,
        _ => false,
    }
}

/// Where a line of this place with these numbers leads.
pub(crate) fn leads_by(place: Place, numbers: &[i128], spot: Spot) -> Spot
    requires { may_stand place spot ≡ true }
    ensures { result ≡ leads_by place numbers.now spot }
{
    match (place, spot) {
        (Place::Header, _) => Spot::Body {
            version: version_of(numbers),
            depth: 0,
        },
        (Place::Opens { .. }, Spot::Body { version, depth }) => Spot::Body {
            version,
            depth: depth + 1,
        },
        (Place::Closes, Spot::Body { version, depth }) => Spot::Body {
            version,
            depth: depth - 1,
        },
        (Place::Ends, _) => Spot::Done,
        _ => spot,
    }
}

fn version_of(numbers: &[i128]) -> u128
    ensures { result ≡ version_of numbers.now }
{
    match numbers {
        [] => 0,
        [version, ..] => version.unsigned_abs(),
    }
}

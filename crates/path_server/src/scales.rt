ghost use Rattle.std.specs.Prelude.{◌≡◌, ◌≤◌, ◌<◌, ◌^◌, ℤ, pos, ◌-ℤ◌, ◌*ℤ◌, ◌≤ℤ◌, neg_ℤ, unsigned_abs};
ghost use Rattle.whole.specs.Numbers.{lcm_of};
ghost use Rattle.path_server.specs.Limits.{IsNumber, IsPath};

use crate::settings::Path;
use whole::{Pair, lcm};

/// By what the parts of a comparison are multiplied so that it is whole: its entries, its multiples of the rate,
/// and its multiples of the buffer.
#[derive(Clone, Copy, Debug)]
pub struct Scale {
    /// The least common multiple of the denominators.
    pub unit: i128,
    /// The unit with its sign turned.
    pub minus: i128,
    /// The unit over the rate's denominator.
    pub rate: i128,
    /// The unit over the buffer's denominator.
    pub buffer: i128,
}

impl Scale {
    ghost use Rattle.path_server.specs.Claims.{common_scale, opposite, rate_scale};
    ghost use Rattle.path_server.specs.Scales.{IsScale, factors};
    ghost use Rattle.path_server.specs.Servers.{server_of};

    /// For comparisons whose constants are multiples of the rate alone.
    pub fn of_rate(path: &Path) -> Scale
        requires { IsPath path.now }
        ensures value { factors result ≡ rate_scale (server_of path.now) }
        ensures within { IsScale result }
    {
        Scale {
            unit: path.rate.den,
            minus: negated(path.rate.den),
            rate: 1,
            buffer: 0,
        }
    }

    /// For comparisons with multiples of the rate and of the buffer.
    pub fn of_buffer(path: &Path, buffer: &Pair) -> Scale
        requires path_in { IsPath path.now }
        requires buffer_in { IsNumber buffer.now }
        ensures value { factors result ≡ common_scale (server_of path.now) buffer.now }
        ensures within { IsScale result }
    {
        let unit = common(path.rate.den, buffer.den);
        Scale {
            unit,
            minus: negated(unit),
            rate: unit / path.rate.den,
            buffer: unit / buffer.den,
        }
    }

    /// The factors of the negated terms.
    pub fn opposite(&self) -> Scale
        requires { IsScale self.now }
        ensures value { factors result ≡ opposite (factors self.now) }
        ensures within { IsScale result }
    {
        Scale {
            unit: self.minus,
            minus: self.unit,
            rate: negated(self.rate),
            buffer: negated(self.buffer),
        }
    }

    /// The rate's multiple over the rows from `back` rows before row 0 to `row`, in units.
    pub fn rate_over(&self, path: &Path, row: u32, back: u32) -> i128
        requires scale { IsScale self.now }
        requires path_in { IsPath path.now }
        requires row_in { row < 64 }
        requires back_in { back ≤ 8 }
        ensures value { result ≡ (path.now.rate.num *ℤ (pos row -ℤ pos back)) *ℤ self.now.rate }
        ensures within { unsigned_abs result ≤ 72000000000 }
    {
        path.rate.num * (i128::from(row) - i128::from(back)) * self.rate
    }

    /// The buffer, in units.
    pub fn buffer_of(&self, buffer: &Pair) -> i128
        requires scale { IsScale self.now }
        requires buffer_in { IsNumber buffer.now }
        ensures value { result ≡ buffer.now.num *ℤ self.now.buffer }
        ensures within { unsigned_abs result ≤ 1000000000 }
    {
        buffer.num * self.buffer
    }
}

/// The scales of a path's rules. They are constants of the path, so they are made once for all rows.
#[derive(Clone, Copy, Debug)]
pub struct PathScales {
    /// For comparisons whose constants are multiples of the rate alone.
    pub(crate) rate: Scale,
    /// For those with multiples of the buffer too, where there is one.
    pub(crate) buffer: Scale,
}

impl PathScales {
    ghost use Rattle.path_server.specs.Scales.{AreScales};

    /// Those of the path. It takes no memory.
    pub fn of(path: &Path) -> PathScales
        requires { IsPath path.now }
        ensures { AreScales path.now result }
    {
        let rate = Scale::of_rate(path);
        let buffer = match &path.buffer {
            Some(buffer) => Scale::of_buffer(path, buffer),
            None => rate,
        };
        PathScales { rate, buffer }
    }
}

/// The number with its sign turned.
fn negated(number: i128) -> i128
    requires { unsigned_abs number < 2 ^ 127 }
    ensures { result ≡ neg_ℤ number }
{
    -number
}

/// The least common multiple of two denominators as files write them.
fn common(left: i128, right: i128) -> i128
    requires left_from { pos 1 ≤ℤ left }
    requires left_to { left ≤ℤ pos 1000 }
    requires right_from { pos 1 ≤ℤ right }
    requires right_to { right ≤ℤ pos 1000 }
    ensures value { result ≡ pos (lcm_of (unsigned_abs left) (unsigned_abs right)) }
    ensures size { result ≤ℤ pos 1000000 }
{
    lcm(left, right).unwrap_or(0)
}

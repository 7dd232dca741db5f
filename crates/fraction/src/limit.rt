// The greatest size of a numerator and of a denominator, as a type says it.
ghost use Rattle.std.specs.Prelude.{ℕ, ◌≤◌, ◌<◌, ◌^◌};
ghost use Rattle.std.proofs.Common.{lit<, lit≤};

/// The greatest size of the numerator and the denominator of a [`Frac`](crate::Frac).
pub trait Limit: Copy + Eq + Ord {
    /// From 1 to `2^127 - 1`.
    const LIMIT: u128;

    // `LIMIT`, for clauses.
    ghost LIMIT: { ℕ };

    ghost some: { 1 ≤ LIMIT };

    ghost fits: { LIMIT < 2 ^ 127 };
}

/// The limit `2^127 - 1`: all that a signed 128-bit number holds, with its opposite.
#[derive(Clone, Copy, Debug, PartialEq, Eq, PartialOrd, Ord)]
pub struct Full;

/// The limit 127, at which tests see refusals with small numbers.
#[derive(Clone, Copy, Debug, PartialEq, Eq, PartialOrd, Ord)]
pub struct Seven;

impl Limit for Full {
    const LIMIT: u128 = i128::MAX as u128;

    ghost LIMIT = { 170141183460469231731687303715884105727 };

    ghost some = { lit≤ tt };

    ghost fits = { lit< tt };
}

impl Limit for Seven {
    const LIMIT: u128 = 127;

    ghost LIMIT = { 127 };

    ghost some = { lit≤ tt };

    ghost fits = { lit< tt };
}

// How far a literal is from true.
use ordered_field::{Delta, OrderedField, zero};
use std::cmp::Ordering;

/// How far a literal is from true.
#[derive(Clone, Copy)]
pub(crate) enum Distance<F: OrderedField> {
    /// It is true, on the trail or at the corner.
    True,
    /// By so much its row is violated, or the rows of its parts together.
    By(Delta<F>),
    /// It is false on the trail, or a number is too wide.
    Far,
}

impl<F: OrderedField> Distance<F> {
    /// The distance of a row's literal, which holds where its excess isn't above zero.
    pub(crate) fn of_excess(excess: Option<Delta<F>>) -> Distance<F> {
        match excess {
            None => Distance::Far,
            Some(excess) => match excess.compare(Delta::new(zero(), zero())) {
                Ordering::Greater => Distance::By(excess),
                _ => Distance::True,
            },
        }
    }

    pub(crate) fn is_true(self) -> bool {
        match self {
            Distance::True => true,
            _ => false,
        }
    }

    pub(crate) fn is_less(self, other: Distance<F>) -> bool {
        match (self, other) {
            (Distance::True, Distance::True) => false,
            (Distance::True, _) => true,
            (Distance::By(mine), Distance::By(others)) => mine.compare(others) == Ordering::Less,
            (Distance::By(_), Distance::Far) => true,
            _ => false,
        }
    }

    /// The distance where both are wanted.
    pub(crate) fn and(self, other: Distance<F>) -> Distance<F> {
        match (self, other) {
            (Distance::True, rest) => rest,
            (rest, Distance::True) => rest,
            (Distance::By(mine), Distance::By(others)) => match mine.add(others) {
                Ok(sum) => Distance::By(sum),
                Err(_) => Distance::Far,
            },
            _ => Distance::Far,
        }
    }

    /// The distance where one of the two is enough.
    pub(crate) fn or(self, other: Distance<F>) -> Distance<F> {
        if other.is_less(self) { other } else { self }
    }
}

//! Which bound holds for a variable? The last one that was put in force on its side, and a look-up tells it.

ghost use Rattle.std.specs.Prelude.{◌≡◌, ◌+◌, ◌<◌, ◌≤◌, ◌^◌, ◌++◌, ◌∷◌, [], length, take, option_map, IfOk, OnOk, OnErr};
ghost use Rattle.ordered_field.specs.Delta.{delta_value};
ghost use Rattle.simplex.specs.Limits.{in_force};
ghost use Rattle.simplex.specs.InForce.{number_in_force};
ghost use Rattle.simplex.specs.States.{limits_in};
ghost use Rattle.simplex.specs.Keeping.{side_of, with_side, IsOneMore};

use ordered_field::{Delta, OrderedField};
use std::alloc::{AllocError, Global};
use std::marker::Model;

/// A bound of the variable `var` that was put in force: at most or at least the number `at`. `tag` is the caller's
/// name for it.
#[derive(Clone, Copy, Debug)]
pub(crate) struct Limit<N> {
    pub var: u32,
    pub upper: bool,
    pub at: N,
    pub tag: u32,
}

/// The bounds in force for one variable.
#[derive(Clone, Copy, Debug)]
pub(crate) struct Sides<F> {
    pub lower: Option<Limit<Delta<F>>>,
    pub upper: Option<Limit<Delta<F>>>,
}

/// A bound that was put in force, and the one that it took the place of.
#[derive(Clone, Copy, Debug)]
pub(crate) struct Put<F> {
    pub limit: Limit<Delta<F>>,
    pub before: Option<Limit<Delta<F>>>,
}

/// The bounds that were put in force, in order. Contracts see them as their list.
#[derive(Drop)]
pub(crate) struct Limits<F: OrderedField> {
    sides: Vec<Sides<F>>,
    puts: Vec<Put<F>>,
}

impl<F: OrderedField> Model for Limits<F> {
    ghost use Rattle.std.specs.Prelude.{length};
    ghost use Rattle.simplex.specs.Limits.{Held};
    ghost use Rattle.simplex.specs.Keeping.{limits_of, AreKept};

    ghost Value = { Held F };

    ghost view = { λ l. record { variables = length l.sides.items; limits = limits_of l.puts.items } };

    ghost invariant = { λ l. AreKept l.sides.items l.puts.items };
}

impl<F: OrderedField> Limits<F> {
    /// No bound on any of the variables.
    pub(crate) fn new(alloc: Global, variables: u32) -> Result<Limits<F>, AllocError>
        ensures { IfOk result (λ l. l ≡ record { variables = variables; limits = [] }) }
    {
        let mut sides = Vec::new(alloc);
        for _variable in 0..variables {
            sides.push(Sides {
                lower: None,
                upper: None,
            })?;
        }
        Ok(Limits {
            sides,
            puts: Vec::new(alloc),
        })
    }

    /// How many bounds were put in force and not undone.
    pub(crate) fn len(&self) -> u32
        ensures { result ≡ length self.now.limits }
    {
        self.puts.len() as u32
    }

    /// The bound of a variable in force on this side.
    pub(crate) fn in_force(&self, upper: bool, variable: u32) -> Option<Limit<Delta<F>>>
        requires { variable < self.now.variables }
        ensures { result ≡ in_force upper variable self.now.limits }
    {
        side(self.sides[variable as usize], upper)
    }

    /// The number of the bound of a variable in force on this side.
    pub(crate) fn number_in_force(&self, upper: bool, variable: u32) -> Option<Delta<F>>
        requires { variable < self.now.variables }
        ensures { option_map (delta_value F.value) result
            ≡ number_in_force upper variable (limits_in F.value self.now.limits) }
    {
        match self.in_force(upper, variable) {
            Some(limit) => Some(limit.at),
            None => None,
        }
    }

    /// Puts a bound in force.
    pub(crate) fn put(&mut self, limit: Limit<Delta<F>>) -> Result<(), AllocError>
        requires variable { limit.var < self.old.variables }
        requires room { length self.old.limits + 1 < 2 ^ 32 }
        ensures put { OnOk result (self.new
            ≡ record { variables = self.old.variables; limits = self.old.limits ++ limit ∷ [] }) }
        ensures refused { OnErr result (self.new ≡ self.old) }
    {
        let sides = self.sides[limit.var as usize];
        self.puts.push(Put {
            limit,
            before: side(sides, limit.upper),
        })?;
        self.sides[limit.var as usize] = with_side(sides, limit.upper, Some(limit));
        Ok(())
    }

    /// Takes the bounds back that were put in force after the first `mark`.
    pub(crate) fn undo(&mut self, mark: u32)
        requires { mark ≤ length self.old.limits }
        ensures { self.new ≡ record { variables = self.old.variables; limits = take mark self.old.limits } }
    {
        while self.len() > mark {
            self.undo_last();
        }
    }

    // Takes the last bound back, if there is one.
    fn undo_last(&mut self)
        requires { 0 < length self.old.limits }
        ensures variables { self.new.variables ≡ self.old.variables }
        ensures last { IsOneMore self.new.limits self.old.limits }
    {
        if let Some(put) = self.puts.pop() {
            let sides = self.sides[put.limit.var as usize];
            self.sides[put.limit.var as usize] = with_side(sides, put.limit.upper, put.before);
        }
    }
}

// The bound on this side.
fn side<F: OrderedField>(sides: Sides<F>, upper: bool) -> Option<Limit<Delta<F>>>
    ensures { result ≡ side_of upper sides }
{
    if upper { sides.upper } else { sides.lower }
}

// The bounds with another one on this side.
fn with_side<F: OrderedField>(
    sides: Sides<F>,
    upper: bool,
    limit: Option<Limit<Delta<F>>>,
) -> Sides<F>
    ensures { result ≡ with_side upper sides limit }
{
    if upper {
        Sides {
            lower: sides.lower,
            upper: limit,
        }
    } else {
        Sides {
            lower: limit,
            upper: sides.upper,
        }
    }
}

//! A list, as the rows of a tableau and the names at a variable are.

ghost use Rattle.std.specs.Prelude.{◌≡◌, ◌<◌, [], ℕ, All, Contains, OnOk, length, get_or};

use std::alloc::{AllocError, Global};
use std::marker::Model;

/// A `Vec` that contracts see as the list of its items.
#[derive(Debug, Drop)]
pub(crate) struct Listed<T> {
    items: Vec<T>,
}

impl<T> Model for Listed<T> {
    ghost use Rattle.std.specs.Prelude.{List};

    ghost Value = { List T };

    ghost view = { λ l. l.items.items };
}

impl<T> Listed<T> {
    pub(crate) fn new(alloc: Global) -> Listed<T>
        ensures { result ≡ [] }
    {
        Listed {
            items: Vec::new(alloc),
        }
    }

    pub(crate) fn from_vec(items: Vec<T>) -> Listed<T>
        ensures { result ≡ items.items }
    {
        Listed { items }
    }

    pub(crate) fn into_vec(self) -> Vec<T>
        ensures { result.items ≡ self }
    {
        let Listed { items } = self;
        items
    }

    pub(crate) fn as_slice(&self) -> &[T]
        ensures { result.now ≡ self.now }
    {
        self.items.as_slice()
    }
}

impl Listed<u32> {
    /// Takes all names away.
    pub(crate) fn clear(&mut self)
        ensures { self.new ≡ [] }
    {
        self.items.clear();
    }

    /// Adds a name at its place in the rising order, unless it stands there.
    pub(crate) fn name(&mut self, name: u32) -> Result<(), AllocError>
        ensures kept { (b : ℕ) → Contains self.old b → Contains self.new b }
        ensures within { (n : ℕ) → name < n → All (λ b. b < n) self.old → All (λ b. b < n) self.new }
        ensures named { OnOk result (Contains self.new name) }
    {
        if let Err(place) = self.items.binary_search(&name) {
            self.items.insert(place, name)?;
        }
        Ok(())
    }
}

/// The list with this number.
pub(crate) fn list_at<T>(lists: &[Listed<T>], at: u32) -> &[T]
    requires { at < length lists.now }
    ensures { result.now ≡ get_or lists.now at [] }
{
    lists[at as usize].as_slice()
}

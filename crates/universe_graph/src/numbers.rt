//! Lists of numbers.
ghost use Rattle.std.specs.Prelude.{◌≡◌};

use std::marker::Model;

/// A list of numbers. Contracts see it as that list.
#[derive(Debug, Drop)]
pub struct Numbers {
    items: Vec<u32>,
}

impl Model for Numbers {
    ghost use Rattle.std.specs.Prelude.{List, ℕ};

    ghost Value = { List ℕ };

    ghost view = { λ a. a.items.items };
}

impl Numbers {
    /// The list of a vector's items. Takes no memory.
    pub fn of(items: Vec<u32>) -> Numbers
        ensures is { result ≡ items.items }
    {
        Numbers { items }
    }

    /// The items. Takes no memory.
    pub fn as_slice(&self) -> &[u32]
        ensures is { result.now ≡ self.now }
    {
        self.items.as_slice()
    }

    /// The vector of the items. Takes no memory.
    pub fn into_vec(self) -> Vec<u32>
        ensures is { result.items ≡ self }
    {
        self.items
    }
}

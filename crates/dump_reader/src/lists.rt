//! The lists of an environment: small types over `Vec`.
ghost use Rattle.std.specs.Prelude.{◌≡◌, ◌↔◌, IsTrue, length, []};

use crate::declaration::{RawCtor, RawCtors, RawDecl, RawDecls, RawFamilies, RawFamily};
use crate::environment::{Constraints, Levels};
use std::alloc::Global;
use universe_levels::constraint::Constraint;
use universe_levels::level::Level;

impl RawCtors {
    /// The empty list, which grows by `alloc`.
    pub fn new(alloc: Global) -> RawCtors
        ensures empty { result ≡ [] }
    {
        RawCtors {
            items: Vec::new(alloc),
        }
    }

    /// The list of the items of a vector. It takes no memory.
    pub fn of(items: Vec<RawCtor>) -> RawCtors
        ensures is { result ≡ items.items }
    {
        RawCtors { items }
    }

    /// The vector of the items. It takes no memory.
    pub fn into_vec(self) -> Vec<RawCtor>
        ensures is { result.items ≡ self }
    {
        self.items
    }

    /// The items, the first first.
    pub fn as_slice(&self) -> &[RawCtor]
        ensures is { result.now ≡ self.now }
    {
        self.items.as_slice()
    }

    /// The number of items.
    pub fn len(&self) -> usize
        ensures is { result ≡ length self.now }
    {
        self.items.len()
    }

    /// Whether there is no item.
    pub fn is_empty(&self) -> bool
        ensures is { IsTrue result ↔ (self.now ≡ []) }
    {
        self.items.is_empty()
    }
}

impl RawFamilies {
    /// The empty list, which grows by `alloc`.
    pub fn new(alloc: Global) -> RawFamilies
        ensures empty { result ≡ [] }
    {
        RawFamilies {
            items: Vec::new(alloc),
        }
    }

    /// The list of the items of a vector. It takes no memory.
    pub fn of(items: Vec<RawFamily>) -> RawFamilies
        ensures is { result ≡ items.items }
    {
        RawFamilies { items }
    }

    /// The vector of the items. It takes no memory.
    pub fn into_vec(self) -> Vec<RawFamily>
        ensures is { result.items ≡ self }
    {
        self.items
    }

    /// The items, the first first.
    pub fn as_slice(&self) -> &[RawFamily]
        ensures is { result.now ≡ self.now }
    {
        self.items.as_slice()
    }

    /// The number of items.
    pub fn len(&self) -> usize
        ensures is { result ≡ length self.now }
    {
        self.items.len()
    }

    /// Whether there is no item.
    pub fn is_empty(&self) -> bool
        ensures is { IsTrue result ↔ (self.now ≡ []) }
    {
        self.items.is_empty()
    }
}

impl RawDecls {
    /// The empty list, which grows by `alloc`.
    pub fn new(alloc: Global) -> RawDecls
        ensures empty { result ≡ [] }
    {
        RawDecls {
            items: Vec::new(alloc),
        }
    }

    /// The list of the items of a vector. It takes no memory.
    pub fn of(items: Vec<RawDecl>) -> RawDecls
        ensures is { result ≡ items.items }
    {
        RawDecls { items }
    }

    /// The vector of the items. It takes no memory.
    pub fn into_vec(self) -> Vec<RawDecl>
        ensures is { result.items ≡ self }
    {
        self.items
    }

    /// The items, the first first.
    pub fn as_slice(&self) -> &[RawDecl]
        ensures is { result.now ≡ self.now }
    {
        self.items.as_slice()
    }

    /// The number of items.
    pub fn len(&self) -> usize
        ensures is { result ≡ length self.now }
    {
        self.items.len()
    }

    /// Whether there is no item.
    pub fn is_empty(&self) -> bool
        ensures is { IsTrue result ↔ (self.now ≡ []) }
    {
        self.items.is_empty()
    }
}

impl Levels {
    /// The empty list, which grows by `alloc`.
    pub fn new(alloc: Global) -> Levels
        ensures empty { result ≡ [] }
    {
        Levels {
            items: Vec::new(alloc),
        }
    }

    /// The list of the items of a vector. It takes no memory.
    pub fn of(items: Vec<Level>) -> Levels
        ensures is { result ≡ items.items }
    {
        Levels { items }
    }

    /// The vector of the items. It takes no memory.
    pub fn into_vec(self) -> Vec<Level>
        ensures is { result.items ≡ self }
    {
        self.items
    }

    /// The items, the first first.
    pub fn as_slice(&self) -> &[Level]
        ensures is { result.now ≡ self.now }
    {
        self.items.as_slice()
    }

    /// The number of items.
    pub fn len(&self) -> usize
        ensures is { result ≡ length self.now }
    {
        self.items.len()
    }

    /// Whether there is no item.
    pub fn is_empty(&self) -> bool
        ensures is { IsTrue result ↔ (self.now ≡ []) }
    {
        self.items.is_empty()
    }
}

impl Constraints {
    /// The empty list, which grows by `alloc`.
    pub fn new(alloc: Global) -> Constraints
        ensures empty { result ≡ [] }
    {
        Constraints {
            items: Vec::new(alloc),
        }
    }

    /// The list of the items of a vector. It takes no memory.
    pub fn of(items: Vec<Constraint>) -> Constraints
        ensures is { result ≡ items.items }
    {
        Constraints { items }
    }

    /// The vector of the items. It takes no memory.
    pub fn into_vec(self) -> Vec<Constraint>
        ensures is { result.items ≡ self }
    {
        self.items
    }

    /// The items, the first first.
    pub fn as_slice(&self) -> &[Constraint]
        ensures is { result.now ≡ self.now }
    {
        self.items.as_slice()
    }

    /// The number of items.
    pub fn len(&self) -> usize
        ensures is { result ≡ length self.now }
    {
        self.items.len()
    }

    /// Whether there is no item.
    pub fn is_empty(&self) -> bool
        ensures is { IsTrue result ↔ (self.now ≡ []) }
    {
        self.items.is_empty()
    }
}

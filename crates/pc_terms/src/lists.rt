//! Lists of terms, of branches, of definitions and of numbers: small types over `Vec`.
ghost use Rattle.std.specs.Prelude.{◌≡◌, ◌↔◌, ◌-◌, IfOk, IfErr, IsTrue, length, take, [], ◌∷◌, ◌++◌, option_to_list};
ghost use Rattle.pc_terms.specs.declared.term.MakeFault.TheVariants.{Memory};

use crate::term::{Branch, Branches, Def, Defs, MakeFault, Term, Terms};
use std::alloc::Global;
use std::marker::Model;

/// A telescope: types of variables, the outermost first, each under the variables of those before it.
#[derive(Drop)]
pub struct Telescope {
    items: Vec<Term>,
}

impl Model for Telescope {
    ghost use Rattle.std.specs.Prelude.{List};
    ghost use Rattle.std.specs.Coded.{coded_list};
    ghost use Rattle.pc_terms.specs.Syntax.{Term};
    ghost use Rattle.pc_terms.specs.Code.{coded_term};

    ghost Value = { List Term };

    ghost coded = { coded_list coded_term };

    ghost view = { λ a. a.items.items };
}

/// A list of numbers.
#[derive(Drop)]
pub struct Numbers {
    items: Vec<u32>,
}

impl Model for Numbers {
    ghost use Rattle.std.specs.Prelude.{List, ℕ};

    ghost Value = { List ℕ };

    ghost view = { λ a. a.items.items };
}

impl Terms {
    /// The empty list, which grows by `alloc`.
    pub fn new(alloc: Global) -> Terms
        ensures empty { result ≡ [] }
    {
        Terms {
            items: Vec::new(alloc),
        }
    }

    /// The list of the items of a vector. It takes no memory.
    pub fn of(items: Vec<Term>) -> Terms
        ensures is { result ≡ items.items }
    {
        Terms { items }
    }

    /// The vector of the items. It takes no memory.
    pub fn into_vec(self) -> Vec<Term>
        ensures is { result.items ≡ self }
    {
        self.items
    }

    /// Puts an item at the end. `Memory`, and the list as it was, where there is no memory.
    pub fn push(&mut self, item: Term) -> Result<(), MakeFault>
        ensures ok { IfOk result (λ _. self.new ≡ self.old ++ item ∷ []) }
        ensures only_memory { IfErr result (λ e. (e ≡ Memory) × (self.new ≡ self.old)) }
    {
        match self.items.push(item) {
            Ok(()) => Ok(()),
            Err(_) => Err(MakeFault::Memory),
        }
    }

    /// Takes the last item away and gives it; none where the list is empty.
    pub fn pop(&mut self) -> Option<Term>
        ensures rest { self.new ≡ take (length self.old - 1) self.old }
        ensures last { self.old ≡ self.new ++ option_to_list result }
    {
        self.items.pop()
    }

    /// The items, the first first.
    pub fn as_slice(&self) -> &[Term]
        ensures is { result.now ≡ self.now }
    {
        self.items.as_slice()
    }

    /// The number of items.
    pub fn len(&self) -> usize
        ensures is { result ≡ length self.now }
    {
        self.items.len()
    }

    /// Whether there is no item.
    pub fn is_empty(&self) -> bool
        ensures is { IsTrue result ↔ (self.now ≡ []) }
    {
        self.items.is_empty()
    }
}

impl Telescope {
    /// The empty list, which grows by `alloc`.
    pub fn new(alloc: Global) -> Telescope
        ensures empty { result ≡ [] }
    {
        Telescope {
            items: Vec::new(alloc),
        }
    }

    /// The list of the items of a vector. It takes no memory.
    pub fn of(items: Vec<Term>) -> Telescope
        ensures is { result ≡ items.items }
    {
        Telescope { items }
    }

    /// The vector of the items. It takes no memory.
    pub fn into_vec(self) -> Vec<Term>
        ensures is { result.items ≡ self }
    {
        self.items
    }

    /// Puts an item at the end. `Memory`, and the list as it was, where there is no memory.
    pub fn push(&mut self, item: Term) -> Result<(), MakeFault>
        ensures ok { IfOk result (λ _. self.new ≡ self.old ++ item ∷ []) }
        ensures only_memory { IfErr result (λ e. (e ≡ Memory) × (self.new ≡ self.old)) }
    {
        match self.items.push(item) {
            Ok(()) => Ok(()),
            Err(_) => Err(MakeFault::Memory),
        }
    }

    /// Takes the last item away and gives it; none where the list is empty.
    pub fn pop(&mut self) -> Option<Term>
        ensures rest { self.new ≡ take (length self.old - 1) self.old }
        ensures last { self.old ≡ self.new ++ option_to_list result }
    {
        self.items.pop()
    }

    /// The items, the first first.
    pub fn as_slice(&self) -> &[Term]
        ensures is { result.now ≡ self.now }
    {
        self.items.as_slice()
    }

    /// The number of items.
    pub fn len(&self) -> usize
        ensures is { result ≡ length self.now }
    {
        self.items.len()
    }

    /// Whether there is no item.
    pub fn is_empty(&self) -> bool
        ensures is { IsTrue result ↔ (self.now ≡ []) }
    {
        self.items.is_empty()
    }
}

impl Branches {
    /// The empty list, which grows by `alloc`.
    pub fn new(alloc: Global) -> Branches
        ensures empty { result ≡ [] }
    {
        Branches {
            items: Vec::new(alloc),
        }
    }

    /// The list of the items of a vector. It takes no memory.
    pub fn of(items: Vec<Branch>) -> Branches
        ensures is { result ≡ items.items }
    {
        Branches { items }
    }

    /// The vector of the items. It takes no memory.
    pub fn into_vec(self) -> Vec<Branch>
        ensures is { result.items ≡ self }
    {
        self.items
    }

    /// Puts an item at the end. `Memory`, and the list as it was, where there is no memory.
    pub fn push(&mut self, item: Branch) -> Result<(), MakeFault>
        ensures ok { IfOk result (λ _. self.new ≡ self.old ++ item ∷ []) }
        ensures only_memory { IfErr result (λ e. (e ≡ Memory) × (self.new ≡ self.old)) }
    {
        match self.items.push(item) {
            Ok(()) => Ok(()),
            Err(_) => Err(MakeFault::Memory),
        }
    }

    /// Takes the last item away and gives it; none where the list is empty.
    pub fn pop(&mut self) -> Option<Branch>
        ensures rest { self.new ≡ take (length self.old - 1) self.old }
        ensures last { self.old ≡ self.new ++ option_to_list result }
    {
        self.items.pop()
    }

    /// The items, the first first.
    pub fn as_slice(&self) -> &[Branch]
        ensures is { result.now ≡ self.now }
    {
        self.items.as_slice()
    }

    /// The number of items.
    pub fn len(&self) -> usize
        ensures is { result ≡ length self.now }
    {
        self.items.len()
    }

    /// Whether there is no item.
    pub fn is_empty(&self) -> bool
        ensures is { IsTrue result ↔ (self.now ≡ []) }
    {
        self.items.is_empty()
    }
}

impl Defs {
    /// The empty list, which grows by `alloc`.
    pub fn new(alloc: Global) -> Defs
        ensures empty { result ≡ [] }
    {
        Defs {
            items: Vec::new(alloc),
        }
    }

    /// The list of the items of a vector. It takes no memory.
    pub fn of(items: Vec<Def>) -> Defs
        ensures is { result ≡ items.items }
    {
        Defs { items }
    }

    /// The vector of the items. It takes no memory.
    pub fn into_vec(self) -> Vec<Def>
        ensures is { result.items ≡ self }
    {
        self.items
    }

    /// Puts an item at the end. `Memory`, and the list as it was, where there is no memory.
    pub fn push(&mut self, item: Def) -> Result<(), MakeFault>
        ensures ok { IfOk result (λ _. self.new ≡ self.old ++ item ∷ []) }
        ensures only_memory { IfErr result (λ e. (e ≡ Memory) × (self.new ≡ self.old)) }
    {
        match self.items.push(item) {
            Ok(()) => Ok(()),
            Err(_) => Err(MakeFault::Memory),
        }
    }

    /// Takes the last item away and gives it; none where the list is empty.
    pub fn pop(&mut self) -> Option<Def>
        ensures rest { self.new ≡ take (length self.old - 1) self.old }
        ensures last { self.old ≡ self.new ++ option_to_list result }
    {
        self.items.pop()
    }

    /// The items, the first first.
    pub fn as_slice(&self) -> &[Def]
        ensures is { result.now ≡ self.now }
    {
        self.items.as_slice()
    }

    /// The number of items.
    pub fn len(&self) -> usize
        ensures is { result ≡ length self.now }
    {
        self.items.len()
    }

    /// Whether there is no item.
    pub fn is_empty(&self) -> bool
        ensures is { IsTrue result ↔ (self.now ≡ []) }
    {
        self.items.is_empty()
    }
}

impl Numbers {
    /// The empty list, which grows by `alloc`.
    pub fn new(alloc: Global) -> Numbers
        ensures empty { result ≡ [] }
    {
        Numbers {
            items: Vec::new(alloc),
        }
    }

    /// The list of the items of a vector. It takes no memory.
    pub fn of(items: Vec<u32>) -> Numbers
        ensures is { result ≡ items.items }
    {
        Numbers { items }
    }

    /// The vector of the items. It takes no memory.
    pub fn into_vec(self) -> Vec<u32>
        ensures is { result.items ≡ self }
    {
        self.items
    }

    /// Puts an item at the end. `Memory`, and the list as it was, where there is no memory.
    pub fn push(&mut self, item: u32) -> Result<(), MakeFault>
        ensures ok { IfOk result (λ _. self.new ≡ self.old ++ item ∷ []) }
        ensures only_memory { IfErr result (λ e. (e ≡ Memory) × (self.new ≡ self.old)) }
    {
        match self.items.push(item) {
            Ok(()) => Ok(()),
            Err(_) => Err(MakeFault::Memory),
        }
    }

    /// Takes the last item away and gives it; none where the list is empty.
    pub fn pop(&mut self) -> Option<u32>
        ensures rest { self.new ≡ take (length self.old - 1) self.old }
        ensures last { self.old ≡ self.new ++ option_to_list result }
    {
        self.items.pop()
    }

    /// The items, the first first.
    pub fn as_slice(&self) -> &[u32]
        ensures is { result.now ≡ self.now }
    {
        self.items.as_slice()
    }

    /// The number of items.
    pub fn len(&self) -> usize
        ensures is { result ≡ length self.now }
    {
        self.items.len()
    }

    /// Whether there is no item.
    pub fn is_empty(&self) -> bool
        ensures is { IsTrue result ↔ (self.now ≡ []) }
    {
        self.items.is_empty()
    }
}

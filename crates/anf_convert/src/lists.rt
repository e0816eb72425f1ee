//! The lists of a program in A-normal form: small types over `Vec`.
//!
//! Contracts see the atoms of a list with the last one first, and constants with the newest first, as the definitions have them.
ghost use Rattle.std.specs.Prelude.{◌≡◌, ◌↔◌, IfOk, IfErr, IsTrue, length, reverse, [], ◌∷◌, ◌++◌};
ghost use Rattle.anf_convert.specs.Anf.{def_count};
ghost use Rattle.anf_convert.specs.AnfForm.{branch_count};
ghost use Rattle.anf_convert.specs.AnfView.{seen, bindings_of, branches_of, defs_of};
ghost use Rattle.lambda_box.specs.declared.fault.PassFault.TheVariants.{Memory};

use crate::program::{AnfBranch, AnfBranches, AnfConstant, AnfDef, AnfDefs, Atom, Op, Ops};
use lambda_box::PassFault;
use std::alloc::Global;
use std::marker::Model;

/// A list of atoms, in the order of a constructor's arguments. Contracts see the last one first.
#[derive(Drop)]
pub struct Atoms {
    items: Vec<Atom>,
}

/// A list of constants in the order of declarations. Contracts see the newest first.
#[derive(Drop)]
pub struct AnfConstants {
    items: Vec<AnfConstant>,
}

impl Model for Atoms {
    ghost use Rattle.std.specs.Prelude.{List, reverse};
    ghost use Rattle.anf_convert.specs.Anf.{Atom};

    ghost Value = { List Atom };

    ghost view = { λ a. reverse a.items.items };
}

impl Model for AnfConstants {
    ghost use Rattle.std.specs.Prelude.{List, reverse};
    ghost use Rattle.std.specs.Coded.{coded_list};
    ghost use Rattle.anf_convert.specs.declared.program.AnfConstant.{AnfConstant};
    ghost use Rattle.anf_convert.specs.ConstantCode.{coded_constant};

    ghost Value = { List AnfConstant };

    ghost coded = { coded_list coded_constant };

    ghost view = { λ a. reverse a.items.items };
}

impl Atoms {
    /// The list of the items of a vector. It takes no memory.
    pub fn of(items: Vec<Atom>) -> Atoms
        ensures is { result ≡ reverse items.items }
    {
        Atoms { items }
    }

    /// The vector of the items. It takes no memory.
    pub fn into_vec(self) -> Vec<Atom>
        ensures is { reverse result.items ≡ self }
    {
        self.items
    }

    /// The items, the first first.
    pub fn as_slice(&self) -> &[Atom]
        ensures is { reverse result.now ≡ self.now }
    {
        self.items.as_slice()
    }

    /// The number of items.
    pub fn len(&self) -> usize
        ensures is { result ≡ length self.now }
    {
        self.items.len()
    }
}

impl AnfConstants {
    /// The list of the items of a vector, the oldest first. It takes no memory.
    pub fn of(items: Vec<AnfConstant>) -> AnfConstants
        ensures is { result ≡ reverse items.items }
    {
        AnfConstants { items }
    }

    /// The vector of the items, the oldest first. It takes no memory.
    pub fn into_vec(self) -> Vec<AnfConstant>
        ensures is { reverse result.items ≡ self }
    {
        self.items
    }

    /// The items, the oldest first.
    pub fn as_slice(&self) -> &[AnfConstant]
        ensures is { reverse result.now ≡ self.now }
    {
        self.items.as_slice()
    }

    /// The number of constants.
    pub fn len(&self) -> usize
        ensures is { result ≡ length self.now }
    {
        self.items.len()
    }
}

#[tactic(auto, using(crate::proofs::ViewLists::view_laws))]
impl Ops {
    /// The empty list, which grows by `alloc`.
    pub fn new(alloc: Global) -> Ops
        ensures empty { result ≡ [] }
    {
        Ops {
            items: Vec::new(alloc),
        }
    }

    /// The list of the items of a vector. It takes no memory.
    pub fn of(items: Vec<Op>) -> Ops
        ensures is { result ≡ bindings_of items.items }
    {
        Ops { items }
    }

    /// The vector of the items. It takes no memory.
    pub fn into_vec(self) -> Vec<Op>
        ensures is { bindings_of result.items ≡ self }
    {
        self.items
    }

    /// Puts an item at the end. `Memory`, and the list as it was, where there is no memory.
    pub fn push(&mut self, item: Op) -> Result<(), PassFault>
        ensures ok { IfOk result (λ _. self.new ≡ self.old ++ seen item ∷ []) }
        ensures only_memory { IfErr result (λ e. (e ≡ Memory) × (self.new ≡ self.old)) }
    {
        match self.items.push(item) {
            Ok(()) => Ok(()),
            Err(_) => Err(PassFault::Memory),
        }
    }

    /// The items, the first first.
    pub fn as_slice(&self) -> &[Op]
        ensures is { bindings_of result.now ≡ self.now }
    {
        self.items.as_slice()
    }

    /// The number of items.
    pub fn len(&self) -> usize
        ensures is { result ≡ length self.now }
    {
        self.items.len()
    }
}

#[tactic(auto, using(crate::proofs::ViewLists::view_laws))]
impl AnfBranches {
    /// The list of the items of a vector. It takes no memory.
    pub fn of(items: Vec<AnfBranch>) -> AnfBranches
        ensures is { result ≡ branches_of items.items }
    {
        AnfBranches { items }
    }

    /// The vector of the items. It takes no memory.
    pub fn into_vec(self) -> Vec<AnfBranch>
        ensures is { branches_of result.items ≡ self }
    {
        self.items
    }

    /// The items, the first first.
    pub fn as_slice(&self) -> &[AnfBranch]
        ensures is { branches_of result.now ≡ self.now }
    {
        self.items.as_slice()
    }

    /// The number of branches.
    pub fn len(&self) -> usize
        ensures is { result ≡ branch_count self.now }
    {
        self.items.len()
    }
}

#[tactic(auto, using(crate::proofs::ViewLists::view_laws))]
impl AnfDefs {
    /// The list of the items of a vector. It takes no memory.
    pub fn of(items: Vec<AnfDef>) -> AnfDefs
        ensures is { result ≡ defs_of items.items }
    {
        AnfDefs { items }
    }

    /// The vector of the items. It takes no memory.
    pub fn into_vec(self) -> Vec<AnfDef>
        ensures is { defs_of result.items ≡ self }
    {
        self.items
    }

    /// The items, the first first.
    pub fn as_slice(&self) -> &[AnfDef]
        ensures is { defs_of result.now ≡ self.now }
    {
        self.items.as_slice()
    }

    /// The number of definitions.
    pub fn len(&self) -> usize
        ensures is { result ≡ def_count self.now }
    {
        self.items.len()
    }
}

//! Programs in A-normal form (Flanagan et al., "The Essence of Compiling with Continuations", PLDI 1993).
//!
//! Contracts see a block as the tree of `specs/Anf.antt`, in which a constant stands by the number of its name, and a list as a list.
//! `seen` of `specs/AnfView.antt` is what an operation is in that tree, and `anf_of` is the program of it, in which a constant stands by its
//! place.
ghost use Rattle.std.specs.Prelude.{◌≡◌};

use crate::lists::{AnfConstants, Atoms};
use box_terms::program::BoxFamilies;
use pc_terms::leaf::Name;
use std::marker::Model;

/// What needs no evaluation.
#[derive(Clone, Copy, Debug, PartialEq, Eq)]
pub enum Atom {
    /// A variable: its de Bruijn index, 0 the innermost.
    Var(u32),
    /// Box, which stands where a type or a proof stood.
    Box,
    /// A constructor without arguments: its number in its family, from 0.
    Empty(u32),
}

/// An operation: what a block binds, or ends in.
#[cycle(anf)]
#[derive(Drop)]
pub enum Op {
    /// An atom. Bound in a block it is a let.
    Atom(Atom),
    /// A constant by its name.
    Const(Name),
    /// An application of a function to one argument.
    App(Atom, Atom),
    /// A constructor with one argument or more: its number in its family, from 0, and its arguments.
    Construct(u32, Atoms),
    /// A lambda: its body, under one variable.
    Lambda(Box<AnfBlock>),
    /// A fixpoint: its definitions, and which of them it is, from 0.
    Fix(AnfDefs, u32),
    /// A match: the scrutinee, and a branch for each constructor.
    Case(Atom, AnfBranches),
}

/// A block binds the values of operations one after another, each under the variables of those before it, and ends in an operation.
#[cycle(anf)]
#[derive(Drop)]
pub struct AnfBlock {
    /// What is bound, the outermost first.
    pub bindings: Ops,
    /// What the block gives, under a variable for each binding.
    pub tail: Op,
}

/// A definition of a fixpoint, under a variable for each definition of the fixpoint, the last one innermost.
#[cycle(anf)]
#[derive(Drop)]
pub enum AnfDef {
    /// A lambda: its body, under one variable more.
    Lambda(AnfBlock),
    /// Box.
    Box,
}

/// A branch of a match: its body, under `binders` variables.
#[cycle(anf)]
#[derive(Drop)]
pub struct AnfBranch {
    /// How many variables the body stands under, one for each argument of the constructor, the last one innermost.
    pub binders: u32,
    /// The body.
    pub body: AnfBlock,
}

/// A list of operations.
#[cycle(anf)]
#[derive(Drop)]
pub struct Ops {
    pub(crate) items: Vec<Op>,
}

/// A list of branches.
#[cycle(anf)]
#[derive(Drop)]
pub struct AnfBranches {
    pub(crate) items: Vec<AnfBranch>,
}

/// A list of the definitions of a fixpoint.
#[cycle(anf)]
#[derive(Drop)]
pub struct AnfDefs {
    pub(crate) items: Vec<AnfDef>,
}

/// A constant and its body.
#[derive(Drop)]
pub struct AnfConstant {
    /// The constant's name.
    pub name: Name,
    /// What it stands for, a block under no variable.
    pub body: AnfBlock,
}

/// A program in A-normal form.
#[derive(Drop)]
pub struct AnfProgram {
    /// The constants with their bodies.
    pub constants: AnfConstants,
    /// The families of the program that it was made from.
    pub families: BoxFamilies,
    /// The block that is evaluated, under no variable.
    pub main: AnfBlock,
}

impl Model for AnfBlock {
    ghost use Rattle.anf_convert.specs.Anf.{AnfBlock};
    ghost use Rattle.anf_convert.specs.AnfCode.{coded_block};

    ghost Value = { AnfBlock };

    ghost coded = { coded_block };

    ghost use Rattle.anf_convert.specs.AnfView.{whole};
    ghost use Rattle.anf_convert.specs.AnfWeight.{block_weight};

    ghost view = { λ b. whole b.bindings b.tail };

    ghost size = { block_weight };

    ghost use Rattle.std.proofs.Common.{arith};
    ghost use Rattle.anf_convert.specs.AnfFalls.{block_falls};

    ghost size_decreases = { λ b h. let f = block_falls b.bindings b.tail in omega (arith, f.0, f.1) };
}

impl Model for Ops {
    ghost use Rattle.std.specs.Prelude.{List};
    ghost use Rattle.std.specs.Coded.{coded_list};
    ghost use Rattle.anf_convert.specs.Anf.{AnfBinding};
    ghost use Rattle.anf_convert.specs.AnfCode.{coded_binding};

    ghost Value = { List AnfBinding };

    ghost coded = { coded_list coded_binding };

    ghost use Rattle.anf_convert.specs.AnfView.{bindings_of};
    ghost use Rattle.anf_convert.specs.AnfWeight.{bindings_weight};

    ghost view = { λ a. bindings_of a.items.items };

    ghost size = { bindings_weight };

    ghost use Rattle.std.proofs.Common.{arith};
    ghost use Rattle.anf_convert.specs.AnfFalls.{bindings_fall};

    ghost size_decreases = { λ a h. omega (arith, bindings_fall a.items.items) };
}

impl Model for AnfBranches {
    ghost use Rattle.anf_convert.specs.Anf.{AnfBranches};
    ghost use Rattle.anf_convert.specs.AnfCode.{coded_branches};

    ghost Value = { AnfBranches };

    ghost coded = { coded_branches };

    ghost use Rattle.anf_convert.specs.AnfView.{branches_of};
    ghost use Rattle.anf_convert.specs.AnfWeight.{branches_weight};

    ghost view = { λ a. branches_of a.items.items };

    ghost size = { branches_weight };

    ghost use Rattle.std.proofs.Common.{arith};
    ghost use Rattle.anf_convert.specs.AnfFalls.{branches_fall};

    ghost size_decreases = { λ a h. omega (arith, branches_fall a.items.items) };
}

impl Model for AnfDefs {
    ghost use Rattle.anf_convert.specs.Anf.{AnfDefs};
    ghost use Rattle.anf_convert.specs.AnfCode.{coded_defs};

    ghost Value = { AnfDefs };

    ghost coded = { coded_defs };

    ghost use Rattle.anf_convert.specs.AnfView.{defs_of};
    ghost use Rattle.anf_convert.specs.AnfWeight.{defs_weight};

    ghost view = { λ a. defs_of a.items.items };

    ghost size = { defs_weight };

    ghost use Rattle.std.proofs.Common.{arith};
    ghost use Rattle.anf_convert.specs.AnfFalls.{defs_fall};

    ghost size_decreases = { λ a h. omega (arith, defs_fall a.items.items) };
}

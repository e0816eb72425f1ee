//! Lifted programs: functions by number, and closures with captured words (closure conversion; Appel, "Compiling with Continuations",
//! chapter 10).
//!
//! Contracts see a block as the tree of `specs/Lifted.antt`, in which a constant stands by the number of its name, and functions as a list of
//! that file. `lifted_of` of `specs/LiftedProgram.antt` is the program of it, in which a constant stands by its place.
ghost use Rattle.std.specs.Prelude.{◌≡◌};

use crate::lists::{Functions, LiftedConstants};
use anf_convert::lists::Atoms;
use anf_convert::program::Atom;
use box_terms::program::BoxFamilies;
use pc_terms::leaf::Name;
use std::marker::Model;

/// An operation: what a block binds, or ends in.
#[cycle(lifted)]
#[derive(Drop)]
pub enum LiftedOp {
    /// An atom. Bound in a block it is a let.
    Atom(Atom),
    /// A constant by its name.
    Const(Name),
    /// An application of a function to one argument.
    App(Atom, Atom),
    /// A constructor with one argument or more: its number in its family, from 0, and its arguments.
    Construct(u32, Atoms),
    /// A closure: the number of its function, from 0, and its captured words.
    Closure(u32, Atoms),
    /// A match: the scrutinee, and a branch for each constructor.
    Case(Atom, LiftedBranches),
}

/// A block binds the values of operations one after another, each under the variables of those before it, and ends in an operation.
#[cycle(lifted)]
#[derive(Drop)]
pub struct LiftedBlock {
    /// What is bound, the outermost first.
    pub bindings: LiftedOps,
    /// What the block gives, under a variable for each binding.
    pub tail: LiftedOp,
}

/// A branch of a match: its body, under `binders` variables.
#[cycle(lifted)]
#[derive(Drop)]
pub struct LiftedBranch {
    /// How many variables the body stands under, one for each argument of the constructor, the last one innermost.
    pub binders: u32,
    /// The body.
    pub body: LiftedBlock,
}

/// A list of operations.
#[cycle(lifted)]
#[derive(Drop)]
pub struct LiftedOps {
    pub(crate) items: Vec<LiftedOp>,
}

/// A list of branches.
#[cycle(lifted)]
#[derive(Drop)]
pub struct LiftedBranches {
    pub(crate) items: Vec<LiftedBranch>,
}

/// A function: its body stands under its captured words, the last one innermost, and under them its argument, which is variable 0.
#[derive(Drop)]
pub struct Function {
    /// The number of captured words.
    pub captured: u32,
    /// The body.
    pub body: LiftedBlock,
}

/// A constant and its body.
#[derive(Drop)]
pub struct LiftedConstant {
    /// The constant's name.
    pub name: Name,
    /// What it stands for, a block under no variable.
    pub body: LiftedBlock,
}

/// A lifted program.
#[derive(Drop)]
pub struct Lifted {
    /// The functions, which closures name by their numbers.
    pub functions: Functions,
    /// The constants with their bodies.
    pub constants: LiftedConstants,
    /// The families of the program that it was made from.
    pub families: BoxFamilies,
    /// The block that is evaluated, under no variable.
    pub main: LiftedBlock,
}

impl Model for LiftedBlock {
    ghost use Rattle.closure_lift.specs.Lifted.{Block};
    ghost use Rattle.closure_lift.specs.LiftedCode.{coded_block};

    ghost Value = { Block };

    ghost coded = { coded_block };

    ghost use Rattle.closure_lift.specs.LiftedView.{whole};
    ghost use Rattle.closure_lift.specs.LiftedWeight.{block_weight};

    ghost view = { λ b. whole b.bindings b.tail };

    ghost size = { block_weight };

    ghost use Rattle.std.proofs.Common.{arith};
    ghost use Rattle.closure_lift.specs.LiftedFalls.{block_falls};

    ghost size_decreases = { λ b h. let f = block_falls b.bindings b.tail in omega (arith, f.0, f.1) };
}

impl Model for LiftedOps {
    ghost use Rattle.std.specs.Prelude.{List};
    ghost use Rattle.std.specs.Coded.{coded_list};
    ghost use Rattle.closure_lift.specs.Lifted.{Bound};
    ghost use Rattle.closure_lift.specs.LiftedCode.{coded_bound};

    ghost Value = { List Bound };

    ghost coded = { coded_list coded_bound };

    ghost use Rattle.closure_lift.specs.LiftedView.{bounds_of};
    ghost use Rattle.closure_lift.specs.LiftedWeight.{bounds_weight};

    ghost view = { λ a. bounds_of a.items.items };

    ghost size = { bounds_weight };

    ghost use Rattle.std.proofs.Common.{arith};
    ghost use Rattle.closure_lift.specs.LiftedFalls.{bounds_fall};

    ghost size_decreases = { λ a h. omega (arith, bounds_fall a.items.items) };
}

impl Model for LiftedBranches {
    ghost use Rattle.closure_lift.specs.Lifted.{BranchBlocks};
    ghost use Rattle.closure_lift.specs.LiftedCode.{coded_branches};

    ghost Value = { BranchBlocks };

    ghost coded = { coded_branches };

    ghost use Rattle.closure_lift.specs.LiftedView.{branches_of};
    ghost use Rattle.closure_lift.specs.LiftedWeight.{branches_weight};

    ghost view = { λ a. branches_of a.items.items };

    ghost size = { branches_weight };

    ghost use Rattle.std.proofs.Common.{arith};
    ghost use Rattle.closure_lift.specs.LiftedFalls.{branches_fall};

    ghost size_decreases = { λ a h. omega (arith, branches_fall a.items.items) };
}

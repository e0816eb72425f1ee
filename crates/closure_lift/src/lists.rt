//! The lists of a lifted program: small types over `Vec`.
//!
//! Contracts see constants with the newest first, as the definitions have them.
ghost use Rattle.std.specs.Prelude.{◌≡◌, length, reverse, [], ◌∷◌, ◌++◌};
ghost use Rattle.closure_lift.specs.Lifted.{branch_count};
ghost use Rattle.closure_lift.specs.LiftedView.{bounds_of, branches_of, functions_of};

use crate::program::{Function, LiftedBranch, LiftedBranches, LiftedConstant, LiftedOp, LiftedOps};
use std::marker::Model;

/// A list of functions, by number.
#[derive(Drop)]
pub struct Functions {
    items: Vec<Function>,
}

/// A list of constants in the order of declarations. Contracts see the newest first.
#[derive(Drop)]
pub struct LiftedConstants {
    items: Vec<LiftedConstant>,
}

impl Model for Functions {
    ghost use Rattle.std.specs.Prelude.{List};
    ghost use Rattle.std.specs.Coded.{coded_list};
    ghost use Rattle.closure_lift.specs.Lifted.{Fn};
    ghost use Rattle.closure_lift.specs.LiftedCode.{coded_fn};

    ghost Value = { List Fn };

    ghost coded = { coded_list coded_fn };

    ghost use Rattle.closure_lift.specs.LiftedView.{functions_of};

    ghost view = { λ a. functions_of a.items.items };
}

impl Model for LiftedConstants {
    ghost use Rattle.std.specs.Prelude.{List, reverse};
    ghost use Rattle.std.specs.Coded.{coded_list};
    ghost use Rattle.closure_lift.specs.declared.program.LiftedConstant.{LiftedConstant};
    ghost use Rattle.closure_lift.specs.ConstantCode.{coded_constant};

    ghost Value = { List LiftedConstant };

    ghost coded = { coded_list coded_constant };

    ghost view = { λ a. reverse a.items.items };
}

impl Functions {
    /// The list of the items of a vector. It takes no memory.
    pub fn of(items: Vec<Function>) -> Functions
        ensures is { result ≡ functions_of items.items }
    {
        Functions { items }
    }

    /// The vector of the items. It takes no memory.
    pub fn into_vec(self) -> Vec<Function>
        ensures is { functions_of result.items ≡ self }
    {
        self.items
    }

    /// The items, by number.
    pub fn as_slice(&self) -> &[Function]
        ensures is { functions_of result.now ≡ self.now }
    {
        self.items.as_slice()
    }
}

impl LiftedConstants {
    /// The list of the items of a vector, the oldest first. It takes no memory.
    pub fn of(items: Vec<LiftedConstant>) -> LiftedConstants
        ensures is { result ≡ reverse items.items }
    {
        LiftedConstants { items }
    }

    /// The vector of the items, the oldest first. It takes no memory.
    pub fn into_vec(self) -> Vec<LiftedConstant>
        ensures is { reverse result.items ≡ self }
    {
        self.items
    }

    /// The items, the oldest first.
    pub fn as_slice(&self) -> &[LiftedConstant]
        ensures is { reverse result.now ≡ self.now }
    {
        self.items.as_slice()
    }

    /// The number of constants.
    pub fn len(&self) -> usize
        ensures is { result ≡ length self.now }
    {
        self.items.len()
    }
}

impl LiftedOps {
    /// The list of the items of a vector. It takes no memory.
    pub fn of(items: Vec<LiftedOp>) -> LiftedOps
        ensures is { result ≡ bounds_of items.items }
    {
        LiftedOps { items }
    }

    /// The vector of the items. It takes no memory.
    pub fn into_vec(self) -> Vec<LiftedOp>
        ensures is { bounds_of result.items ≡ self }
    {
        self.items
    }

    /// The items, the first first.
    pub fn as_slice(&self) -> &[LiftedOp]
        ensures is { bounds_of result.now ≡ self.now }
    {
        self.items.as_slice()
    }

    /// The number of items.
    pub fn len(&self) -> usize
        ensures is { result ≡ length self.now }
    {
        self.items.len()
    }
}

impl LiftedBranches {
    /// The list of the items of a vector. It takes no memory.
    pub fn of(items: Vec<LiftedBranch>) -> LiftedBranches
        ensures is { result ≡ branches_of items.items }
    {
        LiftedBranches { items }
    }

    /// The vector of the items. It takes no memory.
    pub fn into_vec(self) -> Vec<LiftedBranch>
        ensures is { branches_of result.items ≡ self }
    {
        self.items
    }

    /// The items, the first first.
    pub fn as_slice(&self) -> &[LiftedBranch]
        ensures is { branches_of result.now ≡ self.now }
    {
        self.items.as_slice()
    }

    /// The number of branches.
    pub fn len(&self) -> usize
        ensures is { result ≡ branch_count self.now }
    {
        self.items.len()
    }
}

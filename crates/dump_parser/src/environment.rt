//! The parts of an environment: its levels, constraints and declarations, each name as the slice of the text where it stands. Names are ASCII.

use crate::tree::{SortTree, Tree};

/// How two levels of a constraint stand to each other: `lt`, `le` or `eq`.
#[derive(Clone, Copy, Debug, PartialEq, Eq)]
pub enum Relation {
    Less,
    AtMost,
    Equal,
}

/// A constraint on two levels.
#[derive(Clone, Copy, Debug)]
pub struct ConstraintTree<'a> {
    pub relation: Relation,
    pub left: &'a str,
    pub right: &'a str,
}

/// A constructor: the types of its arguments, the outermost first, each under the block's parameters and the arguments before it; and the indices
/// of what it builds, under the parameters and all arguments.
#[derive(Drop)]
pub struct CtorTree<'a> {
    pub name: &'a str,
    pub args: Vec<Tree<'a>>,
    pub result: Vec<Tree<'a>>,
}

/// A family: its sort, the types of its indices, the outermost first, each under the block's parameters and the indices before it, and its
/// constructors.
#[derive(Drop)]
pub struct FamilyTree<'a> {
    pub name: &'a str,
    pub sort: SortTree<'a>,
    pub indices: Vec<Tree<'a>>,
    pub ctors: Vec<CtorTree<'a>>,
}

/// A declaration: a constant, with its body if it has one, or a block of families, with the types of its parameters, the outermost first.
#[derive(Drop)]
pub enum DeclTree<'a> {
    Constant {
        name: &'a str,
        ty: Tree<'a>,
        body: Option<Tree<'a>>,
    },
    Block {
        name: &'a str,
        params: Vec<Tree<'a>>,
        families: Vec<FamilyTree<'a>>,
    },
}

/// What stands before the declarations: the levels and the constraints on them.
#[derive(Drop)]
pub struct HeadTree<'a> {
    pub levels: Vec<&'a str>,
    pub constraints: Vec<ConstraintTree<'a>>,
}

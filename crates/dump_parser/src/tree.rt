//! The terms of a text, without the names of binders, each name as the slice of the text where it stands. Names are ASCII.

ghost use Rattle.std.specs.Prelude.{◌≡◌, ◌≤◌, IfSome};
ghost use Rattle.dump_grammar.specs.Named.{depth};
ghost use Rattle.dump_grammar.specs.Limits.{depth_limit};
ghost use Rattle.dump_parser.specs.Tree.{named, IsIndexed};

use std::marker::Model;
use std::rc::Rc;

/// A level of a sort, and what is added to it.
#[derive(Clone, Copy, Debug)]
pub struct LevelPart<'a> {
    pub level: &'a str,
    pub add: u32,
}

/// A sort: `Prop`, or the maximum of a first part and further ones. `Set` is the part of the level `Set` with nothing added.
#[derive(Drop)]
pub enum SortTree<'a> {
    Prop,
    Type(LevelPart<'a>, Vec<LevelPart<'a>>),
}

/// A term of a text, with its depth, which is at most 2,048: 1 for a node without subterms, and else one more than its deepest subterm's, where an
/// application takes one argument and a cast is a lambda applied. Two terms may share a node. The index of a fixpoint is below the number of its
/// definitions.
///
/// Contracts see it as the term that the grammar means by it.
#[cycle(tree)]
#[derive(Drop)]
pub struct Tree<'a> {
    pub(crate) nesting: usize,
    pub(crate) node: Rc<Node<'a>>,
}

/// A node of a term: one of the forms of the text, with its parts. Names of binders are dropped. Variables are de Bruijn indices: the innermost
/// binder's is 0.
#[cycle(tree)]
#[derive(Drop)]
pub enum Node<'a> {
    Rel(u32),
    Sort(SortTree<'a>),
    /// The domain, and the codomain under one variable.
    Prod(Tree<'a>, Tree<'a>),
    /// The domain, and the body under one variable.
    Lambda(Tree<'a>, Tree<'a>),
    /// The value, its type, and the body under one variable.
    LetIn(Tree<'a>, Tree<'a>, Tree<'a>),
    /// A function, its first argument, and its further arguments.
    App(Tree<'a>, Tree<'a>, Vec<Tree<'a>>),
    Const(&'a str),
    Ind(&'a str, u32),
    Construct(&'a str, u32, u32),
    /// A match, behind a box, so that a node takes no more room than its other forms need.
    Case(Box<Match<'a>>),
    /// The definitions, and the index of one of them, below their number.
    Fix(Vec<Def<'a>>, u32),
    /// A term and its type.
    Cast(Tree<'a>, Tree<'a>),
}

/// A match. The predicate `ret` is under `binders` variables.
#[cycle(tree)]
#[derive(Drop)]
pub struct Match<'a> {
    pub block: &'a str,
    pub family: u32,
    pub params: Vec<Tree<'a>>,
    pub binders: u32,
    pub ret: Tree<'a>,
    pub scrut: Tree<'a>,
    pub branches: Vec<Branch<'a>>,
}

/// A branch of a match: its body, under `binders` variables.
#[cycle(tree)]
#[derive(Drop)]
pub struct Branch<'a> {
    pub binders: u32,
    pub body: Tree<'a>,
}

/// A definition of a fixpoint. Its body is under all definitions, the last one innermost.
#[cycle(tree)]
#[derive(Drop)]
pub struct Def<'a> {
    pub ty: Tree<'a>,
    pub body: Tree<'a>,
    pub rarg: u32,
}

impl<'a> Model for Tree<'a> {
    ghost use Rattle.dump_grammar.specs.Named.{Named, depth};
    ghost use Rattle.dump_parser.specs.Code.{coded_named};

    ghost Value = { Named };

    ghost coded = { coded_named };

    ghost use Rattle.dump_parser.specs.Tree.{named, IsMeasured};

    ghost view = { λ t. named t.node.value };

    ghost invariant = { λ t. IsMeasured t.nesting t.node.value };

    ghost size = { λ t. depth t };

    ghost use Rattle.dump_parser.specs.Falls.{falls};
    ghost use Rattle.std.proofs.Common.{arith};

    ghost size_decreases = { λ a h. omega (arith, falls a.node.value) };
}

impl<'a> Tree<'a> {
    /// The node of the term, as it stands in the text. It takes no memory.
    pub fn node(&self) -> &Node<'a>
        ensures is { named result.now ≡ self.now }
        ensures within { depth self.now ≤ depth_limit }
        ensures indexed { IsIndexed result.now }
    {
        &self.node
    }

    /// The same term, shared with this one, or None where no more can share it.
    pub(crate) fn share(&self) -> Option<Tree<'a>>
        ensures same { IfSome result (λ t. t ≡ self.now) }
    {
        match self.node.clone() {
            Ok(node) => Some(Tree {
                nesting: self.nesting,
                node,
            }),
            Err(_) => None,
        }
    }

    /// The depth of the term. It takes no memory.
    pub fn depth(&self) -> usize
        ensures is { result ≡ depth self.now }
        ensures within { depth self.now ≤ depth_limit }
    {
        self.nesting
    }
}

//! The terms without subterms of a text, which are shared: a term that comes again is mostly the one that was made before.

ghost use Rattle.std.specs.Prelude.{◌≡◌, ◌<◌, ◌^◌, IsTrue, IfOk, IfErr, IfSome};
ghost use Rattle.dump_grammar.specs.declared.refusal.ReadRefusal.TheVariants.{Memory};
ghost use Rattle.dump_parser.specs.Tree.{named, IsIndexed};
ghost use Rattle.dump_parser.specs.Leaves.{leaf_named};

use crate::tree::{Node, Tree};
use dump_grammar::ReadRefusal;
use std::alloc::Global;
use std::rc::Rc;

/// How many variables have a place of their own.
const VARIABLES: u32 = 64;
/// How many places names have together.
const NAMED: usize = 1024;

/// A term without subterms, but for sorts. Variables are de Bruijn indices, the innermost 0; names are slices of the text.
#[derive(Clone, Copy, Debug)]
pub(crate) enum Leaf<'a> {
    Rel(u32),
    Const(&'a str),
    Ind(&'a str, u32),
    Construct(&'a str, u32, u32),
}

/// Whether two names are the same.
fn same_text(name: &str, other: &str) -> bool
    ensures is { IsTrue result → name.now ≡ other.now }
{
    name.as_bytes() == other.as_bytes()
}

/// A number that tells many names apart, by a name's length and three of its bytes.
fn mark(text: &[u8]) -> usize
    ensures small { result < 2 ^ 14 }
{
    let Some(first) = text.first() else {
        return 0;
    };
    let Some(last) = text.last() else {
        return 0;
    };
    let Some(middle) = text.get(text.len() / 2) else {
        return 0;
    };
    text.len() % 256 + *first as usize * 3 + *last as usize * 5 + *middle as usize * 37
}

impl<'a> Leaf<'a> {
    /// The node of the term.
    fn node(self) -> Node<'a>
        ensures is { named result ≡ leaf_named self.entry }
        ensures indexed { IsIndexed result }
    {
        match self {
            Leaf::Rel(n) => Node::Rel(n),
            Leaf::Const(name) => Node::Const(name),
            Leaf::Ind(block, family) => Node::Ind(block, family),
            Leaf::Construct(block, family, place) => Node::Construct(block, family, place),
        }
    }

    /// Whether a node is seen to be that of the term.
    fn is_of(self, node: &Node<'a>) -> bool
        ensures is { IsTrue result → named node.now ≡ leaf_named self.entry }
    {
        match self {
            Leaf::Rel(n) => match node {
                Node::Rel(m) => n == *m,
                _ => false,
            },
            Leaf::Const(name) => match node {
                Node::Const(other) => same_text(name, other),
                _ => false,
            },
            Leaf::Ind(block, family) => match node {
                Node::Ind(other, at) => family == *at && same_text(block, other),
                _ => false,
            },
            Leaf::Construct(block, family, place) => match node {
                Node::Construct(other, at, number) => {
                    place == *number && family == *at && same_text(block, other)
                }
                _ => false,
            },
        }
    }

    /// The place of the term in a table. Variables have the first, and names those behind them.
    fn place(self) -> usize
        ensures small { result < 2 ^ 11 }
    {
        match self {
            Leaf::Rel(n) => (n % VARIABLES) as usize,
            Leaf::Const(name) => 64 + 4 * mark(name.as_bytes()) % NAMED,
            Leaf::Ind(block, _) => 65 + 4 * mark(block.as_bytes()) % NAMED,
            Leaf::Construct(block, _, place) => 66
                + 4 * mark(block.as_bytes()) % NAMED
                + (place % 2) as usize,
        }
    }
}

/// The term of a leaf, made anew.
#[tactic(auto, unfolding(dump_grammar::specs::Named::depth))]
fn made<'a>(alloc: Global, leaf: Leaf<'a>) -> Result<Tree<'a>, ReadRefusal>
    ensures ok { IfOk result (λ t. t ≡ leaf_named leaf.entry) }
    ensures only_memory { IfErr result (λ e. e ≡ Memory) }
{
    let node = Rc::new(alloc, leaf.node())?;
    Ok(Tree { nesting: 1, node })
}

/// Terms without subterms, at each place the last that was made. No clause says what is in it.
#[derive(Drop)]
pub(crate) struct Leaves<'a> {
    terms: Vec<Option<Tree<'a>>>,
}

impl<'a> Leaves<'a> {
    /// The table that has none yet.
    pub(crate) fn new(alloc: Global) -> Leaves<'a> {
        Leaves {
            terms: Vec::new(alloc),
        }
    }

    /// The term of a leaf, shared, where it is in the table.
    fn seen(&self, leaf: Leaf<'a>) -> Option<Tree<'a>>
        ensures is { IfSome result (λ t. t ≡ leaf_named leaf.entry) }
    {
        let Some(Some(term)) = self.terms.get(leaf.place()) else {
            return None;
        };
        if !leaf.is_of(term.node()) {
            return None;
        }
        term.share()
    }

    /// Puts the term of a leaf into its place, where there is memory for that.
    fn keep(&mut self, leaf: Leaf<'a>, term: &Tree<'a>) {
        let Some(shared) = term.share() else {
            return;
        };
        let place = leaf.place();
        for _ in self.terms.len()..place + 1 {
            if self.terms.push(None).is_err() {
                return;
            }
        }
        if let Some(kept) = self.terms.get_mut(place) {
            *kept = Some(shared);
        }
    }

    /// The term of a leaf.
    pub(crate) fn term(&mut self, alloc: Global, leaf: Leaf<'a>) -> Result<Tree<'a>, ReadRefusal>
        ensures ok { IfOk result (λ t. t ≡ leaf_named leaf.entry) }
        ensures only_memory { IfErr result (λ e. e ≡ Memory) }
    {
        if let Some(term) = self.seen(leaf) {
            return Ok(term);
        }
        let term = made(alloc, leaf)?;
        self.keep(leaf, &term);
        Ok(term)
    }
}

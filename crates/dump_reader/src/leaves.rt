//! The terms without subterms of a text, which are shared: a term that comes again is the one that was made before.
ghost use Rattle.std.specs.Prelude.{◌≡◌, ◌<◌, ◌^◌, IsTrue, IfOk, IfErr, IfSome};
ghost use Rattle.trees.specs.Measures.{IsWithin};
ghost use Rattle.pc_terms.specs.Syntax.{HasIndex};
ghost use Rattle.pc_terms.specs.View.{tree_of};
ghost use Rattle.dump_grammar.specs.declared.refusal.ReadRefusal.TheVariants.{Memory};
ghost use Rattle.dump_reader.specs.Leaves.{leaf_term};

use crate::making::made;
use dump_grammar::ReadRefusal;
use pc_terms::leaf::{FamilyId, Name};
use pc_terms::term::{Node, Term};
use std::alloc::Global;
use universe_levels::sort::Sort;

/// How many variables have a place of their own.
const VARIABLES: u32 = 64;
/// How many places names have together: four for each of 4,096, and later names have those of earlier ones.
const NAMED: usize = 16_384;

/// A term without subterms, but for the sorts of universes. Variables are de Bruijn indices, the innermost 0; a constructor is told by its
/// place in the family from 0.
#[derive(Clone, Copy, Debug)]
pub(crate) enum Leaf {
    Rel(u32),
    Prop,
    Const(Name),
    Ind(FamilyId),
    Construct(FamilyId, u32),
}

/// Whether two families are the same.
fn same_family(f: FamilyId, g: FamilyId) -> bool
    ensures is { IsTrue result → f ≡ g }
{
    f.block.0 == g.block.0 && f.family == g.family
}

impl Leaf {
    /// The node of the term.
    fn node(self) -> Node
        ensures is { tree_of result ≡ leaf_term self }
        ensures indexed { HasIndex (tree_of result) }
        ensures within { IsWithin (tree_of result) }
    {
        match self {
            Leaf::Rel(n) => Node::Rel(n),
            Leaf::Prop => Node::Sort(Sort::Prop),
            Leaf::Const(name) => Node::Const(name),
            Leaf::Ind(family) => Node::Ind(family),
            Leaf::Construct(family, place) => Node::Construct(family, place),
        }
    }

    /// Whether a node is seen to be that of the term.
    fn is_of(self, node: &Node) -> bool
        ensures is { IsTrue result → tree_of node.now ≡ leaf_term self }
    {
        match self {
            Leaf::Rel(n) => match node {
                Node::Rel(m) => n == *m,
                _ => false,
            },
            Leaf::Prop => match node {
                Node::Sort(Sort::Prop) => true,
                _ => false,
            },
            Leaf::Const(name) => match node {
                Node::Const(other) => name.0 == other.0,
                _ => false,
            },
            Leaf::Ind(family) => match node {
                Node::Ind(other) => same_family(family, *other),
                _ => false,
            },
            Leaf::Construct(family, place) => match node {
                Node::Construct(other, at) => same_family(family, *other) && place == *at,
                _ => false,
            },
        }
    }

    /// The place of the term in a table. Variables have the first, and `Prop` the next; each name has four, the last three for constructors.
    fn place(self) -> usize
        ensures small { result < 2 ^ 15 }
    {
        match self {
            Leaf::Rel(n) => (n % VARIABLES) as usize,
            Leaf::Prop => VARIABLES as usize,
            Leaf::Const(name) => 65 + 4 * name.0 as usize % NAMED,
            Leaf::Ind(family) => 65 + 4 * family.block.0 as usize % NAMED,
            Leaf::Construct(family, place) => {
                66 + 4 * family.block.0 as usize % NAMED + (place % 3) as usize
            }
        }
    }
}

/// Terms without subterms, at each place the last that was made. No clause says what is in it.
#[derive(Drop)]
pub(crate) struct Leaves {
    terms: Vec<Option<Term>>,
}

impl Leaves {
    /// The table that has none yet.
    pub(crate) fn new(alloc: Global) -> Leaves {
        Leaves {
            terms: Vec::new(alloc),
        }
    }

    /// The term of a leaf, shared, where it is in the table.
    fn seen(&self, leaf: Leaf) -> Option<Term>
        ensures is { IfSome result (λ t. t ≡ leaf_term leaf) }
    {
        let Some(Some(term)) = self.terms.get(leaf.place()) else {
            return None;
        };
        if !leaf.is_of(term.view()) {
            return None;
        }
        match term.share() {
            Ok(shared) => Some(shared),
            Err(_) => None,
        }
    }

    /// Puts the term of a leaf into its place, where there is memory for that.
    fn keep(&mut self, leaf: Leaf, term: &Term) {
        let Ok(shared) = term.share() else {
            return;
        };
        let place = leaf.place();
        for _ in self.terms.len()..place + 1 {
            if self.terms.push(None).is_err() {
                return;
            }
        }
        if let Some(kept) = self.terms.get_mut(place) {
            *kept = Some(shared);
        }
    }

    /// The term of a leaf.
    pub(crate) fn term(&mut self, alloc: Global, leaf: Leaf) -> Result<Term, ReadRefusal>
        ensures ok { IfOk result (λ t. t ≡ leaf_term leaf) }
        ensures only_memory { IfErr result (λ e. e ≡ Memory) }
    {
        if let Some(term) = self.seen(leaf) {
            return Ok(term);
        }
        let term = made(alloc, leaf.node())?;
        self.keep(leaf, &term);
        Ok(term)
    }
}

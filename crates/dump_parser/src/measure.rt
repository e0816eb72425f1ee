//! The depth of a term, from the depths of its parts, and the making of a term within the limit of depth.

ghost use Rattle.std.specs.Prelude.{◌+◌, ◌≡◌, ◌≤◌, map, [], ◌∷◌};
ghost use Rattle.dump_grammar.specs.Table.{IEnd, VTerm};
ghost use Rattle.dump_grammar.specs.Limits.{depth_limit};
ghost use Rattle.dump_parser.specs.Reading.{Reads};
ghost use Rattle.dump_grammar.specs.Named.{Named, terms_of, branches_of, defs_of, depth, depth_terms, depth_branches, depth_defs};
ghost use Rattle.dump_parser.specs.Tree.{named, named_branch, named_def, applied, IsIndexed};
ghost use Rattle.dump_parser.specs.Making.{Makes};
ghost use Rattle.dump_parser.specs.Leaves.{leaf_named};

use crate::leaves::{Leaf, Leaves};
use crate::token::next;
use crate::tree::{Branch, Def, Node, Tree};
use dump_grammar::{Limit, ReadRefusal};
use sexp_reader::{TokenKind, Tokens};
use std::alloc::Global;
use std::rc::Rc;

/// The greatest depth of a term.
const DEPTH_LIMIT: usize = 2048;

#[tactic(auto, using(crate::proofs::Depths::deepest_laws, std::proofs::lemmas::Grind::common_steps))]
fn deepest(terms: &[Tree]) -> usize
    ensures is { result ≡ depth_terms (terms_of terms.now) }
    ensures within { result ≤ depth_limit }
{
    let mut most = 0;
    for t in terms {
        most = most.max(t.depth());
    }
    most
}

#[tactic(auto, using(crate::proofs::Depths::deepest_laws, std::proofs::lemmas::Grind::common_steps))]
fn deepest_branch(branches: &[Branch]) -> usize
    ensures is { result ≡ depth_branches (branches_of (map named_branch branches.now)) }
    ensures within { result ≤ depth_limit }
{
    let mut most = 0;
    for b in branches {
        most = most.max(b.body.depth());
    }
    most
}

#[tactic(auto, using(crate::proofs::Depths::deepest_laws, std::proofs::lemmas::Grind::common_steps))]
fn deepest_def(defs: &[Def]) -> usize
    ensures is { result ≡ depth_defs (defs_of (map named_def defs.now)) }
    ensures within { result ≤ depth_limit }
{
    let mut most = 0;
    for d in defs {
        most = most.max(d.ty.depth()).max(d.body.depth());
    }
    most
}

/// The depth of a term of the depth `first`, applied to arguments.
fn applied_depth(first: usize, more: &[Tree]) -> usize
    requires { first ≤ depth_limit + 1 }
    ensures is { (f : Named) → depth f ≡ first → result ≡ depth (applied f more.now) }
{
    let mut deep = first;
    for t in more {
        deep = deep.max(t.depth()) + 1;
    }
    deep
}

impl<'a> Node<'a> {
    /// The depth of the term that the node makes.
    #[tactic(auto, unfolding(dump_grammar::specs::Named::depth))]
    fn depth(&self) -> usize
        ensures is { result ≡ depth (named self.now) }
    {
        match self {
            Node::Rel(_) => 1,
            Node::Sort(_) => 1,
            Node::Prod(domain, codomain) => domain.depth().max(codomain.depth()) + 1,
            Node::Lambda(domain, body) => domain.depth().max(body.depth()) + 1,
            Node::LetIn(value, ty, body) => value.depth().max(ty.depth().max(body.depth())) + 1,
            Node::App(function, argument, more) => {
                applied_depth(function.depth().max(argument.depth()) + 1, more.as_slice())
            }
            Node::Const(_) => 1,
            Node::Ind(_, _) => 1,
            Node::Construct(_, _, _) => 1,
            Node::Case(m) => {
                let params = deepest(m.params.as_slice());
                let branches = deepest_branch(m.branches.as_slice());
                params.max(m.ret.depth().max(m.scrut.depth().max(branches))) + 1
            }
            Node::Fix(defs, _) => deepest_def(defs.as_slice()) + 1,
            Node::Cast(term, ty) => (ty.depth().max(1) + 1).max(term.depth()) + 1,
        }
    }
}

/// The term of a node. `Limit` of the depth, at the bracket that closes it, where its depth is over 2,048.
#[tactic(auto, using(crate::proofs::Depths::depth_laws))]
pub(crate) fn make<'a>(alloc: Global, node: Node<'a>, close: usize) -> Result<Tree<'a>, ReadRefusal>
    requires indexed { IsIndexed node }
    ensures made { Makes result (named node.entry) close }
{
    let nesting = node.depth();
    if nesting > DEPTH_LIMIT {
        return Err(ReadRefusal::Limit {
            which: Limit::Depth,
            offset: close,
        });
    }
    let node = Rc::new(alloc, node)?;
    Ok(Tree { nesting, node })
}

/// The bracket that closes a term, and the term of its node.
pub(crate) fn finish<'a>(
    alloc: Global,
    tokens: &mut Tokens<'a>,
    node: Node<'a>,
) -> Result<Tree<'a>, ReadRefusal>
    requires indexed { IsIndexed node }
    ensures reads { Reads result tokens.old tokens.new (IEnd ∷ []) (VTerm (named node.entry) ∷ []) (λ t vs. VTerm t ∷ vs) }
{
    match next(tokens)? {
        Some(token) if token.kind == TokenKind::Close => {
            let t = make(alloc, node, token.start)?;
            Ok(t)
        }
        Some(token) => Err(ReadRefusal::Syntax {
            offset: token.start,
        }),
        None => Err(ReadRefusal::Syntax {
            offset: tokens.len(),
        }),
    }
}

/// The bracket that closes a term without subterms, and the term.
#[tactic(auto, using(crate::proofs::Depths::leaf_depth))]
pub(crate) fn finish_leaf<'a>(
    alloc: Global,
    leaves: &mut Leaves<'a>,
    tokens: &mut Tokens<'a>,
    leaf: Leaf<'a>,
) -> Result<Tree<'a>, ReadRefusal>
    ensures reads { Reads result tokens.old tokens.new (IEnd ∷ []) (VTerm (leaf_named leaf.entry) ∷ []) (λ t vs. VTerm t ∷ vs) }
{
    match next(tokens)? {
        Some(token) if token.kind == TokenKind::Close => {
            let t = leaves.term(alloc, leaf)?;
            Ok(t)
        }
        Some(token) => Err(ReadRefusal::Syntax {
            offset: token.start,
        }),
        None => Err(ReadRefusal::Syntax {
            offset: tokens.len(),
        }),
    }
}

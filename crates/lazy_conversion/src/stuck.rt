//! Heads that are taken apart: matches that are stuck, and fixpoints.
ghost use Rattle.std.specs.Prelude.{ℕ, ◌≡◌, MatchOption, IfSome};
ghost use Rattle.pc_terms.specs.Syntax.{head};
ghost use Rattle.pc_terms.specs.View.{tree_of};
ghost use Rattle.pc_terms.specs.declared.term.Node.TheVariants.{Case, Fix};
ghost use Rattle.reduce_machine.specs.Layers.{IsShown, IsMatchNode, IsFixNode};
ghost use Rattle.reduce_machine.specs.Reads.{read};
ghost use Rattle.reduce_machine.specs.Seen.{seen_term, IsSeen, IsInner};
ghost use Rattle.lazy_conversion.specs.Stuck.{match_of, defs_of};

use pc_terms::term::{Defs, Match, Node};
use reduce_machine::bindings::{Bindings, Lazy};
use reduce_machine::seen::Seen;
use reduce_machine::spines::Head;

/// A match that is stuck on a value, under its bindings: `outer` is the match, whose variables `env` binds, and `scrut` what its scrutinee came to.
#[derive(Clone, Copy, Drop)]
pub struct Stuck<'a> {
    pub outer: &'a Match,
    pub env: &'a Bindings,
    pub scrut: Seen<'a>,
}

/// The definitions of a fixpoint, under its bindings: `env` binds the variables behind the definitions.
#[derive(Clone, Copy, Drop)]
pub struct Recursive<'a> {
    pub defs: &'a Defs,
    pub env: &'a Bindings,
}

/// The head of a value, where it is a match that is stuck; none exactly where it is another. Takes no memory.
pub fn stuck_match(x: Seen<'_>) -> Option<Stuck<'_>>
    requires { IsSeen x }
    ensures is { MatchOption result (IsMatchNode (head (seen_term x.entry)) → ⊥) (λ s. head (seen_term x.entry) ≡ tree_of (Case (match_of s))) }
    ensures scrut { IfSome result (λ s. IsInner x.entry s.scrut) }
{
    let Head::Match(l) = &x.spine.head else {
        return None;
    };
    let Some(scrut) = x.inner() else {
        return None;
    };
    match l.term.view() {
        Node::Case(outer) => Some(Stuck {
            outer: outer.get(),
            env: &l.env,
            scrut,
        }),
        _ => None,
    }
}

/// The definitions of a term under bindings, where it is a fixpoint.
fn definitions(l: &Lazy) -> Option<Recursive<'_>>
    requires { IsShown l.now }
    ensures is { MatchOption result (IsFixNode (read l.now) → ⊥) (λ f. (i : ℕ) × (read l.now ≡ tree_of (Fix (defs_of f) i))) }
{
    match l.term.view() {
        Node::Fix(defs, _) => Some(Recursive { defs, env: &l.env }),
        _ => None,
    }
}

/// The head of a value, where it is a fixpoint; none exactly where it is another. Takes no memory.
pub fn fixpoint(x: Seen<'_>) -> Option<Recursive<'_>>
    requires { IsSeen x }
    ensures is { MatchOption result (IsFixNode (head (seen_term x.entry)) → ⊥) (λ f. (i : ℕ) × (head (seen_term x.entry) ≡ tree_of (Fix (defs_of f) i))) }
{
    match &x.spine.head {
        Head::Open(l) => definitions(l),
        Head::Match(_) => None,
        Head::Fixpoint(l, _) => definitions(l),
    }
}

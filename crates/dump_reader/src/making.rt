//! Nodes as terms, where they are within the limits of terms.
ghost use Rattle.std.specs.Prelude.{◌≡◌, IfOk, IfErr};
ghost use Rattle.trees.specs.Measures.{IsWithin};
ghost use Rattle.pc_terms.specs.Syntax.{HasIndex};
ghost use Rattle.pc_terms.specs.View.{tree_of};
ghost use Rattle.pc_terms.specs.declared.term.Node.TheVariants.{Case};
ghost use Rattle.dump_grammar.specs.declared.refusal.ReadRefusal.TheVariants.{Memory};

use dump_grammar::ReadRefusal;
use pc_terms::term::{MakeFault, Match, Node, Term};
use std::alloc::Global;

/// The term of a node that is within the limits of terms.
pub(crate) fn made(alloc: Global, node: Node) -> Result<Term, ReadRefusal>
    requires indexed { HasIndex (tree_of node) }
    requires within { IsWithin (tree_of node) }
    ensures ok { IfOk result (λ t. t ≡ tree_of node) }
    ensures only_memory { IfErr result (λ e. e ≡ Memory) }
{
    match Term::make(alloc, node) {
        Ok(term) => Ok(term),
        Err(MakeFault::Memory) => Err(ReadRefusal::Memory),
        Err(MakeFault::TooDeep) => unreachable!(),
    }
}

/// The term of a match that is within the limits of terms.
pub(crate) fn made_match(alloc: Global, whole: Match) -> Result<Term, ReadRefusal>
    requires within { IsWithin (tree_of (Case whole)) }
    ensures ok { IfOk result (λ t. t ≡ tree_of (Case whole)) }
    ensures only_memory { IfErr result (λ e. e ≡ Memory) }
{
    match Term::of_match(alloc, whole) {
        Ok(term) => Ok(term),
        Err(MakeFault::Memory) => Err(ReadRefusal::Memory),
        Err(MakeFault::TooDeep) => unreachable!(),
    }
}

//! Steps that were found, and their results.
ghost use Rattle.std.specs.Prelude.{◌≡◌, IfOk, IfErr};
ghost use Rattle.trees.specs.Measures.{IsBeyond};
ghost use Rattle.pc_terms.specs.declared.term.MakeFault.TheVariants.{TooDeep};
ghost use Rattle.pc_terms.specs.Syntax.{App, apply};
ghost use Rattle.redexes.specs.Redexes.{contractum, fix_body};

use crate::fixpoints::unfolded_body;
use crate::spine::Spine;
use pc_terms::term::{MakeFault, Node, Term};
use std::alloc::Global;

/// A step that was found, by the parts from which its result is made.
#[derive(Drop)]
pub enum Redex {
    /// A variable with a defined entry: the entry's value, and by how much it is lifted.
    Variable {
        value: Term,
        by: u32,
    },
    /// A constant's body.
    Constant(Term),
    /// A body, and what is put in for its variable.
    Bound {
        body: Term,
        value: Term,
    },
    /// A branch's body, and the arguments of the constructor.
    Branch {
        body: Term,
        args: Spine,
    },
    /// A fixpoint, the arguments before its recursive one, and that one.
    Fixpoint {
        fix: Term,
        before: Spine,
        argument: Term,
    },
}

impl Redex {
    /// What the step makes. `TooDeep` only where that is beyond the limits of terms.
    #[tactic(auto, using(trees::proofs::Cutoffs::cutoff_laws))]
    pub fn contract(self, alloc: Global) -> Result<Term, MakeFault>
        ensures ok { IfOk result (λ t. t ≡ contractum self) }
        ensures too_deep { IfErr result (λ e. e ≡ TooDeep → IsBeyond (contractum self)) }
    {
        match self {
            Redex::Variable { value, by } => value.lift(alloc, by, 0),
            Redex::Constant(body) => Ok(body),
            Redex::Bound { body, value } => body.subst(alloc, 0, &value),
            Redex::Branch { body, args } => {
                let args = args.into_terms(alloc)?;
                body.subst_list(alloc, &args)
            }
            Redex::Fixpoint {
                fix,
                before,
                argument,
            } => unfold(alloc, &fix, before, argument),
        }
    }
}

/// A fixpoint with its arguments, unfolded.
fn unfold(alloc: Global, fix: &Term, before: Spine, argument: Term) -> Result<Term, MakeFault>
    ensures ok { IfOk result (λ t. t ≡ App (apply (fix_body fix.now) before) argument) }
    ensures too_deep { IfErr result (λ e. e ≡ TooDeep → IsBeyond (App (apply (fix_body fix.now) before) argument)) }
{
    let body = unfolded_body(alloc, fix)?;
    let function = before.applied(alloc, body)?;
    Term::make(alloc, Node::App(function, argument))
}

//! Steps that were found.
ghost use Rattle.std.specs.Prelude.{◌≡◌, ◌⊎◌, ◌∷◌, IfOk, IfErr};
ghost use Rattle.trees.specs.Measures.{IsBeyond};
ghost use Rattle.pc_terms.specs.declared.term.MakeFault.TheVariants.{TooDeep, Memory};
ghost use Rattle.redexes.specs.Redexes.{fix_body};
ghost use Rattle.reduce_machine.specs.Layers.{IsFixNode};
ghost use Rattle.reduce_machine.specs.Reads.{read};

use crate::bindings::{Bindings, Lazy};
use pc_terms::term::{MakeFault, Node, Term};
use redexes::fixpoints::unfolded_body;
use redexes::lookup::definition_at;
use std::alloc::Global;

/// A step that was found, by the parts from which its result is made.
#[derive(Drop)]
pub(crate) enum Step {
    /// A variable with a defined entry: the entry's value, and by how much it is lifted.
    Variable {
        value: Term,
        by: u32,
    },
    /// A constant's body.
    Constant(Term),
    /// A body under bindings, and what its variable is bound to.
    Bound {
        body: Term,
        env: Bindings,
        value: Lazy,
    },
    /// A branch's body under bindings, and what the constructor is applied to, of which the first `params` are parameters.
    Branch {
        body: Term,
        env: Bindings,
        args: Vec<Lazy>,
        params: usize,
    },
    /// A fixpoint; the arguments before its recursive one, and that one.
    Fixpoint {
        fix: Lazy,
        before: Vec<Lazy>,
        argument: Lazy,
    },
}

/// The body of a fixpoint with the fixpoints put in for its definitions: of a single one by a binding.
pub(crate) fn unfolded(alloc: Global, fix: &Lazy) -> Result<Lazy, MakeFault>
    requires { IsFixNode fix.now.term }
    ensures ok { IfOk result (λ l. read l ≡ fix_body (read fix.now)) }
    ensures too_deep { IfErr result (λ e. e ≡ TooDeep → IsBeyond (read fix.now) ⊎ IsBeyond (fix_body (read fix.now))) }
{
    if let Node::Fix(defs, i) = fix.term.view() {
        if defs.len() == 1 {
            if let Some(def) = definition_at(defs, *i) {
                return bound(alloc, fix, &def.body);
            }
        }
    }
    substituted(alloc, fix)
}

/// A body whose innermost variable is bound to the fixpoint.
fn bound(alloc: Global, fix: &Lazy, body: &Term) -> Result<Lazy, MakeFault>
    ensures term { IfOk result (λ l. l.term ≡ body.now) }
    ensures items { IfOk result (λ l. l.env.items ≡ read fix.now ∷ fix.now.env.items) }
    ensures only_memory { IfErr result (λ e. e ≡ Memory) }
{
    let term = body.share()?;
    let outer = fix.env.share()?;
    let itself = fix.share()?;
    let env = outer.with(alloc, itself)?;
    Ok(Lazy { term, env })
}

/// The body of the fixpoint that is read.
fn substituted(alloc: Global, fix: &Lazy) -> Result<Lazy, MakeFault>
    ensures ok { IfOk result (λ l. read l ≡ fix_body (read fix.now)) }
    ensures too_deep { IfErr result (λ e. e ≡ TooDeep → IsBeyond (read fix.now) ⊎ IsBeyond (fix_body (read fix.now))) }
{
    let term = fix.read(alloc)?;
    let body = unfolded_body(alloc, &term)?;
    Ok(Lazy::plain(body))
}

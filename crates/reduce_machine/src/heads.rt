//! Steps of variables, constants and definitions.
ghost use Rattle.std.specs.Prelude.{◌≡◌, IfOk, IfErr, MatchOption, Some, None};
ghost use Rattle.pc_terms.specs.declared.term.MakeFault.TheVariants.{Memory};
ghost use Rattle.calculus_rules.specs.Context.{values, value_at};
ghost use Rattle.pc_rules.specs.DirectedWeakHead.{weak_next};
ghost use Rattle.calculus_rules.specs.Lookups.{kept_at, body_of};
ghost use Rattle.reduce_machine.specs.Layers.{IsOpen};
ghost use Rattle.reduce_machine.specs.Reads.{read};
ghost use Rattle.reduce_machine.specs.Steps.{contractum, IsPlainStep};

use crate::bindings::{Found, Lazy};
use crate::steps::Step;
use calculus_rules::declaration::Kept;
use calculus_rules::entry::Entry;
use pc_rules::context::Ctx;
use pc_rules::environment::Env;
use pc_terms::leaf::Name;
use pc_terms::term::{MakeFault, Node};

/// The step of a variable; none where its entry is not defined.
fn variable(ctx: &Ctx, i: u32) -> Result<Option<Step>, MakeFault>
    ensures ok { IfOk result (λ o. MatchOption o (value_at (values ctx.now) i ≡ None) (λ s. value_at (values ctx.now) i ≡ Some (contractum s))) }
    ensures plain { IfOk result (λ o. MatchOption o (Unit {0}) IsPlainStep) }
    ensures only_memory { IfErr result (λ e. e ≡ Memory) }
{
    if i >= ctx.len() {
        return Ok(None);
    }
    match ctx.entry(i) {
        Some(Entry::Defined { value, .. }) => {
            let value = value.share()?;
            Ok(Some(Step::Variable { value, by: i + 1 }))
        }
        Some(Entry::Assumed(_)) => Ok(None),
        None => Ok(None),
    }
}

/// The step of a constant; none where it has no body.
fn constant(env: &Env, name: Name) -> Result<Option<Step>, MakeFault>
    ensures ok { IfOk result (λ o. MatchOption o (body_of (kept_at env.now.declarations name) ≡ None) (λ s. body_of (kept_at env.now.declarations name) ≡ Some (contractum s))) }
    ensures plain { IfOk result (λ o. MatchOption o (Unit {0}) IsPlainStep) }
    ensures only_memory { IfErr result (λ e. e ≡ Memory) }
{
    match env.find(name) {
        Some(
            Kept::Constant {
                body: Some(body),
                ..
            },
        ) => {
            let body = body.share()?;
            Ok(Some(Step::Constant(body)))
        }
        _ => Ok(None),
    }
}

/// The step of a term that is no application, no match and no bound variable; none where it has no step.
pub(crate) fn head_step(env: &Env, ctx: &Ctx, t: &Lazy) -> Result<Option<Step>, MakeFault>
    requires { IsOpen t.now }
    ensures ok { IfOk result (λ o. MatchOption o (weak_next env.now (values ctx.now) (read t.now) ≡ None) (λ s. weak_next env.now (values ctx.now) (read t.now) ≡ Some (contractum s))) }
    ensures plain { IfOk result (λ o. MatchOption o (Unit {0}) IsPlainStep) }
    ensures only_memory { IfErr result (λ e. e ≡ Memory) }
{
    match t.term.view() {
        Node::Rel(i) => match t.env.find(*i) {
            Found::Past(j) => variable(ctx, j),
            Found::Item(_, _) => unreachable!(),
        },
        Node::Const(name) => constant(env, *name),
        Node::LetIn(value, _, body) => {
            let value = Lazy::part(value, &t.env)?;
            let body = body.share()?;
            let env = t.env.share()?;
            Ok(Some(Step::Bound { body, env, value }))
        }
        _ => Ok(None),
    }
}

//! Values that are applied to values.
ghost use Rattle.std.specs.Prelude.{◌≡◌, ℕ, IfOk, IfErr, IsTrue, MatchOption, Some, None, slice_get};
ghost use Rattle.trees.specs.Measures.{IsBeyond};
ghost use Rattle.pc_terms.specs.declared.term.MakeFault.TheVariants.{TooDeep};
ghost use Rattle.pc_terms.specs.Syntax.{App};
ghost use Rattle.pc_terms.specs.Lists.{rargs_of};
ghost use Rattle.calculus_rules.specs.Lookups.{family_of};
ghost use Rattle.pc_rules.specs.DirectedEvaluation.{lacks_arguments, is_below, takes_more, unfolding_at, applied, evaluation};
ghost use Rattle.redexes.specs.Redexes.{contractum};
ghost use Rattle.source_eval.specs.Waiting.{Comes, Passes, applied_other};

use crate::found::Found;
use crate::frames::Since;
use pc_rules::environment::Env;
use pc_terms::leaf::FamilyId;
use pc_terms::term::{Defs, MakeFault, Node, Term};
use redexes::lookup::{constructor_at, definition_at, family_at};
use redexes::redexes::Redex;
use redexes::spine::Spine;
use std::alloc::Global;

/// Whether a constructor with so many parameters and arguments has some missing.
fn lacks(env: &Env, id: FamilyId, number: u32, count: usize) -> bool
    ensures is { result ≡ lacks_arguments count number (family_of env.now id) }
{
    let Some(block) = env.whole_block(id.block) else {
        return false;
    };
    let Some(family) = family_at(block, id.family) else {
        return false;
    };
    let Some(ctor) = constructor_at(family, number) else {
        return false;
    };
    let params = block.params.len();
    if count < params {
        return true;
    }
    let given = count - params;
    let wanted = ctor.args.len();
    given < wanted
}

/// Whether a fixpoint with so many arguments has fewer than are before its recursive one.
fn waits(defs: &Defs, i: u32, count: usize) -> bool
    ensures is { result ≡ is_below count (slice_get (rargs_of defs.now) i) }
{
    match definition_at(defs, i) {
        Some(def) => {
            let place = def.rarg as usize;
            count < place
        }
        None => false,
    }
}

/// Whether a value with such a head and so many arguments is extended by one more.
fn is_extended(env: &Env, head: &Term, count: usize) -> bool
    ensures is { result ≡ takes_more env.now head.now count }
{
    match head.view() {
        Node::Ind(_) => true,
        Node::Construct(id, number) => lacks(env, *id, *number, count),
        Node::Fix(defs, i) => waits(defs, *i, count),
        _ => false,
    }
}

/// The step of a fixpoint that has the arguments before its recursive one, and that one; none where the head is no such fixpoint.
fn unfolding(head: Term, before: Spine, argument: Term) -> Option<Redex>
    ensures is { MatchOption result (unfolding_at head before argument ≡ None) (λ r. unfolding_at head before argument ≡ Some (contractum r)) }
{
    let Node::Fix(defs, i) = head.view() else {
        return None;
    };
    let Some(def) = definition_at(defs, *i) else {
        return None;
    };
    let place = def.rarg as usize;
    if before.len() != place {
        return None;
    }
    Some(Redex::Fixpoint {
        fix: head,
        before,
        argument,
    })
}

/// Whether an application is that of this function to this argument. It takes no memory, and no walk where they are the nodes that it has.
fn is_of(application: &Term, function: &Term, argument: &Term) -> bool
    ensures is { IsTrue result → application.now ≡ App function.now argument.now }
{
    match application.view() {
        Node::App(f, a) => f.same(function) && a.same(argument),
        _ => false,
    }
}

/// A value that takes more, with one argument more. It is the application itself where only parts of that were entered since: so a value that
/// is evaluated again is not made again. `TooDeep` only where it is beyond the limits of terms.
fn extend(
    alloc: Global,
    application: Term,
    function: Term,
    value: Term,
    since: Since,
) -> Result<Term, MakeFault>
    ensures ok { IfOk result (λ t. t ≡ App function value) }
    ensures too_deep { IfErr result (λ e. e ≡ TooDeep → IsBeyond (App function value)) }
{
    let whole = match since {
        Since::Parts => is_of(&application, &function, &value),
        // The comparison might walk over both for nothing.
        Since::Contracta => false,
    };
    if whole {
        return Ok(application);
    }
    Term::make(alloc, Node::App(function, value))
}

/// What comes of an application whose function's value is no lambda.
fn apply_other(
    alloc: Global,
    env: &Env,
    application: Term,
    function: Term,
    value: Term,
    since: Since,
) -> Result<Found, MakeFault>
    ensures ok { IfOk result (Comes env.now (λ u. applied_other env.now (evaluation env.now) application function value u)) }
    ensures too_deep { IfErr result (λ e. e ≡ TooDeep → Passes (λ u. applied_other env.now (evaluation env.now) application function value u)) }
{
    let (head, spine) = Spine::of(alloc, &function)?;
    let count = spine.len();
    let more = is_extended(env, &head, count);
    if more {
        let extended = extend(alloc, application, function, value, since)?;
        return Ok(Found::Value(extended));
    }
    let Some(redex) = unfolding(head, spine, value) else {
        return Ok(Found::Stuck(application));
    };
    let contractum = redex.contract(alloc)?;
    Ok(Found::Enter(contractum))
}

/// What comes of an application, whose function and argument have these values.
pub(crate) fn apply(
    alloc: Global,
    env: &Env,
    application: Term,
    function: Term,
    value: Term,
    since: Since,
) -> Result<Found, MakeFault>
    ensures ok { IfOk result (Comes env.now (λ u. applied env.now (evaluation env.now) application function value u)) }
    ensures too_deep { IfErr result (λ e. e ≡ TooDeep → Passes (λ u. applied env.now (evaluation env.now) application function value u)) }
{
    if let Node::Lambda(_, body) = function.view() {
        let body = body.share()?;
        let contractum = Redex::Bound { body, value }.contract(alloc)?;
        return Ok(Found::Enter(contractum));
    }
    apply_other(alloc, env, application, function, value, since)
}

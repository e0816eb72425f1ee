//! The test of erasable terms.
ghost use Rattle.std.specs.Prelude.{◌≡◌, ◌-◌, Some, IfOk};
ghost use Rattle.pc_terms.specs.View.{tree_of};
ghost use Rattle.pc_terms.specs.declared.term.Node.TheVariants.{Case};
ghost use Rattle.pc_rules.specs.Entailment.{test_of};
ghost use Rattle.pc_rules.specs.Follows.{Follows};
ghost use Rattle.pc_rules.specs.DirectedTyping.{infer};
ghost use Rattle.calculus_rules.specs.Lookups.{family_of};
ghost use Rattle.pc_rules.specs.DirectedErasable.{type_test, match_test, erasable_test};
ghost use Rattle.pc_rules.specs.WellCounted.{IsCounted, IsCountedContext, IsCountedEnv};
ghost use Rattle.pc_rules.specs.DirectedRun.{most_nested};
ghost use Rattle.known_types.specs.Located.{IsOf};
ghost use Rattle.rule_laws.specs.Erasability.{HasEvidence};
ghost use Rattle.calculus_rules.specs.declared.evidence.Evidence.{Evidence};

use crate::anywhere::Anywhere;
use crate::endings::ends_in_sort;
use crate::families::{is_prop, is_prop_constructor};
use calculus_rules::evidence::Evidence;
use instances::contexts::extended;
use instances::instances::predicates::predicate_entries;
use instances::kept::kept_family;
use known_types::site::Site;
use known_types::sited::Sited;
use known_types::typer::SiteTyper;
use pc_rules::context::Ctx;
use pc_rules::environment::Env;
use pc_rules::meter::Meter;
use pc_rules::reducer::Reducer;
use pc_rules::stop::Halt;
use pc_rules::typer::Typer;
use pc_terms::term::{Match, Node, Term};
use std::alloc::Global;

/// The test by the term's type: the type ends in a sort, or is in `Prop`.
fn type_test<T: SiteTyper, R: Reducer>(
    alloc: Global,
    typer: &T,
    reducer: &R,
    env: &Env,
    ctx: &Ctx,
    site: &Site<'_>,
    t: &Term,
    m: &mut Meter,
) -> Result<Option<Evidence>, Halt>
    requires env { IsCountedEnv env.now }
    requires ctx { IsCountedContext env.now ctx.now }
    requires site { IsOf site.now env.now ctx.now }
    ensures follows { Follows (type_test env.now (infer env.now (test_of env.now) (most_nested - m.old.nest)) ctx.now t.now m.old.account) result m.old m.new }
{
    let ty = typer.infer_in(alloc, env, ctx, site, t, m)?;
    let is_arity = ends_in_sort(alloc, reducer, env, ctx, &ty, m)?;
    if is_arity {
        return Ok(Some(Evidence::Arity));
    }
    let sort = typer.sort_in(alloc, env, ctx, site, &ty, m)?;
    if is_prop(&sort) {
        return Ok(Some(Evidence::Proof));
    }
    Ok(None)
}

/// The test of a match: its predicate is in `Prop`, or else by its type.
fn match_test<T: SiteTyper, R: Reducer>(
    alloc: Global,
    typer: &T,
    reducer: &R,
    env: &Env,
    ctx: &Ctx,
    site: &Site<'_>,
    t: &Term,
    x: &Match,
    m: &mut Meter,
) -> Result<Option<Evidence>, Halt>
    requires env { IsCountedEnv env.now }
    requires ctx { IsCountedContext env.now ctx.now }
    requires site { IsOf site.now env.now ctx.now }
    requires same { t.now ≡ tree_of (Case x.now) }
    requires counted { IsCounted env.now t.now }
    ensures follows { Follows (match_test env.now (infer env.now (test_of env.now) (most_nested - m.old.nest)) ctx.now t.now x.now.family x.now.params x.now.ret (family_of env.now x.now.family) m.old.account) result m.old m.new }
{
    let Some(family) = kept_family(env, x.family) else {
        return type_test(alloc, typer, reducer, env, ctx, site, t, m);
    };
    let entries = predicate_entries(alloc, x.family, family, &x.params)?;
    let inner = extended(alloc, ctx, &entries)?;
    let within = site.deeper(alloc, env, ctx, &inner);
    let sort = typer.sort_in(alloc, env, &inner, &within, &x.ret, m)?;
    if is_prop(&sort) {
        return Ok(Some(Evidence::PropMatch));
    }
    type_test(alloc, typer, reducer, env, ctx, site, t, m)
}

/// The test by the term's former.
fn former_test<T: SiteTyper, R: Reducer>(
    alloc: Global,
    typer: &T,
    reducer: &R,
    env: &Env,
    ctx: &Ctx,
    site: &Site<'_>,
    t: &Term,
    m: &mut Meter,
) -> Result<Option<Evidence>, Halt>
    requires env { IsCountedEnv env.now }
    requires ctx { IsCountedContext env.now ctx.now }
    requires site { IsOf site.now env.now ctx.now }
    requires counted { IsCounted env.now t.now }
    ensures follows { Follows (erasable_test env.now (infer env.now (test_of env.now) (most_nested - m.old.nest)) ctx.now t.now m.old.account) result m.old m.new }
{
    match t.view() {
        Node::Construct(id, number) => {
            if is_prop_constructor(env, *id, *number) {
                return Ok(Some(Evidence::PropConstructor));
            }
            type_test(alloc, typer, reducer, env, ctx, site, t, m)
        }
        Node::Case(x) => match_test(alloc, typer, reducer, env, ctx, site, t, x.get(), m),
        _ => type_test(alloc, typer, reducer, env, ctx, site, t, m),
    }
}

/// The same as `test`, at a site of the environment and the context: what was inferred there before may be taken again.
pub fn test_in<T: SiteTyper, R: Reducer>(
    alloc: Global,
    typer: &T,
    reducer: &R,
    env: &Env,
    ctx: &Ctx,
    site: &Site<'_>,
    t: &Term,
    m: &mut Meter,
) -> Result<Option<Evidence>, Halt>
    requires env { IsCountedEnv env.now }
    requires ctx { IsCountedContext env.now ctx.now }
    requires site { IsOf site.now env.now ctx.now }
    requires counted { IsCounted env.now t.now }
    ensures follows { Follows (erasable_test env.now (infer env.now (test_of env.now) (most_nested - m.old.nest)) ctx.now t.now m.old.account) result m.old m.new }
    ensures evidence { IfOk result (λ o. (e : Evidence) → o ≡ Some e → HasEvidence env.now ctx.now t.now e) }
{
    // A graph is there only where its constraints are consistent.
    let _ = env.graph();
    former_test(alloc, typer, reducer, env, ctx, site, t, m)
}

/// The first of the four kinds of evidence that there is that a well-counted term is erasable, in the order of the directed rules: it is a
/// constructor of a family in `Prop`; a match whose predicate is in `Prop`; its type ends in a sort; its type is in `Prop`. None where they
/// find none of these.
pub fn test<T: Typer, R: Reducer>(
    alloc: Global,
    typer: &T,
    reducer: &R,
    env: &Env,
    ctx: &Ctx,
    t: &Term,
    m: &mut Meter,
) -> Result<Option<Evidence>, Halt>
    requires env { IsCountedEnv env.now }
    requires ctx { IsCountedContext env.now ctx.now }
    requires counted { IsCounted env.now t.now }
    ensures follows { Follows (erasable_test env.now (infer env.now (test_of env.now) (most_nested - m.old.nest)) ctx.now t.now m.old.account) result m.old m.new }
    ensures evidence { IfOk result (λ o. (e : Evidence) → o ≡ Some e → HasEvidence env.now ctx.now t.now e) }
{
    test_in(
        alloc,
        &Anywhere::of(typer),
        reducer,
        env,
        ctx,
        &Site::none(),
        t,
        m,
    )
}

//! The arguments of a constructor.
ghost use Rattle.std.specs.Prelude.{◌≡◌, ◌+◌, IfOk};
ghost use Rattle.universe_levels.specs.Consistency.{IsSortOver, AreOver};
ghost use Rattle.pc_rules.specs.declared.meter.Account.{Account};
ghost use Rattle.calculus_rules.specs.Context.{extend};
ghost use Rattle.pc_rules.specs.DirectedDeclarations.{fits_sort, positive_rule};
ghost use Rattle.pc_rules.specs.Entailment.{test_of};
ghost use Rattle.pc_rules.specs.Follows.{Follows, Answers};
ghost use Rattle.pc_rules.specs.WellCounted.{IsCounted, AreCounted, IsCountedContext, IsCountedEnv};
ghost use Rattle.pc_rules.specs.DirectedRun.{most_nested};
ghost use Rattle.inductive_check.specs.Arguments.{argument_within, arguments_within};

use crate::listing::push;
use crate::positivity::is_positive;
use crate::setting::BlockSetting;
use crate::telescope::assume;
use crate::types::sort_of;
use calculus_rules::declaration::Sorts;
use pc_rules::broken::{BoxedSort, Broken};
use pc_rules::context::Ctx;
use pc_rules::environment::Env;
use pc_rules::meter::Meter;
use pc_rules::stop::Halt;
use pc_rules::typer::Typer;
use pc_terms::leaf::Name;
use pc_terms::lists::Telescope;
use pc_terms::term::Term;
use std::alloc::Global;
use universe_levels::sort::Sort;

/// Where a constructor stands in its block: the places of its family and of itself, from 0.
#[derive(Clone, Copy)]
pub struct CtorPlace {
    pub family: u32,
    pub ctor: u32,
}

/// Whether an argument of a sort may stand in a family of a sort: in any in `Prop`, and else in one whose sort is not less.
/// `SortTooSmall`, and else only `Memory`.
pub fn fits_sort(alloc: Global, env: &Env, argument: &Sort, family: &Sort) -> Result<(), Halt>
    requires over { AreOver env.now.levels env.now.constraints }
    requires argument { IsSortOver env.now.levels argument.now }
    requires family { IsSortOver env.now.levels family.now }
    ensures answers { (u : Account) → Answers (fits_sort (test_of env.now) family.now argument.now u) result u }
{
    let Sort::Of(_) = family else {
        return Ok(());
    };
    if env.entails(argument, family) {
        return Ok(());
    }
    let argument = BoxedSort::new(alloc, argument.share(alloc)?)?;
    let family = BoxedSort::new(alloc, family.share(alloc)?)?;
    Err(Halt::Broken(Broken::SortTooSmall { argument, family }))
}

/// Whether a type is strictly positive in the block. `NotPositive` with the constructor's place.
pub fn positive_at(
    alloc: Global,
    env: &Env,
    block: Name,
    at: CtorPlace,
    ty: &Term,
    m: &mut Meter,
) -> Result<(), Halt>
    ensures follows { Follows (positive_rule env.now block at.family at.ctor ty.now m.old.account) result m.old m.new }
{
    if is_positive(alloc, env, block, ty, m)? {
        return Ok(());
    }
    let CtorPlace { family, ctor } = at;
    Err(Halt::Broken(Broken::NotPositive { family, ctor }))
}

/// The sort of an argument of a constructor of the block, which stands at a place in it and whose family has a sort: the refusals of
/// `Typer::sort_of`, then `SortTooSmall`, then `NotPositive`.
fn argument<T: Typer>(
    alloc: Global,
    setting: &BlockSetting<'_, T>,
    ctx: &Ctx,
    at: CtorPlace,
    family: &Sort,
    ty: &Term,
    m: &mut Meter,
) -> Result<Sort, Halt>
    requires nest { setting.now.room + m.old.nest ≡ most_nested }
    requires env { IsCountedEnv setting.now.env.now }
    requires ctx { IsCountedContext setting.now.env.now ctx.now }
    requires family { IsSortOver setting.now.env.now.levels family.now }
    ensures follows { Follows (argument_within setting.now.env.now setting.now.room setting.now.block at.family at.ctor family.now ctx.now ty.now m.old.account) result m.old m.new }
    ensures counted { IfOk result (λ _. IsCounted setting.now.env.now ty.now) }
{
    let sort = sort_of(alloc, setting.typer, setting.env, setting.room, ctx, ty, m)?;
    fits_sort(alloc, setting.env, &sort, family)?;
    positive_at(alloc, setting.env, setting.block, at, ty, m)?;
    Ok(sort)
}

/// The sorts of the arguments of a constructor, each in turn with the refusals of `argument`, and puts each into the context.
pub(crate) fn arguments<T: Typer>(
    alloc: Global,
    setting: &BlockSetting<'_, T>,
    ctx: &mut Ctx,
    at: CtorPlace,
    family: &Sort,
    args: &Telescope,
    m: &mut Meter,
) -> Result<Sorts, Halt>
    requires nest { setting.now.room + m.old.nest ≡ most_nested }
    requires env { IsCountedEnv setting.now.env.now }
    requires ctx { IsCountedContext setting.now.env.now ctx.old }
    requires family { IsSortOver setting.now.env.now.levels family.now }
    ensures follows { Follows (arguments_within setting.now.env.now setting.now.room setting.now.block at.family at.ctor family.now ctx.old args.now m.old.account) result m.old m.new }
    ensures longer { IfOk result (λ _. ctx.new ≡ extend ctx.old args.now) }
    ensures counted { IfOk result (λ _. AreCounted setting.now.env.now args.now) }
    ensures context { IfOk result (λ _. IsCountedContext setting.now.env.now ctx.new) }
{
    let mut sorts = Vec::new(alloc);
    for ty in args.as_slice() {
        let sort = argument(alloc, setting, ctx, at, family, ty, m)?;
        push(&mut sorts, sort)?;
        assume(alloc, ctx, ty)?;
    }
    Ok(Sorts::of(sorts))
}

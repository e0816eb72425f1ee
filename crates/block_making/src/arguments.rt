//! The arguments of a constructor.
ghost use Rattle.std.specs.Prelude.{◌≡◌, ◌+◌, IfOk};
ghost use Rattle.universe_levels.specs.Consistency.{IsSortOver};
ghost use Rattle.calculus_rules.specs.Context.{extend};
ghost use Rattle.pc_rules.specs.WellCounted.{IsCounted};
ghost use Rattle.pc_rules.specs.DirectedRun.{most_nested};
ghost use Rattle.type_infer.specs.Ready.{IsReady};
ghost use Rattle.script_making.specs.Makes.{Makes};
ghost use Rattle.block_making.specs.BlockMaking.{argument_making, arguments_making};

use crate::sorts::sort_of;
use calculus_rules::declaration::Sorts;
use inductive_check::arguments::{CtorPlace, fits_sort, positive_at};
use inductive_check::listing::push;
use inductive_check::telescope::assume;
use pc_rules::context::Ctx;
use pc_rules::guarder::Guarder;
use pc_rules::reducer::Reducer;
use pc_rules::stop::Halt;
use pc_terms::leaf::Name;
use pc_terms::lists::Telescope;
use pc_terms::term::Term;
use script_making::draft::Draft;
use std::alloc::Global;
use type_making::typing::TypeMaker;
use universe_levels::sort::Sort;

/// The sort of an argument of a constructor of the block, which stands at a place in it and whose family has a sort: the refusals of
/// `TypeMaker::sort_of`, then `SortTooSmall`, then `NotPositive`.
fn argument<R: Reducer, G: Guarder>(
    alloc: Global,
    typer: &TypeMaker<'_, R, G>,
    ctx: &Ctx,
    block: Name,
    at: CtorPlace,
    family: &Sort,
    ty: &Term,
    draft: &mut Draft,
) -> Result<Sort, Halt>
    requires nest { typer.now.maker.room + draft.old.meter.nest ≡ most_nested }
    requires ready { IsReady typer.now.maker.env.now ctx.now }
    requires family { IsSortOver typer.now.maker.env.now.levels family.now }
    ensures makes { Makes (argument_making typer.now.maker.env.now typer.now.maker.room block at.family at.ctor family.now ctx.now ty.now draft.old.meter.account) result draft.old draft.new }
    ensures counted { IfOk result (λ _. IsCounted typer.now.maker.env.now ty.now) }
{
    let env = typer.maker.env;
    let sort = sort_of(alloc, typer, ctx, ty, draft)?;
    fits_sort(alloc, env, &sort, family)?;
    positive_at(alloc, env, block, at, ty, &mut draft.meter)?;
    Ok(sort)
}

/// The sorts of the arguments of a constructor, each under those before it and with the refusals of `argument`. Puts them into the context.
pub(crate) fn arguments<R: Reducer, G: Guarder>(
    alloc: Global,
    typer: &TypeMaker<'_, R, G>,
    ctx: &mut Ctx,
    block: Name,
    at: CtorPlace,
    family: &Sort,
    args: &Telescope,
    draft: &mut Draft,
) -> Result<Sorts, Halt>
    requires nest { typer.now.maker.room + draft.old.meter.nest ≡ most_nested }
    requires ready { IsReady typer.now.maker.env.now ctx.old }
    requires family { IsSortOver typer.now.maker.env.now.levels family.now }
    ensures makes { Makes (arguments_making typer.now.maker.env.now typer.now.maker.room block at.family at.ctor family.now ctx.old args.now draft.old.meter.account) result draft.old draft.new }
    ensures longer { IfOk result (λ _. ctx.new ≡ extend ctx.old args.now) }
    ensures ready { IfOk result (λ _. IsReady typer.now.maker.env.now ctx.new) }
{
    let mut sorts = Vec::new(alloc);
    let items = args.as_slice();
    for i in 0..items.len() {
        let ty = &items[i];
        let sort = argument(alloc, typer, ctx, block, at, family, ty, draft)?;
        push(&mut sorts, sort)?;
        assume(alloc, ctx, ty)?;
    }
    Ok(Sorts::of(sorts))
}

//! The arguments of a constructor.
ghost use Rattle.std.specs.Prelude.{◌≡◌, ◌+◌, IfOk};
ghost use Rattle.universe_levels.specs.Consistency.{IsSortOver};
ghost use Rattle.calculus_rules.specs.Context.{extend};
ghost use Rattle.pc_rules.specs.WellCounted.{IsCounted, AreCounted};
ghost use Rattle.pc_rules.specs.DirectedRun.{most_nested};
ghost use Rattle.type_infer.specs.Ready.{IsReady};
ghost use Rattle.type_cert.specs.Retraces.{Retraces, stand};
ghost use Rattle.block_cert.specs.BlockWalks.{argument_walk, arguments_walk};

use crate::sorts::sort_of;
use calculus_rules::declaration::Sorts;
use inductive_check::arguments::fits_sort;
use inductive_check::listing::push;
use inductive_check::telescope::assume;
use pc_rules::context::Ctx;
use pc_rules::guarder::Guarder;
use pc_terms::lists::Telescope;
use pc_terms::term::Term;
use std::alloc::Global;
use type_cert::halt::{WalkHalt, at_item};
use type_cert::trail::Trail;
use type_cert::typing::TypeWalk;
use universe_levels::sort::Sort;

/// The sort of an argument of a constructor whose family has a sort: it is at most that, unless the family's is `Prop`.
fn argument<G: Guarder>(
    alloc: Global,
    walk: &TypeWalk<'_, G>,
    ctx: &Ctx,
    family: &Sort,
    ty: &Term,
    trail: &mut Trail,
) -> Result<Sort, WalkHalt>
    requires nest { walk.now.verifier.room + trail.old.meter.nest ≡ most_nested }
    requires ready { IsReady walk.now.verifier.env.now ctx.now }
    requires family { IsSortOver walk.now.verifier.env.now.levels family.now }
    ensures retraces { Retraces (argument_walk walk.now.verifier family.now ctx.now ty.now (stand trail.old)) result trail.old trail.new }
    ensures counted { IfOk result (λ _. IsCounted walk.now.verifier.env.now ty.now) }
{
    let sort = sort_of(alloc, walk, ctx, ty, trail)?;
    at_item(trail.at, fits_sort(alloc, walk.verifier.env, &sort, family))?;
    Ok(sort)
}

/// The sorts of the arguments of a constructor, each under those before it. Puts them into the context.
pub(crate) fn arguments<G: Guarder>(
    alloc: Global,
    walk: &TypeWalk<'_, G>,
    ctx: &mut Ctx,
    family: &Sort,
    args: &Telescope,
    trail: &mut Trail,
) -> Result<Sorts, WalkHalt>
    requires nest { walk.now.verifier.room + trail.old.meter.nest ≡ most_nested }
    requires ready { IsReady walk.now.verifier.env.now ctx.old }
    requires family { IsSortOver walk.now.verifier.env.now.levels family.now }
    ensures retraces { Retraces (arguments_walk walk.now.verifier family.now ctx.old args.now (stand trail.old)) result trail.old trail.new }
    ensures longer { IfOk result (λ _. ctx.new ≡ extend ctx.old args.now) }
    ensures ready { IfOk result (λ _. IsReady walk.now.verifier.env.now ctx.new) }
    ensures counted { IfOk result (λ _. AreCounted walk.now.verifier.env.now args.now) }
{
    let mut sorts = Vec::new(alloc);
    let items = args.as_slice();
    for i in 0..items.len() {
        let ty = &items[i];
        let sort = argument(alloc, walk, ctx, family, ty, trail)?;
        push(&mut sorts, sort)?;
        assume(alloc, ctx, ty)?;
    }
    Ok(Sorts::of(sorts))
}

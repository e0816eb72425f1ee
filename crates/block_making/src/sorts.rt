//! The sorts of terms.
ghost use Rattle.std.specs.Prelude.{◌≡◌, ◌+◌, IfOk};
ghost use Rattle.universe_levels.specs.Consistency.{IsSortOver};
ghost use Rattle.pc_rules.specs.WellCounted.{IsCounted};
ghost use Rattle.pc_rules.specs.DirectedRun.{most_nested};
ghost use Rattle.type_infer.specs.Ready.{IsReady};
ghost use Rattle.script_making.specs.Makes.{Makes};
ghost use Rattle.type_making.specs.Making.{sort_making};

use pc_rules::context::Ctx;
use pc_rules::guarder::Guarder;
use pc_rules::reducer::Reducer;
use pc_rules::stop::Halt;
use pc_terms::term::Term;
use script_making::draft::Draft;
use std::alloc::Global;
use type_making::typing::TypeMaker;
use universe_levels::sort::Sort;

/// The sort of a term, as inference makes it: it speaks of declared levels alone.
pub(crate) fn sort_of<R: Reducer, G: Guarder>(
    alloc: Global,
    typer: &TypeMaker<'_, R, G>,
    ctx: &Ctx,
    t: &Term,
    draft: &mut Draft,
) -> Result<Sort, Halt>
    requires nest { typer.now.maker.room + draft.old.meter.nest ≡ most_nested }
    requires ready { IsReady typer.now.maker.env.now ctx.now }
    ensures makes { Makes (sort_making typer.now.maker.env.now typer.now.maker.room ctx.now t.now draft.old.meter.account) result draft.old draft.new }
    ensures counted { IfOk result (λ _. IsCounted typer.now.maker.env.now t.now) }
    ensures over { IfOk result (λ s. IsSortOver typer.now.maker.env.now.levels s) }
{
    // A term has the form of terms in memory.
    let _ = t.view();
    typer.sort_of(alloc, ctx, t, draft)
}

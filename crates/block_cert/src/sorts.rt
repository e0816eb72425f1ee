//! The sorts of terms.
ghost use Rattle.std.specs.Prelude.{◌≡◌, ◌+◌, IfOk};
ghost use Rattle.universe_levels.specs.Consistency.{IsSortOver};
ghost use Rattle.pc_rules.specs.WellCounted.{IsCounted};
ghost use Rattle.pc_rules.specs.DirectedRun.{most_nested};
ghost use Rattle.type_infer.specs.Ready.{IsReady};
ghost use Rattle.type_cert.specs.Retraces.{Retraces, stand};
ghost use Rattle.type_cert.specs.Going.{sorting};

use pc_rules::context::Ctx;
use pc_rules::guarder::Guarder;
use pc_terms::term::Term;
use std::alloc::Global;
use type_cert::halt::WalkHalt;
use type_cert::trail::Trail;
use type_cert::typing::TypeWalk;
use universe_levels::sort::Sort;

/// The sort of a term, as the walk of typing comes to it: it speaks of declared levels alone.
pub(crate) fn sort_of<G: Guarder>(
    alloc: Global,
    walk: &TypeWalk<'_, G>,
    ctx: &Ctx,
    t: &Term,
    trail: &mut Trail,
) -> Result<Sort, WalkHalt>
    requires nest { walk.now.verifier.room + trail.old.meter.nest ≡ most_nested }
    requires ready { IsReady walk.now.verifier.env.now ctx.now }
    ensures retraces { Retraces (sorting walk.now.verifier ctx.now t.now (stand trail.old)) result trail.old trail.new }
    ensures counted { IfOk result (λ _. IsCounted walk.now.verifier.env.now t.now) }
    ensures over { IfOk result (λ s. IsSortOver walk.now.verifier.env.now.levels s) }
{
    // A term has the form of terms in memory.
    let _ = t.view();
    walk.sort_of(alloc, ctx, t, trail)
}

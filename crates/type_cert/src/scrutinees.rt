//! The scrutinee of a match: its type is the match's family, at the written parameters and at some indices.
ghost use Rattle.std.specs.Prelude.{◌≡◌, ◌+◌};
ghost use Rattle.calculus_rules.specs.Environment.{with_parameters};
ghost use Rattle.pc_rules.specs.WellCounted.{AreCounted};
ghost use Rattle.pc_rules.specs.DirectedRun.{most_nested};
ghost use Rattle.type_infer.specs.Ready.{IsReady};
ghost use Rattle.type_cert.specs.Retraces.{Retraces, stand};
ghost use Rattle.type_cert.specs.Going.{scrutinee_walk};

use crate::halt::{WalkHalt, at_item};
use crate::numbers::reduced;
use crate::trail::Trail;
use crate::typing::TypeWalk;
use calculus_rules::declaration::{Block, Family};
use pc_rules::context::Ctx;
use pc_rules::guarder::Guarder;
use pc_terms::term::{Match, Terms};
use std::alloc::Global;
use type_infer::scrutinees::{family_at_indices, found_indices};

impl<G: Guarder> TypeWalk<'_, G> {
    /// The indices at which the scrutinee of a match has the match's family. The parameters have been checked. Refused at the number where
    /// its type comes to no family with all its arguments.
    #[cycle(infer)]
    pub(crate) fn scrutinee_rule(
        &self,
        alloc: Global,
        ctx: &Ctx,
        block: &Block,
        family: &Family,
        x: &Match,
        trail: &mut Trail,
    ) -> Result<Terms, WalkHalt>
        requires nest { self.now.verifier.room + trail.old.meter.nest ≡ most_nested }
        requires ready { IsReady self.now.verifier.env.now ctx.now }
        requires params { AreCounted self.now.verifier.env.now x.now.params }
        ensures retraces { Retraces (scrutinee_walk self.now.verifier ctx.now (with_parameters block.now.params family.now) x.now (stand trail.old)) result trail.old trail.new }
    {
        let ty = self.infer(alloc, ctx, &x.scrut, trail)?;
        let item = trail.at;
        let (count, found) = reduced(alloc, &self.verifier, ctx, ty, trail)?;
        let indices = at_item(item, found_indices(alloc, block, x.family, family, &found))?;
        self.retype(alloc, ctx, count, &found, trail)?;
        let asked = family_at_indices(alloc, x.family, &x.params, &indices)?;
        self.fits(alloc, ctx, &found, &asked, trail)?;
        Ok(indices)
    }
}

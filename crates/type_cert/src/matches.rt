//! Matches: rule 10.
ghost use Rattle.std.specs.Prelude.{◌≡◌, ◌+◌};
ghost use Rattle.calculus_rules.specs.Environment.{with_parameters};
ghost use Rattle.pc_rules.specs.DirectedRun.{most_nested};
ghost use Rattle.type_infer.specs.Ready.{IsReady};
ghost use Rattle.type_cert.specs.Retraces.{Retraces, stand};
ghost use Rattle.type_cert.specs.Going.{predicate_walk, case_walk};

use crate::halt::{WalkHalt, at_item, halt_at};
use crate::trail::Trail;
use crate::typing::TypeWalk;
use calculus_rules::declaration::{Block, Family};
use instances::instances::predicates::{pred_at, predicate_entries};
use pc_rules::context::Ctx;
use pc_rules::guarder::Guarder;
use pc_terms::term::{Match, Term};
use std::alloc::Global;
use type_infer::counts::match_counted;
use type_infer::elimination::eliminated;
use type_infer::lookup::whole_family;

impl<G: Guarder> TypeWalk<'_, G> {
    /// The predicate of a match: its entries have sorts, it has a sort under them, and the family may be eliminated into that.
    #[cycle(infer)]
    fn predicate_rule(
        &self,
        alloc: Global,
        ctx: &Ctx,
        block: &Block,
        family: &Family,
        x: &Match,
        trail: &mut Trail,
    ) -> Result<(), WalkHalt>
        requires nest { self.now.verifier.room + trail.old.meter.nest ≡ most_nested }
        requires ready { IsReady self.now.verifier.env.now ctx.now }
        ensures retraces { Retraces (predicate_walk self.now.verifier ctx.now block.now (with_parameters block.now.params family.now) x.now (stand trail.old)) result trail.old trail.new }
    {
        let entries = predicate_entries(alloc, x.family, family, &x.params)?;
        let inner = self.entered(alloc, ctx, &entries, trail)?;
        let target = self.sort_of(alloc, &inner, &x.ret, trail)?;
        at_item(trail.at, eliminated(block, x.family, family, &target))
    }

    /// A match has its predicate at the indices and the scrutinee.
    #[cycle(infer)]
    pub(crate) fn case_rule(
        &self,
        alloc: Global,
        ctx: &Ctx,
        x: &Match,
        trail: &mut Trail,
    ) -> Result<Term, WalkHalt>
        requires nest { self.now.verifier.room + trail.old.meter.nest ≡ most_nested }
        requires ready { IsReady self.now.verifier.env.now ctx.now }
        ensures retraces { Retraces (case_walk self.now.verifier ctx.now x.now (stand trail.old)) result trail.old trail.new }
    {
        let (block, family) = match whole_family(self.verifier.env, x.family) {
            Ok(found) => found,
            Err(halt) => return Err(halt_at(trail.at, halt)),
        };
        at_item(trail.at, match_counted(block, family, x))?;
        self.check_all(alloc, ctx, 0, &x.params, &block.params, trail)?;
        self.predicate_rule(alloc, ctx, block, family, x, trail)?;
        let indices = self.scrutinee_rule(alloc, ctx, block, family, x, trail)?;
        self.branches_rule(alloc, ctx, &family.ctors, x, trail)?;
        Ok(pred_at(alloc, x, &indices, &x.scrut)?)
    }
}

//! The branches of a match.
ghost use Rattle.std.specs.Prelude.{◌≡◌, ◌+◌};
ghost use Rattle.pc_rules.specs.DirectedRun.{most_nested};
ghost use Rattle.type_infer.specs.Ready.{IsReady};
ghost use Rattle.type_cert.specs.Retraces.{Retraces, stand};
ghost use Rattle.type_cert.specs.Going.{branch_walk, branches_walk};

use crate::halt::WalkHalt;
use crate::trail::Trail;
use crate::typing::TypeWalk;
use calculus_rules::declaration::{Constructor, Constructors};
use instances::instances::branches::{branch_entries, branch_type};
use pc_rules::context::Ctx;
use pc_rules::guarder::Guarder;
use pc_rules::stop::Stop;
use pc_terms::term::{Match, Term};
use std::alloc::Global;

impl<G: Guarder> TypeWalk<'_, G> {
    /// The body of branch `place` of a match, of which there is a constructor: the entries have sorts, and under them the body has the type of
    /// the predicate at what the constructor builds.
    #[cycle(infer)]
    fn branch_rule(
        &self,
        alloc: Global,
        ctx: &Ctx,
        place: u32,
        ctor: &Constructor,
        x: &Match,
        body: &Term,
        trail: &mut Trail,
    ) -> Result<(), WalkHalt>
        requires nest { self.now.verifier.room + trail.old.meter.nest ≡ most_nested }
        requires ready { IsReady self.now.verifier.env.now ctx.now }
        ensures retraces { Retraces (branch_walk self.now.verifier ctx.now place ctor.now x.now body.now (stand trail.old)) result trail.old trail.new }
    {
        let entries = branch_entries(alloc, ctor, &x.params)?;
        let inner = self.entered(alloc, ctx, &entries, trail)?;
        let ty = branch_type(alloc, place, ctor, x)?;
        self.check(alloc, &inner, body, &ty, trail)
    }

    /// The branches of a match, as far as there are constructors.
    #[cycle(infer)]
    pub(crate) fn branches_rule(
        &self,
        alloc: Global,
        ctx: &Ctx,
        ctors: &Constructors,
        x: &Match,
        trail: &mut Trail,
    ) -> Result<(), WalkHalt>
        requires nest { self.now.verifier.room + trail.old.meter.nest ≡ most_nested }
        requires ready { IsReady self.now.verifier.env.now ctx.now }
        ensures retraces { Retraces (branches_walk self.now.verifier ctx.now 0 ctors.now x.now x.now.branches (stand trail.old)) result trail.old trail.new }
    {
        let listed = ctors.as_slice();
        let bodies = x.branches.as_slice();
        let Ok(count) = u32::try_from(listed.len().min(bodies.len())) else {
            return Err(WalkHalt::Stop(Stop::Memory));
        };
        for i in 0..count {
            let ctor = &listed[i as usize];
            let branch = &bodies[i as usize];
            self.branch_rule(alloc, ctx, i, ctor, x, &branch.body, trail)?;
        }
        Ok(())
    }
}

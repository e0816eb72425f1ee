//! The branches of a match.
ghost use Rattle.std.specs.Prelude.{◌≡◌, ◌+◌};
ghost use Rattle.pc_rules.specs.DirectedRun.{most_nested};
ghost use Rattle.type_infer.specs.Ready.{IsReady};
ghost use Rattle.script_making.specs.Makes.{Makes};
ghost use Rattle.type_making.specs.Making.{branch_making, branches_making};

use crate::typing::TypeMaker;
use calculus_rules::declaration::{Constructor, Constructors};
use instances::instances::branches::{branch_entries, branch_type};
use pc_rules::context::Ctx;
use pc_rules::guarder::Guarder;
use pc_rules::reducer::Reducer;
use pc_rules::stop::{Halt, Stop};
use pc_terms::term::{Match, Term};
use script_making::draft::Draft;
use std::alloc::Global;

impl<R: Reducer, G: Guarder> TypeMaker<'_, R, G> {
    /// The body of branch `place` of a match, of which there is a constructor: the entries have sorts, and under them the body has the type of
    /// the predicate at what the constructor builds.
    #[cycle(infer)]
    fn branch_rule(
        &self,
        alloc: Global,
        ctx: &Ctx,
        place: u32,
        ctor: &Constructor,
        x: &Match,
        body: &Term,
        draft: &mut Draft,
    ) -> Result<(), Halt>
        requires nest { self.now.maker.room + draft.old.meter.nest ≡ most_nested }
        requires ready { IsReady self.now.maker.env.now ctx.now }
        ensures makes { Makes (branch_making self.now.maker.env.now self.now.maker.room ctx.now place ctor.now x.now body.now draft.old.meter.account) result draft.old draft.new }
    {
        let entries = branch_entries(alloc, ctor, &x.params)?;
        let inner = self.entered(alloc, ctx, &entries, draft)?;
        let ty = branch_type(alloc, place, ctor, x)?;
        self.check(alloc, &inner, body, &ty, draft)
    }

    /// The branches of a match, as far as there are constructors.
    #[cycle(infer)]
    pub(crate) fn branches_rule(
        &self,
        alloc: Global,
        ctx: &Ctx,
        ctors: &Constructors,
        x: &Match,
        draft: &mut Draft,
    ) -> Result<(), Halt>
        requires nest { self.now.maker.room + draft.old.meter.nest ≡ most_nested }
        requires ready { IsReady self.now.maker.env.now ctx.now }
        ensures makes { Makes (branches_making self.now.maker.env.now self.now.maker.room ctx.now 0 ctors.now x.now x.now.branches draft.old.meter.account) result draft.old draft.new }
    {
        let listed = ctors.as_slice();
        let bodies = x.branches.as_slice();
        let Ok(count) = u32::try_from(listed.len().min(bodies.len())) else {
            return Err(Halt::Stop(Stop::Memory));
        };
        for i in 0..count {
            let ctor = &listed[i as usize];
            let branch = &bodies[i as usize];
            self.branch_rule(alloc, ctx, i, ctor, x, &branch.body, draft)?;
        }
        Ok(())
    }
}

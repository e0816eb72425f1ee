//! Matches: rule 10.
ghost use Rattle.std.specs.Prelude.{◌≡◌, ◌+◌};
ghost use Rattle.pc_rules.specs.DirectedRun.{most_nested};
ghost use Rattle.type_infer.specs.Ready.{IsReady};
ghost use Rattle.script_making.specs.Makes.{Makes};
ghost use Rattle.type_making.specs.Making.{predicate_making, case_making};

use crate::typing::TypeMaker;
use calculus_rules::declaration::{Block, Family};
use instances::instances::predicates::{pred_at, predicate_entries};
use pc_rules::context::Ctx;
use pc_rules::guarder::Guarder;
use pc_rules::reducer::Reducer;
use pc_rules::stop::Halt;
use pc_terms::term::{Match, Term};
use script_making::draft::Draft;
use std::alloc::Global;
use type_infer::counts::match_counted;
use type_infer::elimination::eliminated;
use type_infer::lookup::whole_family;

impl<R: Reducer, G: Guarder> TypeMaker<'_, R, G> {
    /// The predicate of a match: its entries have sorts, it has a sort under them, and the family may be eliminated into that.
    #[cycle(infer)]
    fn predicate_rule(
        &self,
        alloc: Global,
        ctx: &Ctx,
        block: &Block,
        family: &Family,
        x: &Match,
        draft: &mut Draft,
    ) -> Result<(), Halt>
        requires nest { self.now.maker.room + draft.old.meter.nest ≡ most_nested }
        requires ready { IsReady self.now.maker.env.now ctx.now }
        ensures makes { Makes (predicate_making self.now.maker.env.now self.now.maker.room ctx.now block.now family.now x.now draft.old.meter.account) result draft.old draft.new }
    {
        let entries = predicate_entries(alloc, x.family, family, &x.params)?;
        let inner = self.entered(alloc, ctx, &entries, draft)?;
        let target = self.sort_of(alloc, &inner, &x.ret, draft)?;
        eliminated(block, x.family, family, &target)
    }

    /// A match has its predicate at the indices and the scrutinee.
    #[cycle(infer)]
    pub(crate) fn case_rule(
        &self,
        alloc: Global,
        ctx: &Ctx,
        x: &Match,
        draft: &mut Draft,
    ) -> Result<Term, Halt>
        requires nest { self.now.maker.room + draft.old.meter.nest ≡ most_nested }
        requires ready { IsReady self.now.maker.env.now ctx.now }
        ensures makes { Makes (case_making self.now.maker.env.now self.now.maker.room ctx.now x.now draft.old.meter.account) result draft.old draft.new }
    {
        let (block, family) = whole_family(self.maker.env, x.family)?;
        match_counted(block, family, x)?;
        self.check_all(alloc, ctx, 0, &x.params, &block.params, draft)?;
        self.predicate_rule(alloc, ctx, block, family, x, draft)?;
        let indices = self.scrutinee_rule(alloc, ctx, block, family, x, draft)?;
        self.branches_rule(alloc, ctx, &family.ctors, x, draft)?;
        Ok(pred_at(alloc, x, &indices, &x.scrut)?)
    }
}

//! The scrutinee of a match: its type is the match's family, at the written parameters and at some indices.
ghost use Rattle.std.specs.Prelude.{◌≡◌, ◌+◌};
ghost use Rattle.calculus_rules.specs.Same.{same};
ghost use Rattle.pc_rules.specs.WellCounted.{IsCounted, AreCounted};
ghost use Rattle.pc_rules.specs.DirectedRun.{most_nested};
ghost use Rattle.type_infer.specs.Ready.{IsReady};
ghost use Rattle.script_making.specs.Makes.{Makes};
ghost use Rattle.type_making.specs.Making.{fits_making, scrutinee_making};

use crate::typing::TypeMaker;
use calculus_rules::declaration::{Block, Family};
use cert_rules::item::CertItem;
use pc_rules::context::Ctx;
use pc_rules::guarder::Guarder;
use pc_rules::reducer::Reducer;
use pc_rules::stop::Halt;
use pc_terms::term::{Match, Term, Terms};
use script_making::draft::Draft;
use std::alloc::Global;
use type_infer::scrutinees::{family_at_indices, found_indices};

impl<R: Reducer, G: Guarder> TypeMaker<'_, R, G> {
    /// The found type of a scrutinee, in weak-head normal form, in place of the type that is asked for.
    #[cycle(infer)]
    fn scrutinee_fits(
        &self,
        alloc: Global,
        ctx: &Ctx,
        found: &Term,
        asked: &Term,
        draft: &mut Draft,
    ) -> Result<(), Halt>
        requires nest { self.now.maker.room + draft.old.meter.nest ≡ most_nested }
        requires ready { IsReady self.now.maker.env.now ctx.now }
        requires found { IsCounted self.now.maker.env.now found.now }
        ensures makes { Makes (fits_making self.now.maker.env.now self.now.maker.room ctx.now (same asked.now found.now) found.now asked.now draft.old.meter.account) result draft.old draft.new }
    {
        if asked.same(found) {
            return draft.put(CertItem::Same);
        }
        self.converted(alloc, ctx, found, asked, draft)
    }

    /// The indices at which the scrutinee of a match has the match's family. The parameters have been checked.
    #[cycle(infer)]
    pub(crate) fn scrutinee_rule(
        &self,
        alloc: Global,
        ctx: &Ctx,
        block: &Block,
        family: &Family,
        x: &Match,
        draft: &mut Draft,
    ) -> Result<Terms, Halt>
        requires nest { self.now.maker.room + draft.old.meter.nest ≡ most_nested }
        requires ready { IsReady self.now.maker.env.now ctx.now }
        requires params { AreCounted self.now.maker.env.now x.now.params }
        ensures makes { Makes (scrutinee_making self.now.maker.env.now self.now.maker.room ctx.now block.now family.now x.now draft.old.meter.account) result draft.old draft.new }
    {
        let ty = self.infer(alloc, ctx, &x.scrut, draft)?;
        let whnf = self.maker.whnf(alloc, ctx, &ty, draft)?;
        let indices = found_indices(alloc, block, x.family, family, &whnf)?;
        self.retype(alloc, ctx, &ty, &whnf, draft)?;
        let asked = family_at_indices(alloc, x.family, &x.params, &indices)?;
        self.scrutinee_fits(alloc, ctx, &whnf, &asked, draft)?;
        Ok(indices)
    }
}

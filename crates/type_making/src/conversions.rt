//! Conversion: the sort of a term, a term against a type, and a type in place of another.
ghost use Rattle.std.specs.Prelude.{◌≡◌, ◌+◌, false, IfOk};
ghost use Rattle.pc_rules.specs.WellCounted.{IsCounted};
ghost use Rattle.pc_rules.specs.DirectedRun.{most_nested};
ghost use Rattle.type_infer.specs.Ready.{IsReady};
ghost use Rattle.script_making.specs.Makes.{Makes};
ghost use Rattle.type_making.specs.Making.{sort_making, fits_making, check_making, retype_making};

use crate::typing::TypeMaker;
use crate::uses::{conv, put_conv};
use cert_rules::item::CertItem;
use conversion::mode::Mode;
use pc_rules::broken::Broken;
use pc_rules::context::Ctx;
use pc_rules::guarder::Guarder;
use pc_rules::reducer::Reducer;
use pc_rules::stop::Halt;
use pc_terms::term::{Node, Term};
use script_making::draft::Draft;
use std::alloc::Global;
use universe_levels::sort::Sort;

impl<R: Reducer, G: Guarder> TypeMaker<'_, R, G> {
    /// The sort of a term: its type's weak-head normal form, which is inferred again where it is another term than the type.
    #[cycle(infer)]
    pub fn sort_of(
        &self,
        alloc: Global,
        ctx: &Ctx,
        t: &Term,
        draft: &mut Draft,
    ) -> Result<Sort, Halt>
        requires nest { self.now.maker.room + draft.old.meter.nest ≡ most_nested }
        requires ready { IsReady self.now.maker.env.now ctx.now }
        ensures makes { Makes (sort_making self.now.maker.env.now self.now.maker.room ctx.now t.now draft.old.meter.account) result draft.old draft.new }
        ensures counted { IfOk result (λ _. IsCounted self.now.maker.env.now t.now) }
    {
        let ty = self.infer(alloc, ctx, t, draft)?;
        let whnf = self.maker.whnf(alloc, ctx, &ty, draft)?;
        match whnf.view() {
            Node::Sort(s) => {
                let sort = s.share(alloc)?;
                if ty.same(&whnf) {
                    return Ok(sort);
                }
                conv(&mut draft.meter)?;
                let _above = self.infer(alloc, ctx, &whnf, draft)?;
                Ok(sort)
            }
            _ => Err(Halt::Broken(Broken::NotASort { whnf })),
        }
    }

    /// A type that was found in place of another one that is asked for: that has a sort, and the found one is below it.
    #[cycle(infer)]
    pub(crate) fn converted(
        &self,
        alloc: Global,
        ctx: &Ctx,
        found: &Term,
        ty: &Term,
        draft: &mut Draft,
    ) -> Result<(), Halt>
        requires nest { self.now.maker.room + draft.old.meter.nest ≡ most_nested }
        requires ready { IsReady self.now.maker.env.now ctx.now }
        requires found { IsCounted self.now.maker.env.now found.now }
        ensures makes { Makes (fits_making self.now.maker.env.now self.now.maker.room ctx.now false found.now ty.now draft.old.meter.account) result draft.old draft.new }
        ensures counted { IfOk result (λ _. IsCounted self.now.maker.env.now ty.now) }
    {
        put_conv(draft)?;
        let _sort = self.sort_of(alloc, ctx, ty, draft)?;
        self.maker
            .compare(alloc, ctx, Mode::Below, found, ty, draft)
    }

    /// A term against a type: the one found, or one above it that has a sort.
    #[cycle(infer)]
    pub fn check(
        &self,
        alloc: Global,
        ctx: &Ctx,
        t: &Term,
        ty: &Term,
        draft: &mut Draft,
    ) -> Result<(), Halt>
        requires nest { self.now.maker.room + draft.old.meter.nest ≡ most_nested }
        requires ready { IsReady self.now.maker.env.now ctx.now }
        ensures makes { Makes (check_making self.now.maker.env.now self.now.maker.room ctx.now t.now ty.now draft.old.meter.account) result draft.old draft.new }
        ensures counted { IfOk result (λ _. IsCounted self.now.maker.env.now t.now) }
        ensures type_counted { IfOk result (λ _. IsCounted self.now.maker.env.now ty.now) }
    {
        let found = self.infer(alloc, ctx, t, draft)?;
        if found.same(ty) {
            return draft.put(CertItem::Same);
        }
        self.converted(alloc, ctx, &found, ty, draft)
    }

    /// From a type to the weak-head normal form that is used in its place.
    #[cycle(infer)]
    pub(crate) fn retype(
        &self,
        alloc: Global,
        ctx: &Ctx,
        ty: &Term,
        whnf: &Term,
        draft: &mut Draft,
    ) -> Result<(), Halt>
        requires nest { self.now.maker.room + draft.old.meter.nest ≡ most_nested }
        requires ready { IsReady self.now.maker.env.now ctx.now }
        ensures makes { Makes (retype_making self.now.maker.env.now self.now.maker.room ctx.now ty.now whnf.now draft.old.meter.account) result draft.old draft.new }
    {
        if ty.same(whnf) {
            return Ok(());
        }
        conv(&mut draft.meter)?;
        let _sort = self.sort_of(alloc, ctx, whnf, draft)?;
        Ok(())
    }
}

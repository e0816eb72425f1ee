//! Conversion: the sort of a term, that a term has a sort, a term against a type, and a type in place of another.
ghost use Rattle.std.specs.Prelude.{◌≡◌, ◌+◌, IfOk};
ghost use Rattle.pc_rules.specs.WellCounted.{IsCounted};
ghost use Rattle.pc_rules.specs.DirectedRun.{most_nested};
ghost use Rattle.type_infer.specs.Ready.{IsReady};
ghost use Rattle.type_cert.specs.Retraces.{Retraces, stand};
ghost use Rattle.type_cert.specs.Going.{sorting, sorting_type, fitting, checking, retyping};
ghost use Rattle.type_cert.specs.Unread.{RetracesSort, RetracesUnread};

use crate::halt::WalkHalt;
use crate::numbers::{item_at, reduced};
use crate::sorts::stays_sort;
use crate::trail::Trail;
use crate::typing::TypeWalk;
use cert_rules::item::CertItem;
use conversion::mode::Mode;
use pc_rules::context::Ctx;
use pc_rules::guarder::Guarder;
use pc_rules::stop::Stop;
use pc_terms::term::{Node, Term};
use std::alloc::Global;
use universe_levels::sort::Sort;

impl<G: Guarder> TypeWalk<'_, G> {
    /// The sort of a term: its type after the steps of a number; where there are any, that sort is inferred. Refused at the number where it
    /// comes to no sort.
    #[cycle(infer)]
    pub fn sort_of(
        &self,
        alloc: Global,
        ctx: &Ctx,
        t: &Term,
        trail: &mut Trail,
    ) -> Result<Sort, WalkHalt>
        requires nest { self.now.verifier.room + trail.old.meter.nest ≡ most_nested }
        requires ready { IsReady self.now.verifier.env.now ctx.now }
        ensures retraces { Retraces (sorting self.now.verifier ctx.now t.now (stand trail.old)) result trail.old trail.new }
        ensures counted { IfOk result (λ _. IsCounted self.now.verifier.env.now t.now) }
    {
        let found = self.sort_term(alloc, ctx, t, trail)?;
        match found.view() {
            Node::Sort(s) => Ok(s.share(alloc)?),
            // No other is found.
            _ => Err(WalkHalt::Stop(Stop::Memory)),
        }
    }

    /// The sort of a term, as a term.
    #[cycle(infer)]
    pub(crate) fn sort_term(
        &self,
        alloc: Global,
        ctx: &Ctx,
        t: &Term,
        trail: &mut Trail,
    ) -> Result<Term, WalkHalt>
        requires nest { self.now.verifier.room + trail.old.meter.nest ≡ most_nested }
        requires ready { IsReady self.now.verifier.env.now ctx.now }
        ensures retraces { RetracesSort (sorting self.now.verifier ctx.now t.now (stand trail.old)) result trail.old trail.new }
        ensures counted { IfOk result (λ _. IsCounted self.now.verifier.env.now t.now) }
    {
        let ty = self.infer(alloc, ctx, t, trail)?;
        if stays_sort(self.verifier.cert, &ty, trail) {
            return Ok(ty);
        }
        self.sort_from(alloc, ctx, ty, trail)
    }

    /// That a term has a sort, which is not given: of a sort, and of a family whose type is one, no type is made.
    #[cycle(infer)]
    pub(crate) fn sorted(
        &self,
        alloc: Global,
        ctx: &Ctx,
        t: &Term,
        trail: &mut Trail,
    ) -> Result<(), WalkHalt>
        requires nest { self.now.verifier.room + trail.old.meter.nest ≡ most_nested }
        requires ready { IsReady self.now.verifier.env.now ctx.now }
        ensures retraces { RetracesUnread (sorting self.now.verifier ctx.now t.now (stand trail.old)) result trail.old trail.new }
        ensures counted { IfOk result (λ _. IsCounted self.now.verifier.env.now t.now) }
    {
        match t.view() {
            Node::Sort(s) => {
                if self.verifier.passes_sort(s, trail) {
                    return Ok(());
                }
                self.inferred_sorted(alloc, ctx, t, trail)
            }
            Node::Ind(id) => {
                if self.verifier.passes_family(*id, trail) {
                    return Ok(());
                }
                self.inferred_sorted(alloc, ctx, t, trail)
            }
            _ => self.inferred_sorted(alloc, ctx, t, trail),
        }
    }

    /// The same, by the term's type.
    #[cycle(infer)]
    fn inferred_sorted(
        &self,
        alloc: Global,
        ctx: &Ctx,
        t: &Term,
        trail: &mut Trail,
    ) -> Result<(), WalkHalt>
        requires nest { self.now.verifier.room + trail.old.meter.nest ≡ most_nested }
        requires ready { IsReady self.now.verifier.env.now ctx.now }
        ensures retraces { RetracesUnread (sorting self.now.verifier ctx.now t.now (stand trail.old)) result trail.old trail.new }
        ensures counted { IfOk result (λ _. IsCounted self.now.verifier.env.now t.now) }
    {
        let _found = self.sort_term(alloc, ctx, t, trail)?;
        Ok(())
    }

    /// The sort of a term, as a term, by its type, of which the steps of a number are made.
    #[cycle(infer)]
    fn sort_from(
        &self,
        alloc: Global,
        ctx: &Ctx,
        ty: Term,
        trail: &mut Trail,
    ) -> Result<Term, WalkHalt>
        requires nest { self.now.verifier.room + trail.old.meter.nest ≡ most_nested }
        requires ready { IsReady self.now.verifier.env.now ctx.now }
        ensures retraces { RetracesSort (sorting_type self.now.verifier ctx.now ty (stand trail.old)) result trail.old trail.new }
    {
        let item = trail.at;
        let (count, found) = reduced(alloc, &self.verifier, ctx, ty, trail)?;
        match found.view() {
            Node::Sort(_) => {
                if count == 0 {
                    return Ok(found);
                }
                let _above = self.infer(alloc, ctx, &found, trail)?;
                Ok(found)
            }
            _ => Err(WalkHalt::Barred { item }),
        }
    }

    /// Whether a type that was found is the one that is asked for, or below it by a script, where that has a sort: as the next item says.
    #[cycle(infer)]
    pub(crate) fn fits(
        &self,
        alloc: Global,
        ctx: &Ctx,
        found: &Term,
        ty: &Term,
        trail: &mut Trail,
    ) -> Result<(), WalkHalt>
        requires nest { self.now.verifier.room + trail.old.meter.nest ≡ most_nested }
        requires ready { IsReady self.now.verifier.env.now ctx.now }
        requires found { IsCounted self.now.verifier.env.now found.now }
        ensures retraces { Retraces (fitting self.now.verifier ctx.now found.now ty.now (stand trail.old)) result trail.old trail.new }
        ensures counted { IfOk result (λ _. IsCounted self.now.verifier.env.now ty.now) }
    {
        match item_at(self.verifier.cert, trail.at) {
            Some(CertItem::Same) => {
                if !found.same(ty) {
                    return Err(WalkHalt::Barred { item: trail.at });
                }
                trail.at += 1;
                Ok(())
            }
            Some(CertItem::Conv) => {
                trail.at += 1;
                self.sorted(alloc, ctx, ty, trail)?;
                self.verifier
                    .script(alloc, ctx, Mode::Below, found, ty, trail)
            }
            _ => Err(WalkHalt::Barred { item: trail.at }),
        }
    }

    /// A term against a type.
    #[cycle(infer)]
    pub fn check(
        &self,
        alloc: Global,
        ctx: &Ctx,
        t: &Term,
        ty: &Term,
        trail: &mut Trail,
    ) -> Result<(), WalkHalt>
        requires nest { self.now.verifier.room + trail.old.meter.nest ≡ most_nested }
        requires ready { IsReady self.now.verifier.env.now ctx.now }
        ensures retraces { Retraces (checking self.now.verifier ctx.now t.now ty.now (stand trail.old)) result trail.old trail.new }
        ensures counted { IfOk result (λ _. IsCounted self.now.verifier.env.now t.now) }
        ensures type_counted { IfOk result (λ _. IsCounted self.now.verifier.env.now ty.now) }
    {
        let found = self.infer(alloc, ctx, t, trail)?;
        self.fits(alloc, ctx, &found, ty, trail)
    }

    /// From a type to what it becomes after `count` steps, which is used in its place: where there are any, that has a sort.
    #[cycle(infer)]
    pub(crate) fn retype(
        &self,
        alloc: Global,
        ctx: &Ctx,
        count: u32,
        found: &Term,
        trail: &mut Trail,
    ) -> Result<(), WalkHalt>
        requires nest { self.now.verifier.room + trail.old.meter.nest ≡ most_nested }
        requires ready { IsReady self.now.verifier.env.now ctx.now }
        ensures retraces { Retraces (retyping self.now.verifier ctx.now count found.now (stand trail.old)) result trail.old trail.new }
    {
        if count == 0 {
            return Ok(());
        }
        self.sorted(alloc, ctx, found, trail)?;
        Ok(())
    }
}

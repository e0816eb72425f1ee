//! Telescopes: the sorts of their entries, and terms against their types.
ghost use Rattle.std.specs.Prelude.{◌≡◌, ◌+◌, IfOk, length};
ghost use Rattle.pc_terms.specs.Syntax.{Rel};
ghost use Rattle.calculus_rules.specs.Context.{extend};
ghost use Rattle.pc_rules.specs.WellCounted.{AreCounted};
ghost use Rattle.pc_rules.specs.DirectedRun.{most_nested};
ghost use Rattle.type_infer.specs.Ready.{IsReady, done_with};
ghost use Rattle.script_making.specs.Makes.{Makes};
ghost use Rattle.type_making.specs.Making.{entries_making, check_all_making};

use crate::typing::TypeMaker;
use calculus_rules::entry::Entry;
use instances::instances::replacing::replace;
use pc_rules::context::Ctx;
use pc_rules::guarder::Guarder;
use pc_rules::reducer::Reducer;
use pc_rules::stop::Halt;
use pc_terms::lists::Telescope;
use pc_terms::term::Terms;
use script_making::draft::Draft;
use std::alloc::Global;

impl<R: Reducer, G: Guarder> TypeMaker<'_, R, G> {
    /// The context with the entries of a telescope, of which each has a sort under those before it.
    #[cycle(infer)]
    pub fn entered(
        &self,
        alloc: Global,
        ctx: &Ctx,
        entries: &Telescope,
        draft: &mut Draft,
    ) -> Result<Ctx, Halt>
        requires nest { self.now.maker.room + draft.old.meter.nest ≡ most_nested }
        requires ready { IsReady self.now.maker.env.now ctx.now }
        ensures makes { Makes (entries_making self.now.maker.env.now self.now.maker.room ctx.now entries.now draft.old.meter.account) (done_with result) draft.old draft.new }
        ensures longer { IfOk result (λ d. d ≡ extend ctx.now entries.now) }
        ensures ready { IfOk result (λ d. IsReady self.now.maker.env.now d) }
        ensures counted { IfOk result (λ _. AreCounted self.now.maker.env.now entries.now) }
    {
        let mut inner = ctx.share()?;
        let items = entries.as_slice();
        for i in 0..items.len() {
            let ty = &items[i];
            let _sort = self.sort_of(alloc, &inner, ty, draft)?;
            let entry = Entry::Assumed(ty.share()?);
            inner = inner.extended(alloc, entry)?;
        }
        Ok(inner)
    }

    /// Terms against a telescope: each against its type at the terms before it, whose other variables are raised by `raise`.
    #[cycle(infer)]
    pub fn check_all(
        &self,
        alloc: Global,
        ctx: &Ctx,
        raise: u32,
        terms: &Terms,
        telescope: &Telescope,
        draft: &mut Draft,
    ) -> Result<(), Halt>
        requires nest { self.now.maker.room + draft.old.meter.nest ≡ most_nested }
        requires ready { IsReady self.now.maker.env.now ctx.now }
        requires counts { length terms.now ≡ length telescope.now }
        ensures makes { Makes (check_all_making self.now.maker.env.now self.now.maker.room ctx.now (λ i. Rel (raise + i)) terms.now telescope.now draft.old.meter.account) result draft.old draft.new }
        ensures counted { IfOk result (λ _. AreCounted self.now.maker.env.now terms.now) }
    {
        let listed = terms.as_slice();
        let types = telescope.as_slice();
        let mut before = Terms::new(alloc);
        for i in 0..listed.len() {
            let term = &listed[i];
            let ty = replace(alloc, &types[i], raise, &before)?;
            self.check(alloc, ctx, term, &ty, draft)?;
            before.push(term.share()?)?;
        }
        Ok(())
    }
}

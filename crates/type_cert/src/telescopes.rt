//! Telescopes: the sorts of their entries, and terms against their types.
ghost use Rattle.std.specs.Prelude.{◌≡◌, ◌+◌, IfOk, length};
ghost use Rattle.pc_terms.specs.Syntax.{Rel};
ghost use Rattle.calculus_rules.specs.Context.{extend};
ghost use Rattle.pc_rules.specs.WellCounted.{AreCounted};
ghost use Rattle.pc_rules.specs.DirectedRun.{most_nested};
ghost use Rattle.type_infer.specs.Ready.{IsReady};
ghost use Rattle.type_cert.specs.Retraces.{Retraces, stand, passed_with};
ghost use Rattle.type_cert.specs.Going.{entering, checking_all};

use crate::halt::WalkHalt;
use crate::trail::Trail;
use crate::typing::TypeWalk;
use calculus_rules::entry::Entry;
use instances::instances::replacing::replace;
use pc_rules::context::Ctx;
use pc_rules::guarder::Guarder;
use pc_terms::lists::Telescope;
use pc_terms::term::Terms;
use std::alloc::Global;

impl<G: Guarder> TypeWalk<'_, G> {
    /// The context with the entries of a telescope, of which each has a sort under those before it.
    #[cycle(infer)]
    pub fn entered(
        &self,
        alloc: Global,
        ctx: &Ctx,
        entries: &Telescope,
        trail: &mut Trail,
    ) -> Result<Ctx, WalkHalt>
        requires nest { self.now.verifier.room + trail.old.meter.nest ≡ most_nested }
        requires ready { IsReady self.now.verifier.env.now ctx.now }
        ensures retraces { Retraces (entering self.now.verifier ctx.now entries.now (stand trail.old)) (passed_with result) trail.old trail.new }
        ensures longer { IfOk result (λ d. d ≡ extend ctx.now entries.now) }
        ensures ready { IfOk result (λ d. IsReady self.now.verifier.env.now d) }
        ensures counted { IfOk result (λ _. AreCounted self.now.verifier.env.now entries.now) }
    {
        let mut inner = ctx.share()?;
        let items = entries.as_slice();
        for i in 0..items.len() {
            let ty = &items[i];
            self.sorted(alloc, &inner, ty, trail)?;
            let entry = Entry::Assumed(ty.share()?);
            inner = inner.extended(alloc, entry)?;
        }
        Ok(inner)
    }

    /// Terms against a telescope: each against its type at the terms before it, whose other variables are raised by `raise`.
    #[cycle(infer)]
    pub fn check_all(
        &self,
        alloc: Global,
        ctx: &Ctx,
        raise: u32,
        terms: &Terms,
        telescope: &Telescope,
        trail: &mut Trail,
    ) -> Result<(), WalkHalt>
        requires nest { self.now.verifier.room + trail.old.meter.nest ≡ most_nested }
        requires ready { IsReady self.now.verifier.env.now ctx.now }
        requires counts { length terms.now ≡ length telescope.now }
        ensures retraces { Retraces (checking_all self.now.verifier ctx.now (λ i. Rel (raise + i)) terms.now telescope.now (stand trail.old)) result trail.old trail.new }
        ensures counted { IfOk result (λ _. AreCounted self.now.verifier.env.now terms.now) }
    {
        let listed = terms.as_slice();
        let types = telescope.as_slice();
        let mut before = Terms::new(alloc);
        for i in 0..listed.len() {
            let term = &listed[i];
            let ty = replace(alloc, &types[i], raise, &before)?;
            self.check(alloc, ctx, term, &ty, trail)?;
            before.push(term.share()?)?;
        }
        Ok(())
    }
}

//! Fixpoints: rule 11.
ghost use Rattle.std.specs.Prelude.{◌≡◌, ◌+◌, ℕ, length, IfOk};
ghost use Rattle.pc_terms.specs.Formed.{IsFormed};
ghost use Rattle.pc_terms.specs.Lists.{types_of};
ghost use Rattle.pc_terms.specs.View.{tree_of};
ghost use Rattle.pc_terms.specs.declared.term.Node.TheVariants.{Fix};
ghost use Rattle.calculus_rules.specs.Instances.{definitions};
ghost use Rattle.pc_rules.specs.DirectedRun.{most_nested};
ghost use Rattle.type_infer.specs.Ready.{IsReady};
ghost use Rattle.type_cert.specs.Retraces.{Retraces, stand, passed_with};
ghost use Rattle.type_cert.specs.Going.{types_walk, definition_walk, definitions_walk, fix_walk};

use crate::halt::{WalkHalt, at_item};
use crate::numbers::reduced;
use crate::trail::Trail;
use crate::typing::TypeWalk;
use calculus_rules::entry::Entry;
use pc_rules::context::Ctx;
use pc_rules::guarder::Guarder;
use pc_rules::stop::Stop;
use pc_terms::term::{Def, Defs, Term};
use std::alloc::Global;
use type_infer::fixpoints::{definition_type, is_of_family, recursive_domain};

impl<G: Guarder> TypeWalk<'_, G> {
    /// The sort of each definition's type, lifted, under the definitions before it. Gives the context under all definitions.
    #[cycle(infer)]
    fn types_rule(
        &self,
        alloc: Global,
        ctx: &Ctx,
        defs: &Defs,
        trail: &mut Trail,
    ) -> Result<Ctx, WalkHalt>
        requires nest { self.now.verifier.room + trail.old.meter.nest ≡ most_nested }
        requires ready { IsReady self.now.verifier.env.now ctx.now }
        ensures retraces { Retraces (types_walk self.now.verifier ctx.now 0 defs.now (stand trail.old)) (passed_with result) trail.old trail.new }
        ensures under { IfOk result (λ d. d ≡ definitions ctx.now 0 (types_of defs.now)) }
        ensures inner { IfOk result (λ d. IsReady self.now.verifier.env.now d) }
    {
        let items = defs.as_slice();
        let Ok(count) = u32::try_from(items.len()) else {
            return Err(WalkHalt::Stop(Stop::Memory));
        };
        let mut under = ctx.share()?;
        for i in 0..count {
            let ty = items[i as usize].ty.lift(alloc, i, 0)?;
            self.sorted(alloc, &under, &ty, trail)?;
            under = under.extended(alloc, Entry::Assumed(ty))?;
        }
        Ok(under)
    }

    /// Definition `number` of `count`: its lambdas, its body against its lifted type, and the type of its recursive argument, which comes to a
    /// family after the steps of a number; refused there where it does not.
    #[cycle(infer)]
    fn definition_rule(
        &self,
        alloc: Global,
        under: &Ctx,
        count: u32,
        def: &Def,
        trail: &mut Trail,
    ) -> Result<(), WalkHalt>
        requires nest { self.now.verifier.room + trail.old.meter.nest ≡ most_nested }
        requires ready { IsReady self.now.verifier.env.now under.now }
        ensures retraces { (d : ℕ) → Retraces (definition_walk self.now.verifier under.now count d def.now (stand trail.old)) result trail.old trail.new }
    {
        let Some((inner, domain)) = recursive_domain(alloc, under, def.rarg, &def.body)? else {
            return Err(WalkHalt::Barred { item: trail.at });
        };
        let ty = def.ty.lift(alloc, count, 0)?;
        self.check(alloc, under, &def.body, &ty, trail)?;
        let item = trail.at;
        let (_, found) = reduced(alloc, &self.verifier, &inner, domain, trail)?;
        if is_of_family(&found) {
            return Ok(());
        }
        Err(WalkHalt::Barred { item })
    }

    /// Each definition in turn, under all of them.
    #[cycle(infer)]
    fn definitions_rule(
        &self,
        alloc: Global,
        under: &Ctx,
        defs: &Defs,
        trail: &mut Trail,
    ) -> Result<(), WalkHalt>
        requires nest { self.now.verifier.room + trail.old.meter.nest ≡ most_nested }
        requires ready { IsReady self.now.verifier.env.now under.now }
        ensures retraces { Retraces (definitions_walk self.now.verifier under.now (length defs.now) 0 defs.now (stand trail.old)) result trail.old trail.new }
    {
        let items = defs.as_slice();
        let Ok(count) = u32::try_from(items.len()) else {
            return Err(WalkHalt::Stop(Stop::Memory));
        };
        for i in 0..items.len() {
            let def = &items[i];
            self.definition_rule(alloc, under, count, def, trail)?;
        }
        Ok(())
    }

    /// A fixpoint has the type of the definition that it names. `fix` is the fixpoint `index` of the definitions.
    #[cycle(infer)]
    pub(crate) fn fix_rule(
        &self,
        alloc: Global,
        ctx: &Ctx,
        fix: &Term,
        defs: &Defs,
        index: u32,
        trail: &mut Trail,
    ) -> Result<Term, WalkHalt>
        requires nest { self.now.verifier.room + trail.old.meter.nest ≡ most_nested }
        requires ready { IsReady self.now.verifier.env.now ctx.now }
        requires whole { tree_of (Fix defs.now index) ≡ fix.now }
        requires formed { IsFormed fix.now }
        ensures retraces { Retraces (fix_walk self.now.verifier ctx.now index defs.now (stand trail.old)) result trail.old trail.new }
    {
        let under = self.types_rule(alloc, ctx, defs, trail)?;
        self.definitions_rule(alloc, &under, defs, trail)?;
        let at = trail.at;
        at_item(
            at,
            self.guarder
                .fix(alloc, self.verifier.env, ctx, fix, &mut trail.meter),
        )?;
        at_item(at, definition_type(defs, index))
    }
}

//! Fixpoints: rule 11.
ghost use Rattle.std.specs.Prelude.{◌≡◌, ◌+◌, length, IfOk};
ghost use Rattle.pc_terms.specs.Formed.{IsFormed};
ghost use Rattle.pc_terms.specs.Lists.{types_of};
ghost use Rattle.pc_terms.specs.View.{tree_of};
ghost use Rattle.pc_terms.specs.declared.term.Node.TheVariants.{Fix};
ghost use Rattle.calculus_rules.specs.Instances.{definitions};
ghost use Rattle.pc_rules.specs.DirectedRun.{most_nested};
ghost use Rattle.type_infer.specs.Ready.{IsReady, done_with};
ghost use Rattle.script_making.specs.Makes.{Makes};
ghost use Rattle.type_making.specs.Making.{types_making, definition_making, definitions_making, fix_making};

use crate::typing::TypeMaker;
use calculus_rules::entry::Entry;
use pc_rules::broken::Broken;
use pc_rules::context::Ctx;
use pc_rules::guarder::Guarder;
use pc_rules::reducer::Reducer;
use pc_rules::stop::{Halt, Stop};
use pc_terms::term::{Def, Defs, Term};
use script_making::draft::Draft;
use std::alloc::Global;
use type_infer::fixpoints::{definition_type, is_of_family, recursive_domain};

impl<R: Reducer, G: Guarder> TypeMaker<'_, R, G> {
    /// The sort of each definition's type, lifted, under the definitions before it. Gives the context under all definitions.
    #[cycle(infer)]
    fn types_rule(
        &self,
        alloc: Global,
        ctx: &Ctx,
        defs: &Defs,
        draft: &mut Draft,
    ) -> Result<Ctx, Halt>
        requires nest { self.now.maker.room + draft.old.meter.nest ≡ most_nested }
        requires ready { IsReady self.now.maker.env.now ctx.now }
        ensures makes { Makes (types_making self.now.maker.env.now self.now.maker.room ctx.now 0 defs.now draft.old.meter.account) (done_with result) draft.old draft.new }
        ensures under { IfOk result (λ d. d ≡ definitions ctx.now 0 (types_of defs.now)) }
        ensures inner { IfOk result (λ d. IsReady self.now.maker.env.now d) }
    {
        let items = defs.as_slice();
        let Ok(count) = u32::try_from(items.len()) else {
            return Err(Halt::Stop(Stop::Memory));
        };
        let mut under = ctx.share()?;
        for i in 0..count {
            let ty = items[i as usize].ty.lift(alloc, i, 0)?;
            let _sort = self.sort_of(alloc, &under, &ty, draft)?;
            under = under.extended(alloc, Entry::Assumed(ty))?;
        }
        Ok(under)
    }

    /// Definition `number` (from 0) of `count`: its lambdas, its body against its lifted type, and the type of its recursive argument.
    #[cycle(infer)]
    fn definition_rule(
        &self,
        alloc: Global,
        under: &Ctx,
        count: u32,
        number: u32,
        def: &Def,
        draft: &mut Draft,
    ) -> Result<(), Halt>
        requires nest { self.now.maker.room + draft.old.meter.nest ≡ most_nested }
        requires ready { IsReady self.now.maker.env.now under.now }
        ensures makes { Makes (definition_making self.now.maker.env.now self.now.maker.room under.now count number def.now draft.old.meter.account) result draft.old draft.new }
    {
        let Some((inner, domain)) = recursive_domain(alloc, under, def.rarg, &def.body)? else {
            return Err(Halt::Broken(Broken::NotEnoughAbstractions { def: number }));
        };
        let ty = def.ty.lift(alloc, count, 0)?;
        self.check(alloc, under, &def.body, &ty, draft)?;
        let whnf = self.maker.whnf(alloc, &inner, &domain, draft)?;
        if !is_of_family(&whnf) {
            return Err(Halt::Broken(Broken::RecArgNotInductive { whnf }));
        }
        Ok(())
    }

    /// Each definition in turn, under all of them.
    #[cycle(infer)]
    fn definitions_rule(
        &self,
        alloc: Global,
        under: &Ctx,
        defs: &Defs,
        draft: &mut Draft,
    ) -> Result<(), Halt>
        requires nest { self.now.maker.room + draft.old.meter.nest ≡ most_nested }
        requires ready { IsReady self.now.maker.env.now under.now }
        ensures makes { Makes (definitions_making self.now.maker.env.now self.now.maker.room under.now (length defs.now) 0 defs.now draft.old.meter.account) result draft.old draft.new }
    {
        let items = defs.as_slice();
        let Ok(count) = u32::try_from(items.len()) else {
            return Err(Halt::Stop(Stop::Memory));
        };
        for i in 0..count {
            let def = &items[i as usize];
            self.definition_rule(alloc, under, count, i, def, draft)?;
        }
        Ok(())
    }

    /// A fixpoint has the type of the definition that it names. `fix` is the fixpoint `index` of the definitions.
    #[cycle(infer)]
    pub(crate) fn fix_rule(
        &self,
        alloc: Global,
        ctx: &Ctx,
        fix: &Term,
        defs: &Defs,
        index: u32,
        draft: &mut Draft,
    ) -> Result<Term, Halt>
        requires nest { self.now.maker.room + draft.old.meter.nest ≡ most_nested }
        requires ready { IsReady self.now.maker.env.now ctx.now }
        requires whole { tree_of (Fix defs.now index) ≡ fix.now }
        requires formed { IsFormed fix.now }
        ensures makes { Makes (fix_making self.now.maker.env.now self.now.maker.room ctx.now index defs.now draft.old.meter.account) result draft.old draft.new }
    {
        let under = self.types_rule(alloc, ctx, defs, draft)?;
        self.definitions_rule(alloc, &under, defs, draft)?;
        self.guarder
            .fix(alloc, self.maker.env, ctx, fix, &mut draft.meter)?;
        definition_type(defs, index)
    }
}

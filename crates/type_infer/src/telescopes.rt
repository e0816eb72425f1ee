//! Telescopes: the sorts of their entries, and terms against their types.
ghost use Rattle.std.specs.Prelude.{◌≡◌, ◌+◌, IfOk, length};
ghost use Rattle.pc_terms.specs.Syntax.{Rel};
ghost use Rattle.calculus_rules.specs.Context.{extend};
ghost use Rattle.pc_rules.specs.Entailment.{test_of};
ghost use Rattle.pc_rules.specs.Follows.{Follows};
ghost use Rattle.pc_rules.specs.WellCounted.{AreCounted};
ghost use Rattle.pc_rules.specs.DirectedComparison.{compare};
ghost use Rattle.pc_rules.specs.DirectedTyping.{infer, check_all};
ghost use Rattle.pc_rules.specs.DirectedRun.{most_nested};
ghost use Rattle.type_infer.specs.Entering.{entries_entered};
ghost use Rattle.type_infer.specs.Ready.{IsReady};

use crate::inference::Inference;
use calculus_rules::entry::Entry;
use known_types::sited::Sited;
use pc_rules::context::Ctx;
use pc_rules::converter::Converter;
use pc_rules::environment::Env;
use pc_rules::guarder::Guarder;
use pc_rules::meter::Meter;
use pc_rules::reducer::Reducer;
use pc_rules::stop::Halt;
use pc_terms::lists::Telescope;
use pc_terms::term::Terms;
use std::alloc::Global;

impl<R: Reducer + Drop, C: Converter + Drop, G: Guarder + Drop> Inference<R, C, G> {
    /// The context with the entries of a telescope, of which each has a sort under those before it.
    #[cycle(infer)]
    pub(crate) fn entered<S: Sited>(
        &self,
        alloc: Global,
        env: &Env,
        ctx: &Ctx,
        site: &S,
        room: u32,
        entries: &Telescope,
        m: &mut Meter,
    ) -> Result<Ctx, Halt>
        requires nest { room + m.old.nest ≡ most_nested }
        requires ready { IsReady env.now ctx.now }
        requires site { S.is_of site.now env.now ctx.now }
        ensures follows { Follows (entries_entered env.now (infer env.now (test_of env.now) room) ctx.now entries.now m.old.account) result m.old m.new }
        ensures longer { IfOk result (λ d. d ≡ extend ctx.now entries.now) }
        ensures ready { IfOk result (λ d. IsReady env.now d) }
    {
        let mut inner = ctx.share()?;
        let items = entries.as_slice();
        for i in 0..items.len() {
            let ty = &items[i];
            let within = site.deeper(alloc, env, ctx, &inner);
            self.sorted_at(alloc, env, &inner, &within, room, ty, m)?;
            let entry = Entry::Assumed(ty.share()?);
            inner = inner.extended(alloc, entry)?;
        }
        Ok(inner)
    }

    /// Terms against a telescope: each against its type at the terms before it.
    #[cycle(infer)]
    pub(crate) fn check_all<S: Sited>(
        &self,
        alloc: Global,
        env: &Env,
        ctx: &Ctx,
        site: &S,
        room: u32,
        terms: &Terms,
        telescope: &Telescope,
        m: &mut Meter,
    ) -> Result<(), Halt>
        requires nest { room + m.old.nest ≡ most_nested }
        requires ready { IsReady env.now ctx.now }
        requires site { S.is_of site.now env.now ctx.now }
        requires counts { length terms.now ≡ length telescope.now }
        ensures follows { Follows (check_all env.now (infer env.now (test_of env.now) room) (compare env.now (test_of env.now) room) ctx.now Rel terms.now telescope.now m.old.account) result m.old m.new }
        ensures counted { IfOk result (λ _. AreCounted env.now terms.now) }
    {
        let listed = terms.as_slice();
        let types = telescope.as_slice();
        let mut before = Terms::new(alloc);
        for i in 0..listed.len() {
            let term = &listed[i];
            let ty = types[i].subst_list(alloc, &before)?;
            self.check_at(alloc, env, ctx, site, room, term, &ty, m)?;
            before.push(term.share()?)?;
        }
        Ok(())
    }
}

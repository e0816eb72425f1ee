//! Fixpoints: rule 11.
ghost use Rattle.std.specs.Prelude.{◌≡◌, ◌+◌, IfOk, IfErr, MatchOption, None, Some, length, slice_get};
ghost use Rattle.pc_terms.specs.Formed.{IsFormed};
ghost use Rattle.pc_terms.specs.Lists.{rargs_of, types_of, bodies_of};
ghost use Rattle.pc_terms.specs.Syntax.{head, term_at, list_of};
ghost use Rattle.pc_terms.specs.View.{tree_of};
ghost use Rattle.pc_terms.specs.declared.term.Node.TheVariants.{Fix};
ghost use Rattle.pc_rules.specs.declared.meter.Account.{Account};
ghost use Rattle.pc_rules.specs.declared.stop.Stop.TheVariants.{Memory};
ghost use Rattle.pc_rules.specs.Entailment.{test_of};
ghost use Rattle.pc_rules.specs.Follows.{Answers, Follows};
ghost use Rattle.calculus_rules.specs.Instances.{definitions};
ghost use Rattle.pc_rules.specs.DirectedComparison.{compare};
ghost use Rattle.pc_rules.specs.DirectedTyping.{infer, types_rule, recursive_domain, is_a_family, definition_rule, definitions_rule, definition_type, fix_rule};
ghost use Rattle.pc_rules.specs.DirectedRun.{most_nested};
ghost use Rattle.type_infer.specs.Ready.{IsReady, done_with};

use crate::declared::bad_number;
use crate::inference::Inference;
use calculus_rules::entry::Entry;
use known_types::sited::Sited;
use pc_rules::broken::Broken;
use pc_rules::context::Ctx;
use pc_rules::converter::Converter;
use pc_rules::environment::Env;
use pc_rules::guarder::Guarder;
use pc_rules::meter::Meter;
use pc_rules::reducer::Reducer;
use pc_rules::stop::{Halt, Stop};
use pc_terms::term::{Def, Defs, Node, Term};
use std::alloc::Global;

/// The domain of lambda `rarg` (from 0, the outermost) of a body that stands in the context, with the context that this domain stands in; none
/// where the body does not begin with `rarg + 1` lambdas. Only `Memory`.
pub fn recursive_domain(
    alloc: Global,
    ctx: &Ctx,
    rarg: u32,
    body: &Term,
) -> Result<Option<(Ctx, Term)>, Stop>
    ensures found { IfOk result (λ o. o ≡ recursive_domain ctx.now rarg body.now) }
    ensures only_memory { IfErr result (λ s. s ≡ Memory) }
{
    match body.view() {
        Node::Lambda(domain, inner) => {
            if rarg == 0 {
                return Ok(Some((ctx.share()?, domain.share()?)));
            }
            let under = ctx.extended(alloc, Entry::Assumed(domain.share()?))?;
            recursive_domain(alloc, &under, rarg - 1, inner)
        }
        _ => Ok(None),
    }
}

/// Whether the head of a term, under all its arguments, is a family.
pub fn is_of_family(t: &Term) -> bool
    ensures is { result ≡ is_a_family (head t.now) }
{
    match t.view() {
        Node::App(function, _) => is_of_family(function),
        Node::Ind(_) => true,
        _ => false,
    }
}

/// Definition `i` (from 0); none where there are not so many.
fn definition_at(defs: &Defs, i: u32) -> Option<&Def>
    ensures at { MatchOption result (slice_get defs.now i ≡ None) (λ d. slice_get defs.now i ≡ Some d.now) }
{
    defs.as_slice().get(i as usize)
}

/// The type of definition `i` (from 0), as it is written, so in the context of the fixpoint. `BadNumber` where there are not so many definitions.
pub fn definition_type(defs: &Defs, i: u32) -> Result<Term, Halt>
    ensures answers { (u : Account) → Answers (definition_type i (length (rargs_of defs.now)) (term_at (types_of defs.now) i) u) result u }
{
    match definition_at(defs, i) {
        Some(def) => Ok(def.ty.share()?),
        None => Err(bad_number(i, defs.len())),
    }
}

impl<R: Reducer + Drop, C: Converter + Drop, G: Guarder + Drop> Inference<R, C, G> {
    /// The sort of each definition's type, lifted, under the definitions before it. Gives the context under all definitions.
    #[cycle(infer)]
    fn types_rule<S: Sited>(
        &self,
        alloc: Global,
        env: &Env,
        ctx: &Ctx,
        site: &S,
        room: u32,
        defs: &Defs,
        m: &mut Meter,
    ) -> Result<Ctx, Halt>
        requires nest { room + m.old.nest ≡ most_nested }
        requires ready { IsReady env.now ctx.now }
        requires site { S.is_of site.now env.now ctx.now }
        ensures follows { Follows (types_rule env.now (infer env.now (test_of env.now) room) ctx.now 0 (list_of (types_of defs.now)) m.old.account) (done_with result) m.old m.new }
        ensures under { IfOk result (λ d. d ≡ definitions ctx.now 0 (types_of defs.now)) }
        ensures inner { IfOk result (λ d. IsReady env.now d) }
    {
        let items = defs.as_slice();
        let Ok(count) = u32::try_from(items.len()) else {
            return Err(Halt::Stop(Stop::Memory));
        };
        let mut under = ctx.share()?;
        for i in 0..count {
            let ty = items[i as usize].ty.lift(alloc, i, 0)?;
            let within = site.deeper(alloc, env, ctx, &under);
            self.sorted_at(alloc, env, &under, &within, room, &ty, m)?;
            under = under.extended(alloc, Entry::Assumed(ty))?;
        }
        Ok(under)
    }

    /// Definition `number` (from 0) of `count`: its lambdas, its body against its lifted type, and the type of its recursive argument.
    #[cycle(infer)]
    fn definition_rule<S: Sited>(
        &self,
        alloc: Global,
        env: &Env,
        under: &Ctx,
        site: &S,
        room: u32,
        count: u32,
        number: u32,
        def: &Def,
        m: &mut Meter,
    ) -> Result<(), Halt>
        requires nest { room + m.old.nest ≡ most_nested }
        requires ready { IsReady env.now under.now }
        requires site { S.is_of site.now env.now under.now }
        ensures follows { Follows (definition_rule env.now (infer env.now (test_of env.now) room) (compare env.now (test_of env.now) room) under.now count number def.now.rarg def.now.ty def.now.body m.old.account) result m.old m.new }
    {
        let Some((inner, domain)) = recursive_domain(alloc, under, def.rarg, &def.body)? else {
            return Err(Halt::Broken(Broken::NotEnoughAbstractions { def: number }));
        };
        let ty = def.ty.lift(alloc, count, 0)?;
        self.check_at(alloc, env, under, site, room, &def.body, &ty, m)?;
        let whnf = self.reducer.whnf(alloc, env, &inner, &domain, m)?;
        if !is_of_family(&whnf) {
            return Err(Halt::Broken(Broken::RecArgNotInductive { whnf }));
        }
        Ok(())
    }

    /// Each definition in turn, under all of them.
    #[cycle(infer)]
    fn definitions_rule<S: Sited>(
        &self,
        alloc: Global,
        env: &Env,
        under: &Ctx,
        site: &S,
        room: u32,
        defs: &Defs,
        m: &mut Meter,
    ) -> Result<(), Halt>
        requires nest { room + m.old.nest ≡ most_nested }
        requires ready { IsReady env.now under.now }
        requires site { S.is_of site.now env.now under.now }
        ensures follows { Follows (definitions_rule env.now (infer env.now (test_of env.now) room) (compare env.now (test_of env.now) room) under.now (length (rargs_of defs.now)) 0 (rargs_of defs.now) (list_of (types_of defs.now)) (list_of (bodies_of (length defs.now) defs.now)) m.old.account) result m.old m.new }
    {
        let items = defs.as_slice();
        let Ok(count) = u32::try_from(items.len()) else {
            return Err(Halt::Stop(Stop::Memory));
        };
        for i in 0..count {
            self.definition_rule(
                alloc,
                env,
                under,
                site,
                room,
                count,
                i,
                &items[i as usize],
                m,
            )?;
        }
        Ok(())
    }

    /// A fixpoint has the type of the definition that it names. `fix` is the fixpoint `index` of the definitions.
    #[cycle(infer)]
    pub(crate) fn fix_rule<S: Sited>(
        &self,
        alloc: Global,
        env: &Env,
        ctx: &Ctx,
        site: &S,
        room: u32,
        fix: &Term,
        defs: &Defs,
        index: u32,
        m: &mut Meter,
    ) -> Result<Term, Halt>
        requires nest { room + m.old.nest ≡ most_nested }
        requires ready { IsReady env.now ctx.now }
        requires site { S.is_of site.now env.now ctx.now }
        requires whole { tree_of (Fix defs.now index) ≡ fix.now }
        requires formed { IsFormed fix.now }
        ensures follows { Follows (fix_rule env.now (infer env.now (test_of env.now) room) (compare env.now (test_of env.now) room) ctx.now index (rargs_of defs.now) (types_of defs.now) (bodies_of (length defs.now) defs.now) m.old.account) result m.old m.new }
    {
        let under = self.types_rule(alloc, env, ctx, site, room, defs, m)?;
        let within = site.deeper(alloc, env, ctx, &under);
        self.definitions_rule(alloc, env, &under, &within, room, defs, m)?;
        self.guarder.fix(alloc, env, ctx, fix, m)?;
        definition_type(defs, index)
    }
}

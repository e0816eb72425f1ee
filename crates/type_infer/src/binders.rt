//! Products, lambdas and lets: rules 3 to 5.
ghost use Rattle.std.specs.Prelude.{◌≡◌, ◌+◌};
ghost use Rattle.pc_rules.specs.Entailment.{test_of};
ghost use Rattle.pc_rules.specs.Follows.{Follows};
ghost use Rattle.pc_rules.specs.DirectedComparison.{compare};
ghost use Rattle.pc_rules.specs.DirectedTyping.{infer, prod_rule, lambda_rule, let_rule};
ghost use Rattle.pc_rules.specs.DirectedRun.{most_nested};
ghost use Rattle.type_infer.specs.Ready.{IsReady};

use crate::inference::Inference;
use calculus_rules::entry::Entry;
use known_types::sited::Sited;
use pc_rules::context::Ctx;
use pc_rules::converter::Converter;
use pc_rules::environment::Env;
use pc_rules::guarder::Guarder;
use pc_rules::meter::Meter;
use pc_rules::reducer::Reducer;
use pc_rules::stop::Halt;
use pc_terms::term::{Node, Term};
use std::alloc::Global;
use universe_levels::sort::Sort;

impl<R: Reducer + Drop, C: Converter + Drop, G: Guarder + Drop> Inference<R, C, G> {
    /// A product has the product sort of its domain's sort and of its codomain's, which is under the domain.
    #[cycle(infer)]
    pub(crate) fn prod_rule<S: Sited>(
        &self,
        alloc: Global,
        env: &Env,
        ctx: &Ctx,
        site: &S,
        room: u32,
        domain: &Term,
        codomain: &Term,
        m: &mut Meter,
    ) -> Result<Term, Halt>
        requires nest { room + m.old.nest ≡ most_nested }
        requires ready { IsReady env.now ctx.now }
        requires site { S.is_of site.now env.now ctx.now }
        ensures follows { Follows (prod_rule env.now (infer env.now (test_of env.now) room) ctx.now domain.now codomain.now m.old.account) result m.old m.new }
    {
        let low = self.sort_at(alloc, env, ctx, site, room, domain, m)?;
        let under = ctx.extended(alloc, Entry::Assumed(domain.share()?))?;
        let within = site.deeper(alloc, env, ctx, &under);
        let high = self.sort_at(alloc, env, &under, &within, room, codomain, m)?;
        let sort = Sort::product(alloc, &low, &high)?;
        Ok(Term::make(alloc, Node::Sort(sort))?)
    }

    /// A lambda has the product of its domain and of its body's type, where the domain has a sort.
    #[cycle(infer)]
    pub(crate) fn lambda_rule<S: Sited>(
        &self,
        alloc: Global,
        env: &Env,
        ctx: &Ctx,
        site: &S,
        room: u32,
        domain: &Term,
        body: &Term,
        m: &mut Meter,
    ) -> Result<Term, Halt>
        requires nest { room + m.old.nest ≡ most_nested }
        requires ready { IsReady env.now ctx.now }
        requires site { S.is_of site.now env.now ctx.now }
        ensures follows { Follows (lambda_rule env.now (infer env.now (test_of env.now) room) ctx.now domain.now body.now m.old.account) result m.old m.new }
    {
        self.sorted_at(alloc, env, ctx, site, room, domain, m)?;
        let under = ctx.extended(alloc, Entry::Assumed(domain.share()?))?;
        let within = site.deeper(alloc, env, ctx, &under);
        let ty = self.infer_at(alloc, env, &under, &within, room, body, m)?;
        Ok(Term::make(alloc, Node::Prod(domain.share()?, ty))?)
    }

    /// A let has the let of its value and of its body's type, where the value has the written type, and that has a sort.
    #[cycle(infer)]
    pub(crate) fn let_rule<S: Sited>(
        &self,
        alloc: Global,
        env: &Env,
        ctx: &Ctx,
        site: &S,
        room: u32,
        value: &Term,
        ty: &Term,
        body: &Term,
        m: &mut Meter,
    ) -> Result<Term, Halt>
        requires nest { room + m.old.nest ≡ most_nested }
        requires ready { IsReady env.now ctx.now }
        requires site { S.is_of site.now env.now ctx.now }
        ensures follows { Follows (let_rule env.now (infer env.now (test_of env.now) room) (compare env.now (test_of env.now) room) ctx.now value.now ty.now body.now m.old.account) result m.old m.new }
    {
        self.sorted_at(alloc, env, ctx, site, room, ty, m)?;
        self.check_at(alloc, env, ctx, site, room, value, ty, m)?;
        let entry = Entry::Defined {
            value: value.share()?,
            ty: ty.share()?,
        };
        let under = ctx.extended(alloc, entry)?;
        let within = site.deeper(alloc, env, ctx, &under);
        let found = self.infer_at(alloc, env, &under, &within, room, body, m)?;
        let made = Term::make(alloc, Node::LetIn(value.share()?, ty.share()?, found))?;
        Ok(made)
    }
}

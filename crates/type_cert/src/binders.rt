//! Products, lambdas and lets: rules 3 to 5.
ghost use Rattle.std.specs.Prelude.{◌≡◌, ◌+◌};
ghost use Rattle.pc_rules.specs.DirectedRun.{most_nested};
ghost use Rattle.type_infer.specs.Ready.{IsReady};
ghost use Rattle.type_cert.specs.Retraces.{Retraces, stand};
ghost use Rattle.type_cert.specs.Going.{prod_walk, lambda_walk, let_walk};

use crate::halt::WalkHalt;
use crate::sorts::sort_over;
use crate::trail::Trail;
use crate::typing::TypeWalk;
use calculus_rules::entry::Entry;
use pc_rules::context::Ctx;
use pc_rules::guarder::Guarder;
use pc_terms::term::{Node, Term};
use std::alloc::Global;

impl<G: Guarder> TypeWalk<'_, G> {
    /// A product has the product sort of its domain's sort and of its codomain's, which is under the domain.
    #[cycle(infer)]
    pub(crate) fn prod_rule(
        &self,
        alloc: Global,
        ctx: &Ctx,
        domain: &Term,
        codomain: &Term,
        trail: &mut Trail,
    ) -> Result<Term, WalkHalt>
        requires nest { self.now.verifier.room + trail.old.meter.nest ≡ most_nested }
        requires ready { IsReady self.now.verifier.env.now ctx.now }
        ensures retraces { Retraces (prod_walk self.now.verifier ctx.now domain.now codomain.now (stand trail.old)) result trail.old trail.new }
    {
        let low = self.sort_term(alloc, ctx, domain, trail)?;
        let under = ctx.extended(alloc, Entry::Assumed(domain.share()?))?;
        let high = self.sort_term(alloc, &under, codomain, trail)?;
        let sort = sort_over(alloc, &low, &high)?;
        Ok(Term::make(alloc, Node::Sort(sort))?)
    }

    /// A lambda has the product of its domain and of its body's type, where the domain has a sort.
    #[cycle(infer)]
    pub(crate) fn lambda_rule(
        &self,
        alloc: Global,
        ctx: &Ctx,
        domain: &Term,
        body: &Term,
        trail: &mut Trail,
    ) -> Result<Term, WalkHalt>
        requires nest { self.now.verifier.room + trail.old.meter.nest ≡ most_nested }
        requires ready { IsReady self.now.verifier.env.now ctx.now }
        ensures retraces { Retraces (lambda_walk self.now.verifier ctx.now domain.now body.now (stand trail.old)) result trail.old trail.new }
    {
        self.sorted(alloc, ctx, domain, trail)?;
        let under = ctx.extended(alloc, Entry::Assumed(domain.share()?))?;
        let ty = self.infer(alloc, &under, body, trail)?;
        Ok(Term::make(alloc, Node::Prod(domain.share()?, ty))?)
    }

    /// A let has the let of its value and of its body's type, where the value has the written type, and that has a sort.
    #[cycle(infer)]
    pub(crate) fn let_rule(
        &self,
        alloc: Global,
        ctx: &Ctx,
        value: &Term,
        ty: &Term,
        body: &Term,
        trail: &mut Trail,
    ) -> Result<Term, WalkHalt>
        requires nest { self.now.verifier.room + trail.old.meter.nest ≡ most_nested }
        requires ready { IsReady self.now.verifier.env.now ctx.now }
        ensures retraces { Retraces (let_walk self.now.verifier ctx.now value.now ty.now body.now (stand trail.old)) result trail.old trail.new }
    {
        self.sorted(alloc, ctx, ty, trail)?;
        self.check(alloc, ctx, value, ty, trail)?;
        let entry = Entry::Defined {
            value: value.share()?,
            ty: ty.share()?,
        };
        let under = ctx.extended(alloc, entry)?;
        let found = self.infer(alloc, &under, body, trail)?;
        let made = Term::make(alloc, Node::LetIn(value.share()?, ty.share()?, found))?;
        Ok(made)
    }
}

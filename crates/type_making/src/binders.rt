//! Products, lambdas and lets: rules 3 to 5.
ghost use Rattle.std.specs.Prelude.{◌≡◌, ◌+◌};
ghost use Rattle.pc_rules.specs.DirectedRun.{most_nested};
ghost use Rattle.type_infer.specs.Ready.{IsReady};
ghost use Rattle.script_making.specs.Makes.{Makes};
ghost use Rattle.type_making.specs.Making.{prod_making, lambda_making, let_making};

use crate::typing::TypeMaker;
use calculus_rules::entry::Entry;
use pc_rules::context::Ctx;
use pc_rules::guarder::Guarder;
use pc_rules::reducer::Reducer;
use pc_rules::stop::Halt;
use pc_terms::term::{Node, Term};
use script_making::draft::Draft;
use std::alloc::Global;
use universe_levels::sort::Sort;

impl<R: Reducer, G: Guarder> TypeMaker<'_, R, G> {
    /// A product has the product sort of its domain's sort and of its codomain's, which is under the domain.
    #[cycle(infer)]
    pub(crate) fn prod_rule(
        &self,
        alloc: Global,
        ctx: &Ctx,
        domain: &Term,
        codomain: &Term,
        draft: &mut Draft,
    ) -> Result<Term, Halt>
        requires nest { self.now.maker.room + draft.old.meter.nest ≡ most_nested }
        requires ready { IsReady self.now.maker.env.now ctx.now }
        ensures makes { Makes (prod_making self.now.maker.env.now self.now.maker.room ctx.now domain.now codomain.now draft.old.meter.account) result draft.old draft.new }
    {
        let low = self.sort_of(alloc, ctx, domain, draft)?;
        let under = ctx.extended(alloc, Entry::Assumed(domain.share()?))?;
        let high = self.sort_of(alloc, &under, codomain, draft)?;
        let sort = Sort::product(alloc, &low, &high)?;
        Ok(Term::make(alloc, Node::Sort(sort))?)
    }

    /// A lambda has the product of its domain and of its body's type, where the domain has a sort.
    #[cycle(infer)]
    pub(crate) fn lambda_rule(
        &self,
        alloc: Global,
        ctx: &Ctx,
        domain: &Term,
        body: &Term,
        draft: &mut Draft,
    ) -> Result<Term, Halt>
        requires nest { self.now.maker.room + draft.old.meter.nest ≡ most_nested }
        requires ready { IsReady self.now.maker.env.now ctx.now }
        ensures makes { Makes (lambda_making self.now.maker.env.now self.now.maker.room ctx.now domain.now body.now draft.old.meter.account) result draft.old draft.new }
    {
        let _sort = self.sort_of(alloc, ctx, domain, draft)?;
        let under = ctx.extended(alloc, Entry::Assumed(domain.share()?))?;
        let ty = self.infer(alloc, &under, body, draft)?;
        Ok(Term::make(alloc, Node::Prod(domain.share()?, ty))?)
    }

    /// A let has the let of its value and of its body's type, where the value has the written type, and that has a sort.
    #[cycle(infer)]
    pub(crate) fn let_rule(
        &self,
        alloc: Global,
        ctx: &Ctx,
        value: &Term,
        ty: &Term,
        body: &Term,
        draft: &mut Draft,
    ) -> Result<Term, Halt>
        requires nest { self.now.maker.room + draft.old.meter.nest ≡ most_nested }
        requires ready { IsReady self.now.maker.env.now ctx.now }
        ensures makes { Makes (let_making self.now.maker.env.now self.now.maker.room ctx.now value.now ty.now body.now draft.old.meter.account) result draft.old draft.new }
    {
        let _sort = self.sort_of(alloc, ctx, ty, draft)?;
        self.check(alloc, ctx, value, ty, draft)?;
        let entry = Entry::Defined {
            value: value.share()?,
            ty: ty.share()?,
        };
        let under = ctx.extended(alloc, entry)?;
        let found = self.infer(alloc, &under, body, draft)?;
        let made = Term::make(alloc, Node::LetIn(value.share()?, ty.share()?, found))?;
        Ok(made)
    }
}

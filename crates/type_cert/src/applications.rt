//! Applications: rule 6, which puts the arguments in all at once where the types of functions are written as products (`type_infer`: `pending`).
ghost use Rattle.std.specs.Prelude.{◌≡◌, ◌+◌, Ok, IfOk, IfErr};
ghost use Rattle.pc_rules.specs.DirectedRun.{most_nested};
ghost use Rattle.cert_rules.specs.Walk.{Walk, walk_on};
ghost use Rattle.type_infer.specs.Ready.{IsReady};
ghost use Rattle.type_cert.specs.Retraces.{Retraces, stand};
ghost use Rattle.type_cert.specs.Going.{app_walk, checking, inferring};
ghost use Rattle.type_cert.specs.PendingWalk.{RetracesPending, HaltsMaking, reduced_walk};
ghost use Rattle.pc_terms.specs.Syntax.{App, Term, subst_list};
ghost use Rattle.type_cert.specs.declared.trail.Trail.{Trail};

use crate::halt::WalkHalt;
use crate::numbers::reduced;
use crate::trail::{Trail, passes_no_step};
use crate::typing::TypeWalk;
use crate::verifier::Verifier;
use pc_rules::context::Ctx;
use pc_rules::guarder::Guarder;
use pc_rules::stop::Stop;
use pc_terms::term::{Node, Term};
use std::alloc::Global;
use type_infer::pending::PendingType;

impl<G: Guarder> TypeWalk<'_, G> {
    /// An application has the codomain of its function's type, after the steps of a number, with the argument put in. Refused at that number
    /// where it comes to no product.
    #[cycle(infer)]
    pub(crate) fn app_rule(
        &self,
        alloc: Global,
        ctx: &Ctx,
        function: &Term,
        argument: &Term,
        trail: &mut Trail,
    ) -> Result<Term, WalkHalt>
        requires nest { self.now.verifier.room + trail.old.meter.nest ≡ most_nested }
        requires ready { IsReady self.now.verifier.env.now ctx.now }
        ensures retraces { Retraces (app_walk self.now.verifier ctx.now function.now argument.now (stand trail.old)) result trail.old trail.new }
    {
        let ty = self.application_type(alloc, ctx, function, argument, trail)?;
        Ok(ty.whole(alloc)?)
    }

    /// The same, of which arguments are still to be put in.
    #[cycle(infer)]
    fn application_type(
        &self,
        alloc: Global,
        ctx: &Ctx,
        function: &Term,
        argument: &Term,
        trail: &mut Trail,
    ) -> Result<PendingType, WalkHalt>
        requires nest { self.now.verifier.room + trail.old.meter.nest ≡ most_nested }
        requires ready { IsReady self.now.verifier.env.now ctx.now }
        ensures retraces { RetracesPending (app_walk self.now.verifier ctx.now function.now argument.now (stand trail.old)) result trail.old trail.new }
    {
        let ty = self.function_type(alloc, ctx, function, trail)?;
        match ty.base.view() {
            Node::Prod(domain, codomain) => {
                if !passes_no_step(self.verifier.cert, trail) {
                    return self.whole_type(alloc, ctx, &ty, argument, trail);
                }
                self.check_instance(alloc, ctx, argument, &ty, domain, trail)?;
                let base = codomain.share()?;
                Ok(ty.and(base, argument)?)
            }
            _ => self.whole_type(alloc, ctx, &ty, argument, trail),
        }
    }

    /// An argument against a domain in which arguments are still to be put: these are put in only where the argument's type isn't seen to be that.
    #[cycle(infer)]
    fn check_instance(
        &self,
        alloc: Global,
        ctx: &Ctx,
        argument: &Term,
        ty: &PendingType,
        domain: &Term,
        trail: &mut Trail,
    ) -> Result<(), WalkHalt>
        requires nest { self.now.verifier.room + trail.old.meter.nest ≡ most_nested }
        requires ready { IsReady self.now.verifier.env.now ctx.now }
        ensures ok { IfOk result (λ _. Retraces (checking self.now.verifier ctx.now argument.now (subst_list 0 ty.now.arguments domain.now) (stand trail.old)) (Ok tt) trail.old trail.new) }
        ensures err { IfErr result (λ h. HaltsMaking (subst_list 0 ty.now.arguments domain.now) (checking self.now.verifier ctx.now argument.now (subst_list 0 ty.now.arguments domain.now) (stand trail.old)) h trail.old trail.new) }
    {
        if self.verifier.fits_leaf(ctx, argument, ty, domain, trail) {
            return Ok(());
        }
        let found = self.infer(alloc, ctx, argument, trail)?;
        if self.verifier.fits_instance(&found, ty, domain, trail) {
            return Ok(());
        }
        let wanted = ty.instance(alloc, domain)?;
        self.fits(alloc, ctx, &found, &wanted, trail)
    }

    /// The type of an application whose function's type is put together first.
    #[cycle(infer)]
    fn whole_type(
        &self,
        alloc: Global,
        ctx: &Ctx,
        ty: &PendingType,
        argument: &Term,
        trail: &mut Trail,
    ) -> Result<PendingType, WalkHalt>
        requires nest { self.now.verifier.room + trail.old.meter.nest ≡ most_nested }
        requires ready { IsReady self.now.verifier.env.now ctx.now }
        ensures retraces { (d : Walk Term) (t : Trail) → RetracesPending d (Ok ty.now) t trail.old → RetracesPending (walk_on d (reduced_walk self.now.verifier ctx.now argument.now)) result t trail.new }
    {
        let whole = ty.whole(alloc)?;
        self.reduced_type(alloc, ctx, whole, argument, trail)
    }

    /// The type of an application by what its function's type comes to after the steps of a number. Refused at that number where it comes to no product.
    #[cycle(infer)]
    fn reduced_type(
        &self,
        alloc: Global,
        ctx: &Ctx,
        ty: Term,
        argument: &Term,
        trail: &mut Trail,
    ) -> Result<PendingType, WalkHalt>
        requires nest { self.now.verifier.room + trail.old.meter.nest ≡ most_nested }
        requires ready { IsReady self.now.verifier.env.now ctx.now }
        ensures retraces { RetracesPending (reduced_walk self.now.verifier ctx.now argument.now ty (stand trail.old)) result trail.old trail.new }
    {
        let item = trail.at;
        let (count, found) = reduced(alloc, &self.verifier, ctx, ty, trail)?;
        match found.view() {
            Node::Prod(domain, codomain) => {
                self.retype(alloc, ctx, count, &found, trail)?;
                self.check(alloc, ctx, argument, domain, trail)?;
                Ok(PendingType::of_one(alloc, codomain, argument)?)
            }
            _ => Err(WalkHalt::Barred { item }),
        }
    }

    /// The type of a function, of which arguments are still to be put in where it is an application itself.
    #[cycle(infer)]
    fn function_type(
        &self,
        alloc: Global,
        ctx: &Ctx,
        t: &Term,
        trail: &mut Trail,
    ) -> Result<PendingType, WalkHalt>
        requires nest { self.now.verifier.room + trail.old.meter.nest ≡ most_nested }
        requires ready { IsReady self.now.verifier.env.now ctx.now }
        ensures retraces { RetracesPending (inferring self.now.verifier ctx.now t.now (stand trail.old)) result trail.old trail.new }
    {
        match t.view() {
            Node::App(f, a) => self.inner_type(alloc, ctx, f, a, trail),
            Node::Const(name) => match self.verifier.constant_head(*name, trail) {
                Some(ty) => Ok(PendingType::of(alloc, ty)),
                None => self.inferred_type(alloc, ctx, t, trail),
            },
            _ => self.inferred_type(alloc, ctx, t, trail),
        }
    }

    /// The type of a function that is no application.
    #[cycle(infer)]
    fn inferred_type(
        &self,
        alloc: Global,
        ctx: &Ctx,
        t: &Term,
        trail: &mut Trail,
    ) -> Result<PendingType, WalkHalt>
        requires nest { self.now.verifier.room + trail.old.meter.nest ≡ most_nested }
        requires ready { IsReady self.now.verifier.env.now ctx.now }
        ensures retraces { RetracesPending (inferring self.now.verifier ctx.now t.now (stand trail.old)) result trail.old trail.new }
    {
        let ty = self.infer(alloc, ctx, t, trail)?;
        Ok(PendingType::of(alloc, ty))
    }

    /// The type of an application that is a function: a unit, one more rule that stands, and the rule.
    #[cycle(infer)]
    fn inner_type(
        &self,
        alloc: Global,
        ctx: &Ctx,
        function: &Term,
        argument: &Term,
        trail: &mut Trail,
    ) -> Result<PendingType, WalkHalt>
        requires nest { self.now.verifier.room + trail.old.meter.nest ≡ most_nested }
        requires ready { IsReady self.now.verifier.env.now ctx.now }
        ensures retraces { RetracesPending (inferring self.now.verifier ctx.now (App function.now argument.now) (stand trail.old)) result trail.old trail.new }
    {
        if !trail.meter.tick() {
            return Err(WalkHalt::Stop(Stop::Spent));
        }
        if !trail.meter.enter() {
            return Err(WalkHalt::Stop(Stop::TooDeep));
        }
        let inner = TypeWalk {
            verifier: Verifier {
                cert: self.verifier.cert,
                env: self.verifier.env,
                room: self.verifier.room - 1,
            },
            guarder: self.guarder,
            made: self.made,
        };
        let answer = inner.application_type(alloc, ctx, function, argument, trail);
        trail.meter.leave();
        answer
    }
}

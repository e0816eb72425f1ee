//! The certified walk of typing: the unit of each rule, and which rule a term has.
ghost use Rattle.std.specs.Prelude.{◌≡◌, ◌+◌, IfOk};
ghost use Rattle.pc_rules.specs.DirectedRun.{most_nested};
ghost use Rattle.rule_laws.specs.Inference.{IsInferred};
ghost use Rattle.type_infer.specs.Ready.{IsReady};
ghost use Rattle.type_cert.specs.Retraces.{Retraces, stand};
ghost use Rattle.type_cert.specs.Going.{inferring, rule_walk};

use crate::halt::{WalkHalt, at_item};
use crate::trail::Trail;
use crate::verifier::Verifier;
use pc_rules::context::Ctx;
use pc_rules::guarder::Guarder;
use pc_rules::stop::Stop;
use pc_terms::term::{Node, Term};
use std::alloc::Global;
use type_infer::declared::{const_rule, constructor_rule, family_rule};
use type_infer::leaves::{rel_rule, sort_rule};
use type_infer::made_types::MadeTypes;

/// What the walk of typing goes along: a certificate with an environment, what judges fixpoints, and the types of families and constructors that were made.
#[derive(Drop)]
pub struct TypeWalk<'a, G> {
    pub verifier: Verifier<'a>,
    pub guarder: &'a G,
    pub made: &'a MadeTypes,
}

impl<G: Guarder> TypeWalk<'_, G> {
    /// A type of a term (PCUIC, typing): a unit, one more rule that stands, and the rule.
    #[cycle(infer)]
    pub fn infer(
        &self,
        alloc: Global,
        ctx: &Ctx,
        t: &Term,
        trail: &mut Trail,
    ) -> Result<Term, WalkHalt>
        requires nest { self.now.verifier.room + trail.old.meter.nest ≡ most_nested }
        requires ready { IsReady self.now.verifier.env.now ctx.now }
        ensures retraces { Retraces (inferring self.now.verifier ctx.now t.now (stand trail.old)) result trail.old trail.new }
        ensures inferred { IfOk result (λ ty. IsInferred self.now.verifier.env.now ctx.now t.now ty) }
    {
        // Each term in memory is formed.
        let _ = t.view();
        if !trail.meter.tick() {
            return Err(WalkHalt::Stop(Stop::Spent));
        }
        if !trail.meter.enter() {
            return Err(WalkHalt::Stop(Stop::TooDeep));
        }
        let inner = TypeWalk {
            verifier: Verifier {
                cert: self.verifier.cert,
                env: self.verifier.env,
                room: self.verifier.room - 1,
            },
            guarder: self.guarder,
            made: self.made,
        };
        let answer = inner.rule(alloc, ctx, t, trail);
        trail.meter.leave();
        answer
    }

    /// The rule of a term.
    #[cycle(infer)]
    fn rule(&self, alloc: Global, ctx: &Ctx, t: &Term, trail: &mut Trail) -> Result<Term, WalkHalt>
        requires nest { self.now.verifier.room + trail.old.meter.nest ≡ most_nested }
        requires ready { IsReady self.now.verifier.env.now ctx.now }
        ensures retraces { Retraces (rule_walk self.now.verifier ctx.now t.now (stand trail.old)) result trail.old trail.new }
    {
        let env = self.verifier.env;
        let at = trail.at;
        match t.view() {
            Node::Rel(i) => at_item(at, rel_rule(alloc, ctx, *i)),
            Node::Sort(s) => at_item(at, sort_rule(alloc, env, s)),
            Node::Prod(a, b) => self.prod_rule(alloc, ctx, a, b, trail),
            Node::Lambda(a, b) => self.lambda_rule(alloc, ctx, a, b, trail),
            Node::LetIn(b, ty, t) => self.let_rule(alloc, ctx, b, ty, t, trail),
            Node::App(f, a) => self.app_rule(alloc, ctx, f, a, trail),
            Node::Const(k) => at_item(at, const_rule(env, *k)),
            Node::Ind(f) => at_item(at, family_rule(alloc, self.made, env, *f)),
            Node::Construct(f, c) => at_item(at, constructor_rule(alloc, self.made, env, *f, *c)),
            Node::Case(x) => self.case_rule(alloc, ctx, x.get(), trail),
            Node::Fix(ds, i) => self.fix_rule(alloc, ctx, t, ds, *i, trail),
        }
    }
}

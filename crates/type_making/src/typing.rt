//! Inference of types, which writes a certificate: the unit of each rule, and which rule a term has.
ghost use Rattle.std.specs.Prelude.{◌≡◌, ◌+◌, IfOk};
ghost use Rattle.pc_rules.specs.DirectedRun.{most_nested};
ghost use Rattle.rule_laws.specs.Inference.{IsInferred};
ghost use Rattle.type_infer.specs.Ready.{IsReady};
ghost use Rattle.script_making.specs.Makes.{Makes};
ghost use Rattle.type_making.specs.Making.{infer_making, rule_making};

use crate::uses::rule_number;
use pc_rules::context::Ctx;
use pc_rules::guarder::Guarder;
use pc_rules::reducer::Reducer;
use pc_rules::stop::{Halt, Stop};
use pc_terms::term::{Node, Term};
use script_making::draft::Draft;
use script_making::maker::Maker;
use std::alloc::Global;
use type_infer::declared::{const_rule, construct_rule, ind_rule};
use type_infer::leaves::{rel_rule, sort_rule};

/// What types are inferred with while a certificate is written: what makes scripts, and what judges fixpoints.
#[derive(Drop)]
pub struct TypeMaker<'a, R, G> {
    pub maker: Maker<'a, R>,
    pub guarder: &'a G,
}

impl<R: Reducer, G: Guarder> TypeMaker<'_, R, G> {
    /// A type of a term (PCUIC, typing): a unit, one more rule that stands, the note of its use, and the rule.
    #[cycle(infer)]
    pub fn infer(&self, alloc: Global, ctx: &Ctx, t: &Term, draft: &mut Draft) -> Result<Term, Halt>
        requires nest { self.now.maker.room + draft.old.meter.nest ≡ most_nested }
        requires ready { IsReady self.now.maker.env.now ctx.now }
        ensures makes { Makes (infer_making self.now.maker.env.now self.now.maker.room ctx.now t.now draft.old.meter.account) result draft.old draft.new }
        ensures inferred { IfOk result (λ ty. IsInferred self.now.maker.env.now ctx.now t.now ty) }
    {
        if !draft.meter.tick() {
            return Err(Halt::Stop(Stop::Spent));
        }
        if !draft.meter.enter() {
            return Err(Halt::Stop(Stop::TooDeep));
        }
        draft.meter.note(rule_number(t));
        let inner = TypeMaker {
            maker: Maker {
                reducer: self.maker.reducer,
                env: self.maker.env,
                room: self.maker.room - 1,
            },
            guarder: self.guarder,
        };
        let answer = inner.rule(alloc, ctx, t, draft);
        draft.meter.leave();
        answer
    }

    /// The rule of a term.
    #[cycle(infer)]
    fn rule(&self, alloc: Global, ctx: &Ctx, t: &Term, draft: &mut Draft) -> Result<Term, Halt>
        requires nest { self.now.maker.room + draft.old.meter.nest ≡ most_nested }
        requires ready { IsReady self.now.maker.env.now ctx.now }
        ensures makes { Makes (rule_making self.now.maker.env.now self.now.maker.room ctx.now t.now draft.old.meter.account) result draft.old draft.new }
    {
        let env = self.maker.env;
        match t.view() {
            Node::Rel(i) => rel_rule(alloc, ctx, *i),
            Node::Sort(s) => sort_rule(alloc, env, s),
            Node::Prod(a, b) => self.prod_rule(alloc, ctx, a, b, draft),
            Node::Lambda(a, b) => self.lambda_rule(alloc, ctx, a, b, draft),
            Node::LetIn(b, ty, t) => self.let_rule(alloc, ctx, b, ty, t, draft),
            Node::App(f, a) => self.app_rule(alloc, ctx, f, a, draft),
            Node::Const(k) => const_rule(env, *k),
            Node::Ind(f) => ind_rule(alloc, env, *f),
            Node::Construct(f, c) => construct_rule(alloc, env, *f, *c),
            Node::Case(x) => self.case_rule(alloc, ctx, x.get(), draft),
            Node::Fix(ds, i) => self.fix_rule(alloc, ctx, t, ds, *i, draft),
        }
    }
}

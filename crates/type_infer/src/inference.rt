//! Inference of types: the unit of each rule, and which rule a term has.
ghost use Rattle.std.specs.Prelude.{◌≡◌, ◌+◌, ◌≤◌, IfOk};
ghost use Rattle.pc_terms.specs.Formed.{IsFormed};
ghost use Rattle.pc_rules.specs.Entailment.{test_of};
ghost use Rattle.pc_rules.specs.Follows.{Follows};
ghost use Rattle.pc_rules.specs.WellCounted.{IsCounted};
ghost use Rattle.pc_rules.specs.DirectedComparison.{compare};
ghost use Rattle.pc_rules.specs.DirectedTyping.{infer, rule, rule_number};
ghost use Rattle.pc_rules.specs.DirectedRun.{most_nested};
ghost use Rattle.rule_laws.specs.Inference.{IsInferred};
ghost use Rattle.type_infer.specs.Ready.{IsReady};

use crate::declared::{const_rule, constructor_rule, family_rule};
use crate::leaves::{rel_rule, sort_rule};
use crate::made_types::MadeTypes;
use known_types::site::Site;
use known_types::sited::{Nowhere, Sited};
use known_types::typer::SiteTyper;
use pc_rules::context::Ctx;
use pc_rules::converter::Converter;
use pc_rules::environment::Env;
use pc_rules::guarder::Guarder;
use pc_rules::meter::Meter;
use pc_rules::reducer::Reducer;
use pc_rules::stop::{Halt, Stop};
use pc_rules::typer::Typer;
use pc_terms::term::{Node, Term};
use std::alloc::Global;
use universe_levels::sort::Sort;

/// Infers types in the order of the directed rules (PCUIC, typing), with the weak-head normal forms that a reducer gives, the comparison of
/// a converter, and the guard of a guarder.
#[derive(Drop)]
pub struct Inference<R: Drop, C: Drop, G: Drop> {
    pub(crate) reducer: R,
    pub(crate) converter: C,
    pub(crate) guarder: G,
    made: MadeTypes,
}

impl<R: Reducer + Drop, C: Converter + Drop, G: Guarder + Drop> SiteTyper for Inference<R, C, G> {
    fn infer_in(
        &self,
        alloc: Global,
        env: &Env,
        ctx: &Ctx,
        site: &Site<'_>,
        t: &Term,
        m: &mut Meter,
    ) -> Result<Term, Halt> {
        let _ = env.graph();
        self.infer_at(alloc, env, ctx, site, m.room(), t, m)
    }

    fn sort_in(
        &self,
        alloc: Global,
        env: &Env,
        ctx: &Ctx,
        site: &Site<'_>,
        t: &Term,
        m: &mut Meter,
    ) -> Result<Sort, Halt> {
        let _ = env.graph();
        self.sort_at(alloc, env, ctx, site, m.room(), t, m)
    }
}

impl<R: Reducer + Drop, C: Converter + Drop, G: Guarder + Drop> Typer for Inference<R, C, G> {
    fn infer(
        &self,
        alloc: Global,
        env: &Env,
        ctx: &Ctx,
        t: &Term,
        m: &mut Meter,
    ) -> Result<Term, Halt> {
        // The constraints of an environment are consistent.
        let _ = env.graph();
        self.infer_at(alloc, env, ctx, &Nowhere, m.room(), t, m)
    }

    fn sort_of(
        &self,
        alloc: Global,
        env: &Env,
        ctx: &Ctx,
        t: &Term,
        m: &mut Meter,
    ) -> Result<Sort, Halt> {
        let _ = env.graph();
        self.sort_at(alloc, env, ctx, &Nowhere, m.room(), t, m)
    }

    fn check(
        &self,
        alloc: Global,
        env: &Env,
        ctx: &Ctx,
        t: &Term,
        ty: &Term,
        m: &mut Meter,
    ) -> Result<(), Halt> {
        let _ = env.graph();
        self.check_at(alloc, env, ctx, &Nowhere, m.room(), t, ty, m)
    }
}

/// The number of the term's rule.
fn rule_number(t: &Term) -> u8
    ensures is { result ≡ rule_number t.now }
    ensures low { 1 ≤ result }
    ensures high { result ≤ 12 }
    ensures formed { IsFormed t.now }
{
    match t.view() {
        Node::Rel(_) => 1,
        Node::Sort(_) => 2,
        Node::Prod(_, _) => 3,
        Node::Lambda(_, _) => 4,
        Node::LetIn(_, _, _) => 5,
        Node::App(_, _) => 6,
        Node::Const(_) => 7,
        Node::Ind(_) => 8,
        Node::Construct(_, _) => 9,
        Node::Case(_) => 10,
        Node::Fix(_, _) => 11,
    }
}

impl<R: Reducer + Drop, C: Converter + Drop, G: Guarder + Drop> Inference<R, C, G> {
    /// Inference that reduces by `reducer`, compares by `converter` and judges fixpoints by `guarder`. Takes no memory.
    pub fn new(reducer: R, converter: C, guarder: G) -> Inference<R, C, G>
        ensures reducer { result.reducer ≡ reducer }
        ensures converter { result.converter ≡ converter }
        ensures guarder { result.guarder ≡ guarder }
    {
        Inference {
            reducer,
            converter,
            guarder,
            made: MadeTypes::new(),
        }
    }

    /// A type of a term: as it is known, or else inferred. `room` is the number of rules that may still stand in one another.
    #[cycle(infer)]
    pub(crate) fn infer_at<S: Sited>(
        &self,
        alloc: Global,
        env: &Env,
        ctx: &Ctx,
        site: &S,
        room: u32,
        t: &Term,
        m: &mut Meter,
    ) -> Result<Term, Halt>
        requires nest { room + m.old.nest ≡ most_nested }
        requires ready { IsReady env.now ctx.now }
        requires site { S.is_of site.now env.now ctx.now }
        ensures follows { Follows (infer env.now (test_of env.now) room ctx.now t.now m.old.account) result m.old m.new }
        ensures inferred { IfOk result (λ ty. IsInferred env.now ctx.now t.now ty) }
    {
        if let Some(ty) = site.known(room, t, m) {
            return Ok(ty);
        }
        let before = m.account;
        let ty = self.infer_anew(alloc, env, ctx, site, room, t, m)?;
        site.keep(alloc, room, t, &ty, &before, &m.account);
        Ok(ty)
    }

    /// The same, inferred: a unit, one more rule that stands, the note of its use, and the rule.
    #[cycle(infer)]
    fn infer_anew<S: Sited>(
        &self,
        alloc: Global,
        env: &Env,
        ctx: &Ctx,
        site: &S,
        room: u32,
        t: &Term,
        m: &mut Meter,
    ) -> Result<Term, Halt>
        requires nest { room + m.old.nest ≡ most_nested }
        requires ready { IsReady env.now ctx.now }
        requires site { S.is_of site.now env.now ctx.now }
        ensures follows { Follows (infer env.now (test_of env.now) room ctx.now t.now m.old.account) result m.old m.new }
        ensures inferred { IfOk result (λ ty. IsInferred env.now ctx.now t.now ty) }
    {
        if !m.tick() {
            return Err(Halt::Stop(Stop::Spent));
        }
        if !m.enter() {
            return Err(Halt::Stop(Stop::TooDeep));
        }
        m.note(rule_number(t));
        let answer = self.rule(alloc, env, ctx, site, room - 1, t, m);
        m.leave();
        answer
    }

    /// The rule of a term.
    #[cycle(infer)]
    fn rule<S: Sited>(
        &self,
        alloc: Global,
        env: &Env,
        ctx: &Ctx,
        site: &S,
        room: u32,
        t: &Term,
        m: &mut Meter,
    ) -> Result<Term, Halt>
        requires nest { room + m.old.nest ≡ most_nested }
        requires ready { IsReady env.now ctx.now }
        requires site { S.is_of site.now env.now ctx.now }
        ensures follows { Follows (rule env.now (infer env.now (test_of env.now) room) (compare env.now (test_of env.now) room) ctx.now t.now m.old.account) result m.old m.new }
    {
        match t.view() {
            Node::Rel(i) => rel_rule(alloc, ctx, *i),
            Node::Sort(s) => sort_rule(alloc, env, s),
            Node::Prod(a, b) => self.prod_rule(alloc, env, ctx, site, room, a, b, m),
            Node::Lambda(a, b) => self.lambda_rule(alloc, env, ctx, site, room, a, b, m),
            Node::LetIn(b, ty, t) => self.let_rule(alloc, env, ctx, site, room, b, ty, t, m),
            Node::App(f, a) => self.app_rule(alloc, env, ctx, site, room, f, a, m),
            Node::Const(k) => const_rule(env, *k),
            Node::Ind(f) => family_rule(alloc, &self.made, env, *f),
            Node::Construct(f, c) => constructor_rule(alloc, &self.made, env, *f, *c),
            Node::Case(x) => self.case_rule(alloc, env, ctx, site, room, x.get(), m),
            Node::Fix(ds, i) => self.fix_rule(alloc, env, ctx, site, room, t, ds, *i, m),
        }
    }
}

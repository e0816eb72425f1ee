//! Scripts: they show that a term is equal to another, or below it.
ghost use Rattle.std.specs.Prelude.{◌≡◌, ◌+◌, ◌<◌, ℕ, Bool, length, slice_get, Some, IfOk, IfSome};
ghost use Rattle.pc_terms.specs.Syntax.{Prod, Lambda, LetIn, App};
ghost use Rattle.calculus_rules.specs.Context.{Values, values};
ghost use Rattle.calculus_rules.specs.Same.{same};
ghost use Rattle.calculus_rules.specs.WeakHead.{WeakSteps};
ghost use Rattle.pc_rules.specs.Entailment.{test_of};
ghost use Rattle.pc_rules.specs.WellCounted.{IsCountedEnv, IsCounted};
ghost use Rattle.pc_rules.specs.DirectedTyping.{rule_number};
ghost use Rattle.pc_rules.specs.DirectedRun.{most_nested};
ghost use Rattle.conversion.specs.Modes.{is_equal};
ghost use Rattle.cert_rules.specs.declared.item.CertItem.TheVariants.{Same, Parts};
ghost use Rattle.cert_rules.specs.Scripts.{sorts_at};
ghost use Rattle.type_cert.specs.Retraces.{Retraces, stand};
ghost use Rattle.type_cert.specs.Comparable.{AreScriptable, leaf_answer};
ghost use Rattle.type_cert.specs.Passes.{Passes, pace_of};
ghost use Rattle.type_cert.specs.Going.{going, scripting, parting, script_steps};

use crate::halt::WalkHalt;
use crate::numbers::{item_at, steps};
use crate::pace::Pace;
use crate::trail::Trail;
use crate::verifier::Verifier;
use calculus_rules::entry::Entry;
use cert_rules::item::CertItem;
use conversion::mode::Mode;
use conversion::sorts::stand_as;
use pc_rules::context::Ctx;
use pc_rules::environment::Env;
use pc_rules::stop::Stop;
use pc_terms::term::{Node, Term};
use reduce_machine::bindings::Lazy;
use reduce_machine::seen::Argument;
use std::alloc::Global;

/// Whether two terms are sorts that stand as asked. Takes no memory.
fn sorts_stand(env: &Env, mode: Mode, a: &Term, b: &Term) -> bool
    requires env { IsCountedEnv env.now }
    requires left { IsCounted env.now a.now }
    requires right { IsCounted env.now b.now }
    ensures is { result ≡ sorts_at (test_of env.now) (is_equal mode) a.now b.now }
{
    match (a.view(), b.view()) {
        (Node::Sort(s), Node::Sort(t)) => stand_as(env, mode, s, t),
        _ => false,
    }
}

/// The number of the term's former.
fn former(t: &Term) -> u8
    ensures is { result ≡ rule_number t.now }
{
    match t.view() {
        Node::Rel(_) => 1,
        Node::Sort(_) => 2,
        Node::Prod(_, _) => 3,
        Node::Lambda(_, _) => 4,
        Node::LetIn(_, _, _) => 5,
        Node::App(_, _) => 6,
        Node::Const(_) => 7,
        Node::Ind(_) => 8,
        Node::Construct(_, _) => 9,
        Node::Case(_) => 10,
        Node::Fix(_, _) => 11,
    }
}

/// The answer for two terms of one former that has no parts.
fn leaf(a: &Term, b: &Term, at: usize) -> Result<(), WalkHalt>
    ensures is { result ≡ leaf_answer (same a.now b.now) at }
{
    if a.same(b) {
        return Ok(());
    }
    Err(WalkHalt::Barred { item: at })
}

impl Verifier<'_> {
    /// The item that says that two terms are the same, or sorts that stand as asked.
    fn same_item(&self, mode: Mode, a: &Term, b: &Term, trail: &mut Trail) -> Result<(), WalkHalt>
        requires there { trail.old.at < length self.now.cert.now }
        requires env { IsCountedEnv self.now.env.now }
        requires left { IsCounted self.now.env.now a.now }
        requires right { IsCounted self.now.env.now b.now }
        ensures retraces { (V : Values) → Retraces (scripting self.now (Some Same) V (is_equal mode) a.now b.now (stand trail.old)) result trail.old trail.new }
    {
        // A list in memory has fewer items than 64 bits count.
        let _count = self.cert.len();
        if a.same(b) || sorts_stand(self.env, mode, a, b) {
            trail.at += 1;
            return Ok(());
        }
        Err(WalkHalt::Barred { item: trail.at })
    }

    /// A term of a script after the steps for which the item at the trail asks; refused there where it asks for none, or for more than there are.
    fn stepped(
        &self,
        alloc: Global,
        ctx: &Ctx,
        n: u32,
        t: &Term,
        trail: &mut Trail,
    ) -> Result<Term, WalkHalt>
        requires there { trail.old.at < length self.now.cert.now }
        ensures retraces { Retraces (script_steps self.now.env.now (values ctx.now) n t.now (stand trail.old)) result trail.old trail.new }
        ensures steps { IfOk result (λ u. WeakSteps self.now.env.now (values ctx.now) t.now u) }
    {
        let item = trail.at;
        if n == 0 {
            return Err(WalkHalt::Barred { item });
        }
        let term = t.share()?;
        // A list in memory has fewer items than 64 bits count.
        let _count = self.cert.len();
        trail.at += 1;
        steps(alloc, self.env, ctx, item, n, term, trail)
    }

    /// A script for two terms. If it is longer than an item, it is first gone along by values of which nothing is read (`unread`); where it isn't
    /// seen to pass so, the terms decide.
    pub fn script(
        &self,
        alloc: Global,
        ctx: &Ctx,
        mode: Mode,
        a: &Term,
        b: &Term,
        trail: &mut Trail,
    ) -> Result<(), WalkHalt>
        requires nest { self.now.room + trail.old.meter.nest ≡ most_nested }
        requires scriptable { AreScriptable self.now.env.now (values ctx.now) a.now b.now }
        ensures retraces { Retraces (going self.now (values ctx.now) (is_equal mode) a.now b.now (stand trail.old)) result trail.old trail.new }
    {
        match item_at(self.cert, trail.at) {
            Some(CertItem::Same) => self.short_script(mode, a, b, trail),
            _ => self.long_script(alloc, ctx, mode, a, b, trail),
        }
    }

    /// A script of one item, which says that two terms are the same, or sorts that stand as asked: one more rule that stands, and the item.
    fn short_script(
        &self,
        mode: Mode,
        a: &Term,
        b: &Term,
        trail: &mut Trail,
    ) -> Result<(), WalkHalt>
        requires next { slice_get self.now.cert.now trail.old.at ≡ Some Same }
        requires env { IsCountedEnv self.now.env.now }
        requires left { IsCounted self.now.env.now a.now }
        requires right { IsCounted self.now.env.now b.now }
        ensures retraces { (V : Values) → Retraces (going self.now V (is_equal mode) a.now b.now (stand trail.old)) result trail.old trail.new }
    {
        if self.room == 0 {
            return Err(WalkHalt::Stop(Stop::TooDeep));
        }
        self.same_item(mode, a, b, trail)
    }

    /// A script that begins with another item.
    fn long_script(
        &self,
        alloc: Global,
        ctx: &Ctx,
        mode: Mode,
        a: &Term,
        b: &Term,
        trail: &mut Trail,
    ) -> Result<(), WalkHalt>
        requires nest { self.now.room + trail.old.meter.nest ≡ most_nested }
        requires scriptable { AreScriptable self.now.env.now (values ctx.now) a.now b.now }
        ensures retraces { Retraces (going self.now (values ctx.now) (is_equal mode) a.now b.now (stand trail.old)) result trail.old trail.new }
    {
        match self.passes(alloc, ctx, mode, a, b, trail) {
            Some(pace) => {
                trail.meter.account.left = pace.left;
                trail.at = pace.at;
                Ok(())
            }
            None => self.terms_script(alloc, ctx, mode, a, b, trail),
        }
    }

    /// Where a script is seen to pass by values of which nothing is read: the pace behind it.
    fn passes(
        &self,
        alloc: Global,
        ctx: &Ctx,
        mode: Mode,
        a: &Term,
        b: &Term,
        trail: &Trail,
    ) -> Option<Pace>
        ensures passes { IfSome result (λ q. Passes (going self.now (values ctx.now) (is_equal mode) a.now b.now) (pace_of trail.now) q) }
    {
        let Ok(left) = a.share() else {
            return None;
        };
        let Ok(right) = b.share() else {
            return None;
        };
        let x = Lazy::plain(left);
        let y = Lazy::plain(right);
        let mut pace = Pace {
            left: trail.meter.account.left,
            at: trail.at,
        };
        let left = Argument::Lazy(&x);
        let right = Argument::Lazy(&y);
        if self.unread(alloc, ctx, mode, left, right, &mut pace) {
            return Some(pace);
        }
        None
    }

    /// A script for two terms, which are at hand: one more rule that stands, and its item.
    #[cycle(script)]
    pub(crate) fn terms_script(
        &self,
        alloc: Global,
        ctx: &Ctx,
        mode: Mode,
        a: &Term,
        b: &Term,
        trail: &mut Trail,
    ) -> Result<(), WalkHalt>
        requires nest { self.now.room + trail.old.meter.nest ≡ most_nested }
        requires scriptable { AreScriptable self.now.env.now (values ctx.now) a.now b.now }
        ensures retraces { Retraces (going self.now (values ctx.now) (is_equal mode) a.now b.now (stand trail.old)) result trail.old trail.new }
    {
        if !trail.meter.enter() {
            return Err(WalkHalt::Stop(Stop::TooDeep));
        }
        let inner = Verifier {
            cert: self.cert,
            env: self.env,
            room: self.room - 1,
        };
        let answer = inner.item(alloc, ctx, mode, a, b, trail);
        trail.meter.leave();
        answer
    }

    /// The item at which the walk stands, and what follows.
    #[cycle(script)]
    fn item(
        &self,
        alloc: Global,
        ctx: &Ctx,
        mode: Mode,
        a: &Term,
        b: &Term,
        trail: &mut Trail,
    ) -> Result<(), WalkHalt>
        requires nest { self.now.room + trail.old.meter.nest ≡ most_nested }
        requires scriptable { AreScriptable self.now.env.now (values ctx.now) a.now b.now }
        ensures retraces { Retraces (scripting self.now (slice_get self.now.cert.now trail.old.at) (values ctx.now) (is_equal mode) a.now b.now (stand trail.old)) result trail.old trail.new }
    {
        match item_at(self.cert, trail.at) {
            Some(CertItem::Same) => self.same_item(mode, a, b, trail),
            Some(CertItem::Left(n)) => {
                let left = self.stepped(alloc, ctx, n, a, trail)?;
                self.terms_script(alloc, ctx, mode, &left, b, trail)
            }
            Some(CertItem::Right(n)) => {
                let right = self.stepped(alloc, ctx, n, b, trail)?;
                self.terms_script(alloc, ctx, mode, a, &right, trail)
            }
            Some(CertItem::Parts) => self.parts_item(alloc, ctx, mode, a, b, trail),
            _ => Err(WalkHalt::Barred { item: trail.at }),
        }
    }

    /// The parts of two terms of one former.
    #[cycle(script)]
    fn parts_item(
        &self,
        alloc: Global,
        ctx: &Ctx,
        mode: Mode,
        a: &Term,
        b: &Term,
        trail: &mut Trail,
    ) -> Result<(), WalkHalt>
        requires nest { self.now.room + trail.old.meter.nest ≡ most_nested }
        requires there { trail.old.at < length self.now.cert.now }
        requires scriptable { AreScriptable self.now.env.now (values ctx.now) a.now b.now }
        ensures retraces { Retraces (scripting self.now (Some Parts) (values ctx.now) (is_equal mode) a.now b.now (stand trail.old)) result trail.old trail.new }
    {
        let at = trail.at;
        if former(a) != former(b) {
            return Err(WalkHalt::Barred { item: at });
        }
        // A list in memory has fewer items than 64 bits count.
        let _count = self.cert.len();
        trail.at += 1;
        self.parts(alloc, ctx, mode, at, a, b, trail)
    }

    /// The parts of two terms of one former, for which item `at` asks.
    #[cycle(script)]
    fn parts(
        &self,
        alloc: Global,
        ctx: &Ctx,
        mode: Mode,
        at: usize,
        a: &Term,
        b: &Term,
        trail: &mut Trail,
    ) -> Result<(), WalkHalt>
        requires nest { self.now.room + trail.old.meter.nest ≡ most_nested }
        requires scriptable { AreScriptable self.now.env.now (values ctx.now) a.now b.now }
        requires number { rule_number b.now ≡ rule_number a.now }
        ensures retraces { Retraces (parting self.now at (values ctx.now) (is_equal mode) a.now b.now (stand trail.old)) result trail.old trail.new }
    {
        match a.view() {
            Node::Prod(domain, codomain) => {
                self.product(alloc, ctx, mode, domain, codomain, b, trail)
            }
            Node::Lambda(domain, body) => self.lambda(alloc, ctx, domain, body, b, trail),
            Node::LetIn(value, ty, body) => {
                self.definition(alloc, ctx, value, ty, body, b, trail)
            }
            Node::App(f, x) => self.application(alloc, ctx, f, x, b, trail),
            Node::Case(m) => self.matches(alloc, ctx, at, m.get(), b, trail),
            Node::Fix(defs, i) => self.fixpoints(alloc, ctx, at, defs, *i, b, trail),
            _ => leaf(a, b, at),
        }
    }

    /// The parts of two products: the codomains keep what is asked.
    #[cycle(script)]
    fn product(
        &self,
        alloc: Global,
        ctx: &Ctx,
        mode: Mode,
        domain: &Term,
        codomain: &Term,
        b: &Term,
        trail: &mut Trail,
    ) -> Result<(), WalkHalt>
        requires nest { self.now.room + trail.old.meter.nest ≡ most_nested }
        requires scriptable { AreScriptable self.now.env.now (values ctx.now) (Prod domain.now codomain.now) b.now }
        requires number { rule_number b.now ≡ 3 }
        ensures retraces { (i : ℕ) → Retraces (parting self.now i (values ctx.now) (is_equal mode) (Prod domain.now codomain.now) b.now (stand trail.old)) result trail.old trail.new }
    {
        let Node::Prod(other, target) = b.view() else {
            unreachable!()
        };
        self.terms_script(alloc, ctx, Mode::Equal, domain, other, trail)?;
        let under = ctx.extended(alloc, Entry::Assumed(domain.share()?))?;
        self.terms_script(alloc, &under, mode, codomain, target, trail)
    }

    /// The parts of two lambdas.
    #[cycle(script)]
    fn lambda(
        &self,
        alloc: Global,
        ctx: &Ctx,
        domain: &Term,
        body: &Term,
        b: &Term,
        trail: &mut Trail,
    ) -> Result<(), WalkHalt>
        requires nest { self.now.room + trail.old.meter.nest ≡ most_nested }
        requires scriptable { AreScriptable self.now.env.now (values ctx.now) (Lambda domain.now body.now) b.now }
        requires number { rule_number b.now ≡ 4 }
        ensures retraces { (i : ℕ) (equal : Bool) → Retraces (parting self.now i (values ctx.now) equal (Lambda domain.now body.now) b.now (stand trail.old)) result trail.old trail.new }
    {
        let Node::Lambda(other, target) = b.view() else {
            unreachable!()
        };
        self.terms_script(alloc, ctx, Mode::Equal, domain, other, trail)?;
        let under = ctx.extended(alloc, Entry::Assumed(domain.share()?))?;
        self.terms_script(alloc, &under, Mode::Equal, body, target, trail)
    }

    /// The parts of two applications.
    #[cycle(script)]
    fn application(
        &self,
        alloc: Global,
        ctx: &Ctx,
        f: &Term,
        x: &Term,
        b: &Term,
        trail: &mut Trail,
    ) -> Result<(), WalkHalt>
        requires nest { self.now.room + trail.old.meter.nest ≡ most_nested }
        requires scriptable { AreScriptable self.now.env.now (values ctx.now) (App f.now x.now) b.now }
        requires number { rule_number b.now ≡ 6 }
        ensures retraces { (i : ℕ) (equal : Bool) → Retraces (parting self.now i (values ctx.now) equal (App f.now x.now) b.now (stand trail.old)) result trail.old trail.new }
    {
        let Node::App(g, y) = b.view() else {
            unreachable!()
        };
        self.terms_script(alloc, ctx, Mode::Equal, f, g, trail)?;
        self.terms_script(alloc, ctx, Mode::Equal, x, y, trail)
    }

    /// The parts of two lets: value, type, and the body under the left value.
    #[cycle(script)]
    fn definition(
        &self,
        alloc: Global,
        ctx: &Ctx,
        value: &Term,
        ty: &Term,
        body: &Term,
        b: &Term,
        trail: &mut Trail,
    ) -> Result<(), WalkHalt>
        requires nest { self.now.room + trail.old.meter.nest ≡ most_nested }
        requires scriptable { AreScriptable self.now.env.now (values ctx.now) (LetIn value.now ty.now body.now) b.now }
        requires number { rule_number b.now ≡ 5 }
        ensures retraces { (i : ℕ) (equal : Bool) → Retraces (parting self.now i (values ctx.now) equal (LetIn value.now ty.now body.now) b.now (stand trail.old)) result trail.old trail.new }
    {
        let Node::LetIn(other, kind, target) = b.view() else {
            unreachable!()
        };
        self.terms_script(alloc, ctx, Mode::Equal, value, other, trail)?;
        self.terms_script(alloc, ctx, Mode::Equal, ty, kind, trail)?;
        let entry = Entry::Defined {
            value: value.share()?,
            ty: ty.share()?,
        };
        let under = ctx.extended(alloc, entry)?;
        self.terms_script(alloc, &under, Mode::Equal, body, target, trail)
    }
}

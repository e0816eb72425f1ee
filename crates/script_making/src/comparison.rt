//! Comparison by weak-head normal forms, which writes a script.
ghost use Rattle.std.specs.Prelude.{◌≡◌, ◌+◌, [], ◌∷◌};
ghost use Rattle.universe_levels.specs.Consistency.{AreOver, IsSortOver};
ghost use Rattle.calculus_rules.specs.declared.entry.Entry.TheVariants.{Assumed};
ghost use Rattle.calculus_rules.specs.Context.{values};
ghost use Rattle.pc_rules.specs.DirectedRun.{most_nested};
ghost use Rattle.conversion.specs.Comparable.{AreComparable};
ghost use Rattle.conversion.specs.Modes.{is_equal};
ghost use Rattle.script_making.specs.Makes.{Makes};
ghost use Rattle.script_making.specs.Comparing.{compare_making, entered_making, pair_making, sort_pair_making, bound_making};

use crate::draft::Draft;
use crate::maker::Maker;
use crate::reductions::Side;
use calculus_rules::entry::Entry;
use cert_rules::item::CertItem;
use conversion::mode::Mode;
use conversion::sorts::compare_sorts;
use pc_rules::context::Ctx;
use pc_rules::reducer::Reducer;
use pc_rules::stop::{Halt, Stop};
use pc_terms::term::{Node, Term};
use std::alloc::Global;
use universe_levels::sort::Sort;

impl<R: Reducer> Maker<'_, R> {
    /// Two sorts: a script says that they stand as the mode asks.
    fn sorts(
        &self,
        alloc: Global,
        mode: Mode,
        s: &Sort,
        t: &Sort,
        draft: &mut Draft,
    ) -> Result<(), Halt>
        requires constraints { AreOver self.now.env.now.levels self.now.env.now.constraints }
        requires left { IsSortOver self.now.env.now.levels s.now }
        requires right { IsSortOver self.now.env.now.levels t.now }
        ensures makes { Makes (sort_pair_making self.now.env.now (is_equal mode) s.now t.now draft.old.meter.account) result draft.old draft.new }
    {
        compare_sorts(alloc, self.env, mode, s, t)?;
        draft.put(CertItem::Same)
    }

    /// A comparison (PCUIC, POPL 2020: conversion and cumulativity): a unit, one more rule that stands, and the two terms.
    #[cycle(compare)]
    pub fn compare(
        &self,
        alloc: Global,
        ctx: &Ctx,
        mode: Mode,
        a: &Term,
        b: &Term,
        draft: &mut Draft,
    ) -> Result<(), Halt>
        requires nest { self.now.room + draft.old.meter.nest ≡ most_nested }
        requires comparable { AreComparable self.now.env.now (values ctx.now) (a.now ∷ []) (b.now ∷ []) }
        ensures makes { Makes (compare_making self.now.env.now self.now.room ctx.now (is_equal mode) a.now b.now draft.old.meter.account) result draft.old draft.new }
    {
        if !draft.meter.tick() {
            return Err(Halt::Stop(Stop::Spent));
        }
        if !draft.meter.enter() {
            return Err(Halt::Stop(Stop::TooDeep));
        }
        let inner = Maker {
            reducer: self.reducer,
            env: self.env,
            room: self.room - 1,
        };
        let answer = inner.entered(alloc, ctx, mode, a, b, draft);
        draft.meter.leave();
        answer
    }

    /// Equal trees, or the weak-head normal forms of both.
    #[cycle(compare)]
    fn entered(
        &self,
        alloc: Global,
        ctx: &Ctx,
        mode: Mode,
        a: &Term,
        b: &Term,
        draft: &mut Draft,
    ) -> Result<(), Halt>
        requires nest { self.now.room + draft.old.meter.nest ≡ most_nested }
        requires comparable { AreComparable self.now.env.now (values ctx.now) (a.now ∷ []) (b.now ∷ []) }
        ensures makes { Makes (entered_making self.now.env.now self.now.room ctx.now (is_equal mode) a.now b.now draft.old.meter.account) result draft.old draft.new }
    {
        if a.same(b) {
            return draft.put(CertItem::Same);
        }
        let x = self.reduced(alloc, ctx, Side::Left, a, draft)?;
        let y = self.reduced(alloc, ctx, Side::Right, b, draft)?;
        self.pair(alloc, ctx, mode, &x, &y, draft)
    }

    /// Two terms in weak-head normal form.
    #[cycle(compare)]
    fn pair(
        &self,
        alloc: Global,
        ctx: &Ctx,
        mode: Mode,
        a: &Term,
        b: &Term,
        draft: &mut Draft,
    ) -> Result<(), Halt>
        requires nest { self.now.room + draft.old.meter.nest ≡ most_nested }
        requires comparable { AreComparable self.now.env.now (values ctx.now) (a.now ∷ []) (b.now ∷ []) }
        ensures makes { Makes (pair_making self.now.env.now self.now.room ctx.now (is_equal mode) a.now b.now draft.old.meter.account) result draft.old draft.new }
    {
        match (a.view(), b.view()) {
            (Node::Sort(s), Node::Sort(t)) => self.sorts(alloc, mode, s, t, draft),
            (Node::Prod(a, b), Node::Prod(x, y)) => {
                self.bound(alloc, ctx, mode, a, b, x, y, draft)
            }
            (Node::Lambda(a, b), Node::Lambda(x, y)) => {
                self.bound(alloc, ctx, Mode::Equal, a, b, x, y, draft)
            }
            _ => self.spines(alloc, ctx, a, b, draft),
        }
    }

    /// Two domains, which are to be equal, and what is under them, as the mode asks.
    #[cycle(compare)]
    fn bound(
        &self,
        alloc: Global,
        ctx: &Ctx,
        mode: Mode,
        domain: &Term,
        body: &Term,
        other: &Term,
        target: &Term,
        draft: &mut Draft,
    ) -> Result<(), Halt>
        requires nest { self.now.room + draft.old.meter.nest ≡ most_nested }
        requires domains { AreComparable self.now.env.now (values ctx.now) (domain.now ∷ []) (other.now ∷ []) }
        requires bodies { AreComparable self.now.env.now (values (Assumed domain.now ∷ ctx.now)) (body.now ∷ []) (target.now ∷ []) }
        ensures makes { Makes (bound_making self.now.env.now self.now.room ctx.now (is_equal mode) domain.now body.now other.now target.now draft.old.meter.account) result draft.old draft.new }
    {
        draft.put(CertItem::Parts)?;
        self.compare(alloc, ctx, Mode::Equal, domain, other, draft)?;
        let under = ctx.extended(alloc, Entry::Assumed(domain.share()?))?;
        self.compare(alloc, &under, mode, body, target, draft)
    }
}

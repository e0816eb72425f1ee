//! Comparison by weak-head normal forms.
ghost use Rattle.std.specs.Prelude.{◌≡◌, ◌+◌, [], ◌∷◌};
ghost use Rattle.calculus_rules.specs.Context.{values};
ghost use Rattle.pc_rules.specs.Entailment.{test_of};
ghost use Rattle.pc_rules.specs.Follows.{Follows};
ghost use Rattle.pc_rules.specs.DirectedComparison.{compare, entered, pair};
ghost use Rattle.pc_rules.specs.DirectedRun.{most_nested};
ghost use Rattle.conversion.specs.Comparable.{AreComparable};
ghost use Rattle.conversion.specs.Modes.{is_equal};

use crate::mode::Mode;
use crate::sorts::compare_sorts;
use calculus_rules::entry::Entry;
use pc_rules::context::Ctx;
use pc_rules::converter::Converter;
use pc_rules::environment::Env;
use pc_rules::meter::Meter;
use pc_rules::reducer::Reducer;
use pc_rules::stop::{Halt, Stop};
use pc_terms::term::{Node, Term};
use std::alloc::Global;

/// Compares terms by the weak-head normal forms that a reducer gives, layer by layer: conversion and cumulativity of PCUIC (Sozeau et al.,
/// "Coq Coq Correct!", POPL 2020). A comparison takes a unit at its start, besides those of the reducer's steps.
#[derive(Drop)]
pub struct Compare<R: Drop> {
    reducer: R,
}

impl<R: Reducer + Drop> Converter for Compare<R> {
    fn below(
        &self,
        alloc: Global,
        env: &Env,
        ctx: &Ctx,
        a: &Term,
        b: &Term,
        m: &mut Meter,
    ) -> Result<(), Halt> {
        // The constraints of an environment are consistent.
        let _ = env.graph();
        self.compare(alloc, env, ctx, m.room(), Mode::Below, a, b, m)
    }

    fn equal(
        &self,
        alloc: Global,
        env: &Env,
        ctx: &Ctx,
        a: &Term,
        b: &Term,
        m: &mut Meter,
    ) -> Result<(), Halt> {
        let _ = env.graph();
        self.compare(alloc, env, ctx, m.room(), Mode::Equal, a, b, m)
    }
}

impl<R: Reducer + Drop> Compare<R> {
    /// Comparison that reduces by `reducer`. Takes no memory.
    pub fn new(reducer: R) -> Compare<R>
        ensures reducer { result.reducer ≡ reducer }
    {
        Compare { reducer }
    }

    /// A comparison: a unit, one more rule that stands, and the two terms. `room` is the number of rules that may still stand in one another.
    #[cycle(compare)]
    pub(crate) fn compare(
        &self,
        alloc: Global,
        env: &Env,
        ctx: &Ctx,
        room: u32,
        mode: Mode,
        a: &Term,
        b: &Term,
        m: &mut Meter,
    ) -> Result<(), Halt>
        requires nest { room + m.old.nest ≡ most_nested }
        requires comparable { AreComparable env.now (values ctx.now) (a.now ∷ []) (b.now ∷ []) }
        ensures follows { Follows (compare env.now (test_of env.now) room ctx.now (is_equal mode) a.now b.now m.old.account) result m.old m.new }
    {
        if !m.tick() {
            return Err(Halt::Stop(Stop::Spent));
        }
        if !m.enter() {
            return Err(Halt::Stop(Stop::TooDeep));
        }
        let answer = self.entered(alloc, env, ctx, room - 1, mode, a, b, m);
        m.leave();
        answer
    }

    /// Equal trees, or the weak-head normal forms of both.
    #[cycle(compare)]
    fn entered(
        &self,
        alloc: Global,
        env: &Env,
        ctx: &Ctx,
        room: u32,
        mode: Mode,
        a: &Term,
        b: &Term,
        m: &mut Meter,
    ) -> Result<(), Halt>
        requires nest { room + m.old.nest ≡ most_nested }
        requires comparable { AreComparable env.now (values ctx.now) (a.now ∷ []) (b.now ∷ []) }
        ensures follows { Follows (entered env.now (test_of env.now) (compare env.now (test_of env.now) room) ctx.now (is_equal mode) a.now b.now m.old.account) result m.old m.new }
    {
        if a.same(b) {
            return Ok(());
        }
        let x = self.reducer.whnf(alloc, env, ctx, a, m)?;
        let y = self.reducer.whnf(alloc, env, ctx, b, m)?;
        self.pair(alloc, env, ctx, room, mode, &x, &y, m)
    }

    /// Two terms in weak-head normal form.
    #[cycle(compare)]
    fn pair(
        &self,
        alloc: Global,
        env: &Env,
        ctx: &Ctx,
        room: u32,
        mode: Mode,
        a: &Term,
        b: &Term,
        m: &mut Meter,
    ) -> Result<(), Halt>
        requires nest { room + m.old.nest ≡ most_nested }
        requires comparable { AreComparable env.now (values ctx.now) (a.now ∷ []) (b.now ∷ []) }
        ensures follows { Follows (pair env.now (test_of env.now) (compare env.now (test_of env.now) room) ctx.now (is_equal mode) a.now b.now m.old.account) result m.old m.new }
    {
        match (a.view(), b.view()) {
            (Node::Sort(s), Node::Sort(t)) => compare_sorts(alloc, env, mode, s, t),
            (Node::Prod(a, b), Node::Prod(x, y)) => {
                self.compare(alloc, env, ctx, room, Mode::Equal, a, x, m)?;
                let under = ctx.extended(alloc, Entry::Assumed(a.share()?))?;
                self.compare(alloc, env, &under, room, mode, b, y, m)
            }
            (Node::Lambda(c, s), Node::Lambda(d, t)) => {
                self.compare(alloc, env, ctx, room, Mode::Equal, c, d, m)?;
                let under = ctx.extended(alloc, Entry::Assumed(c.share()?))?;
                self.compare(alloc, env, &under, room, Mode::Equal, s, t, m)
            }
            _ => self.spines(alloc, env, ctx, room, a, b, m),
        }
    }
}

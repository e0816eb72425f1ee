//! Comparison by values of which nothing is read.
ghost use Rattle.std.specs.Prelude.{◌≡◌, ◌+◌, [], ◌∷◌, IfOk, IfErr, IsTrue, true};
ghost use Rattle.trees.specs.Measures.{IsBeyond};
ghost use Rattle.pc_terms.specs.declared.term.MakeFault.TheVariants.{TooDeep};
ghost use Rattle.calculus_rules.specs.Context.{values, under};
ghost use Rattle.calculus_rules.specs.Same.{same};
ghost use Rattle.pc_rules.specs.Entailment.{test_of};
ghost use Rattle.pc_rules.specs.Follows.{Follows};
ghost use Rattle.pc_rules.specs.DirectedComparison.{compare, entered, pair};
ghost use Rattle.pc_rules.specs.DirectedRun.{most_nested};
ghost use Rattle.conversion.specs.Comparable.{AreComparable};
ghost use Rattle.conversion.specs.Modes.{is_equal};
ghost use Rattle.reduce_machine.specs.Reads.{read};
ghost use Rattle.reduce_machine.specs.Seen.{argument_term, seen_term};
ghost use Rattle.lazy_conversion.specs.Parts.{read_part};
ghost use Rattle.lazy_conversion.specs.Shapes.{product_of, binders_equal};
ghost use Rattle.lazy_conversion.specs.Sound.{IsSound, IsNormal};
ghost use Rattle.lazy_conversion.specs.Tracks.{Tracks, EitherBeyond};

use crate::assumptions::assume;
use crate::held::reduce;
use crate::part::Part;
use crate::same_values::same_arguments;
use crate::sameness::same_parts;
use crate::shapes::{Binder, Shape, shape_of};
use crate::units::compare_same;
use conversion::mode::Mode;
use conversion::sorts::compare_sorts;
use pc_rules::context::Ctx;
use pc_rules::converter::Converter;
use pc_rules::environment::Env;
use pc_rules::meter::Meter;
use pc_rules::stop::{Halt, Stop};
use pc_terms::term::{MakeFault, Term};
use reduce_machine::bindings::Lazy;
use reduce_machine::reading::read_under;
use reduce_machine::seen::{Argument, Seen};
use reduce_machine::setting::{Setting, TableCell};
use std::alloc::Global;

/// Compares terms by weak-head normal forms of which nothing is read, layer by layer: conversion and cumulativity of PCUIC (Sozeau et al.,
/// "Coq Coq Correct!", POPL 2020). A comparison takes a unit at its start, besides those of the weak-head steps.
#[derive(Clone, Copy, Debug, Drop)]
pub struct LazyCompare;

impl Converter for LazyCompare {
    fn below(
        &self,
        alloc: Global,
        env: &Env,
        ctx: &Ctx,
        a: &Term,
        b: &Term,
        m: &mut Meter,
    ) -> Result<(), Halt> {
        // The constraints of an environment are consistent.
        let _ = env.graph();
        self.compare_terms(alloc, env, ctx, m.room(), Mode::Below, a, b, m)
    }

    fn equal(
        &self,
        alloc: Global,
        env: &Env,
        ctx: &Ctx,
        a: &Term,
        b: &Term,
        m: &mut Meter,
    ) -> Result<(), Halt> {
        let _ = env.graph();
        self.compare_terms(alloc, env, ctx, m.room(), Mode::Equal, a, b, m)
    }
}

/// A part of a term under bindings as a term under bindings: below variables of its own it is read.
fn opened(alloc: Global, p: Part<'_>) -> Result<Lazy, MakeFault>
    ensures ok { IfOk result (λ l. read l ≡ read_part p.entry) }
    ensures too_deep { IfErr result (λ e. e ≡ TooDeep → IsBeyond (read_part p.entry)) }
{
    if p.under == 0 {
        return Lazy::part(p.term, p.env);
    }
    let term = read_under(p.term, alloc, p.under, p.env)?;
    Ok(Lazy::plain(term))
}

/// Whether two parts below variables of their own are the same; others are not looked at. `TooDeep` only where both are beyond the limits of terms.
fn seen_same(a: Part<'_>, b: Part<'_>) -> Result<bool, MakeFault>
    ensures ok { IfOk result (λ r. IsTrue r → same (read_part a.entry) (read_part b.entry) ≡ true) }
    ensures too_deep { IfErr result (λ e. IsBeyond (read_part a.entry)) }
{
    if a.under == 0 {
        return Ok(false);
    }
    same_parts(a, b)
}

impl LazyCompare {
    /// Compares two terms as they are.
    fn compare_terms(
        &self,
        alloc: Global,
        env: &Env,
        ctx: &Ctx,
        room: u32,
        mode: Mode,
        a: &Term,
        b: &Term,
        m: &mut Meter,
    ) -> Result<(), Halt>
        requires nest { room + m.old.nest ≡ most_nested }
        requires comparable { AreComparable env.now (values ctx.now) (a.now ∷ []) (b.now ∷ []) }
        ensures follows { Follows (compare env.now (test_of env.now) room ctx.now (is_equal mode) a.now b.now m.old.account) result m.old m.new }
    {
        let left = a.share()?;
        let right = b.share()?;
        let x = Lazy::plain(left);
        let y = Lazy::plain(right);
        let tables = TableCell::new();
        let at = Setting::new(env, ctx, &tables);
        self.compare(
            alloc,
            &at,
            room,
            mode,
            Argument::Lazy(&x),
            Argument::Lazy(&y),
            m,
        )
    }

    /// A comparison: a unit, one more rule that stands, and the two terms. `at` is the environment with the context, and `room` is the number of
    /// rules that may still stand in one another.
    #[cycle(compare)]
    #[inline(never)]
    pub(crate) fn compare(
        &self,
        alloc: Global,
        at: &Setting<'_>,
        room: u32,
        mode: Mode,
        a: Argument<'_>,
        b: Argument<'_>,
        m: &mut Meter,
    ) -> Result<(), Halt>
        requires nest { room + m.old.nest ≡ most_nested }
        requires left { IsSound at.now.env.now (values at.now.ctx.now) a }
        requires right { IsSound at.now.env.now (values at.now.ctx.now) b }
        requires comparable { AreComparable at.now.env.now (values at.now.ctx.now) (argument_term a ∷ []) (argument_term b ∷ []) }
        ensures tracks { Tracks (values at.now.ctx.now) (EitherBeyond (argument_term a.entry) (argument_term b.entry)) (λ c. compare at.now.env.now (test_of at.now.env.now) room c (is_equal mode) (argument_term a.entry) (argument_term b.entry)) result m.old m.new }
    {
        if !m.tick() {
            return Err(Halt::Stop(Stop::Spent));
        }
        if !m.enter() {
            return Err(Halt::Stop(Stop::TooDeep));
        }
        let answer = self.entered(alloc, at, room - 1, mode, a, b, m);
        m.leave();
        answer
    }

    /// Equal trees, or the weak-head normal forms of both.
    #[cycle(compare)]
    fn entered(
        &self,
        alloc: Global,
        at: &Setting<'_>,
        room: u32,
        mode: Mode,
        a: Argument<'_>,
        b: Argument<'_>,
        m: &mut Meter,
    ) -> Result<(), Halt>
        requires nest { room + m.old.nest ≡ most_nested }
        requires left { IsSound at.now.env.now (values at.now.ctx.now) a }
        requires right { IsSound at.now.env.now (values at.now.ctx.now) b }
        requires comparable { AreComparable at.now.env.now (values at.now.ctx.now) (argument_term a ∷ []) (argument_term b ∷ []) }
        ensures tracks { Tracks (values at.now.ctx.now) (EitherBeyond (argument_term a.entry) (argument_term b.entry)) (λ c. entered at.now.env.now (test_of at.now.env.now) (compare at.now.env.now (test_of at.now.env.now) room) c (is_equal mode) (argument_term a.entry) (argument_term b.entry)) result m.old m.new }
    {
        let same = same_arguments(alloc, a, b)?;
        if same {
            return Ok(());
        }
        let x = reduce(alloc, at, a, m)?;
        let y = reduce(alloc, at, b, m)?;
        self.pair(alloc, at, room, mode, x.seen(), y.seen(), m)
    }

    /// Two values.
    #[cycle(compare)]
    #[inline(always)]
    fn pair(
        &self,
        alloc: Global,
        at: &Setting<'_>,
        room: u32,
        mode: Mode,
        x: Seen<'_>,
        y: Seen<'_>,
        m: &mut Meter,
    ) -> Result<(), Halt>
        requires nest { room + m.old.nest ≡ most_nested }
        requires left { IsNormal at.now.env.now (values at.now.ctx.now) x }
        requires right { IsNormal at.now.env.now (values at.now.ctx.now) y }
        requires comparable { AreComparable at.now.env.now (values at.now.ctx.now) (seen_term x ∷ []) (seen_term y ∷ []) }
        ensures tracks { Tracks (values at.now.ctx.now) (EitherBeyond (seen_term x.entry) (seen_term y.entry)) (λ c. pair at.now.env.now (test_of at.now.env.now) (compare at.now.env.now (test_of at.now.env.now) room) c (is_equal mode) (seen_term x.entry) (seen_term y.entry)) result m.old m.new }
    {
        match (shape_of(x), shape_of(y)) {
            (Shape::Sort(s), Shape::Sort(t)) => compare_sorts(alloc, at.env, mode, s, t),
            (Shape::Product(f), Shape::Product(g)) => {
                self.binders(alloc, at, room, mode, f, g, m)
            }
            (Shape::Lambda(f), Shape::Lambda(g)) => {
                self.binders(alloc, at, room, Mode::Equal, f, g, m)
            }
            _ => self.spines(alloc, at, room, x, y, m),
        }
    }

    /// The parts of two products or of two lambdas: the domains are to be equal, and what is below their variables as the mode asks.
    #[cycle(compare)]
    fn binders(
        &self,
        alloc: Global,
        at: &Setting<'_>,
        room: u32,
        mode: Mode,
        f: Binder<'_>,
        g: Binder<'_>,
        m: &mut Meter,
    ) -> Result<(), Halt>
        requires nest { room + m.old.nest ≡ most_nested }
        requires domains { AreComparable at.now.env.now (values at.now.ctx.now) (read_part f.domain ∷ []) (read_part g.domain ∷ []) }
        requires bodies { AreComparable at.now.env.now (under 1 (values at.now.ctx.now)) (read_part f.body ∷ []) (read_part g.body ∷ []) }
        ensures tracks { Tracks (values at.now.ctx.now) (EitherBeyond (product_of f.entry) (product_of g.entry)) (binders_equal (compare at.now.env.now (test_of at.now.env.now) room) (is_equal mode) f.entry g.entry) result m.old m.new }
    {
        self.part(alloc, at, room, Mode::Equal, f.domain, g.domain, m)?;
        let inner = assume(alloc, at.ctx)?;
        let setting = Setting::new(at.env, &inner, at.tables);
        self.part(alloc, &setting, room, mode, f.body, g.body, m)
    }

    /// Two parts: below variables of their own they are read, unless they are seen to be the same.
    #[cycle(compare)]
    #[inline(always)]
    pub(crate) fn part(
        &self,
        alloc: Global,
        at: &Setting<'_>,
        room: u32,
        mode: Mode,
        a: Part<'_>,
        b: Part<'_>,
        m: &mut Meter,
    ) -> Result<(), Halt>
        requires nest { room + m.old.nest ≡ most_nested }
        requires comparable { AreComparable at.now.env.now (values at.now.ctx.now) (read_part a ∷ []) (read_part b ∷ []) }
        ensures tracks { Tracks (values at.now.ctx.now) (EitherBeyond (read_part a.entry) (read_part b.entry)) (λ c. compare at.now.env.now (test_of at.now.env.now) room c (is_equal mode) (read_part a.entry) (read_part b.entry)) result m.old m.new }
    {
        let same = seen_same(a, b)?;
        if same {
            return compare_same(room, m);
        }
        let x = opened(alloc, a)?;
        let y = opened(alloc, b)?;
        self.compare(
            alloc,
            at,
            room,
            mode,
            Argument::Lazy(&x),
            Argument::Lazy(&y),
            m,
        )
    }
}

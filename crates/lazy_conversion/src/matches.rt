//! Matches that are stuck: parameters, predicates, scrutinees, branches.
ghost use Rattle.std.specs.Prelude.{◌≡◌, ◌+◌, [], ◌∷◌, List, true};
ghost use Rattle.pc_terms.specs.Lists.{walk_branch};
ghost use Rattle.pc_terms.specs.Syntax.{Term};
ghost use Rattle.calculus_rules.specs.Context.{values};
ghost use Rattle.calculus_rules.specs.Environment.{with_parameters};
ghost use Rattle.calculus_rules.specs.Instances.{predicate_entries};
ghost use Rattle.pc_rules.specs.Entailment.{test_of};
ghost use Rattle.pc_rules.specs.DirectedComparison.{compare, entering};
ghost use Rattle.pc_rules.specs.DirectedRun.{most_nested};
ghost use Rattle.conversion.specs.Comparable.{AreComparable};
ghost use Rattle.reduce_machine.specs.Reads.{stands_under};
ghost use Rattle.lazy_conversion.specs.Lists.{read_list};
ghost use Rattle.lazy_conversion.specs.Parts.{read_part};
ghost use Rattle.lazy_conversion.specs.Sound.{IsNormal};
ghost use Rattle.lazy_conversion.specs.Stuck.{match_of, match_term, stuck_equal, arms_equal};
ghost use Rattle.lazy_conversion.specs.Tracks.{Tracks, EitherBeyond};

use crate::assumptions::{assume_arguments, assume_indices};
use crate::comparison::LazyCompare;
use crate::lists::Parts;
use crate::part::Part;
use crate::stuck::Stuck;
use calculus_rules::declaration::{Constructors, Family};
use conversion::mode::Mode;
use instances::kept::kept_family;
use pc_rules::broken::Broken;
use pc_rules::meter::Meter;
use pc_rules::stop::Halt;
use pc_terms::term::Branch;
use reduce_machine::bindings::Bindings;
use reduce_machine::seen::Argument;
use reduce_machine::setting::Setting;
use std::alloc::Global;

impl<'a> Stuck<'a> {
    /// The parameters.
    fn params(&self) -> Parts<'a>
        ensures is { read_list result ≡ (match_of self.now).params }
    {
        Parts {
            terms: &self.outer.params,
            under: 0,
            env: self.env,
        }
    }

    /// The predicate.
    fn predicate(&self) -> Part<'a>
        ensures is { read_part result ≡ (match_of self.now).ret }
    {
        Part {
            term: &self.outer.ret,
            under: u64::from(self.outer.binders),
            env: self.env,
        }
    }
}

/// The body of a branch under bindings.
fn body<'a>(arm: &'a Branch, env: &'a Bindings) -> Part<'a>
    ensures is { read_part result ≡ (walk_branch (stands_under env.now.items) 0 arm.now).body }
{
    Part {
        term: &arm.body,
        under: u64::from(arm.binders),
        env,
    }
}

impl LazyCompare {
    /// The parts of two matches: parameters, predicates, scrutinees, branches.
    #[cycle(compare)]
    #[inline(never)]
    pub(crate) fn matches(
        &self,
        alloc: Global,
        at: &Setting<'_>,
        room: u32,
        x: Stuck<'_>,
        y: Stuck<'_>,
        m: &mut Meter,
    ) -> Result<(), Halt>
        requires nest { room + m.old.nest ≡ most_nested }
        requires left { IsNormal at.now.env.now (values at.now.ctx.now) x.scrut }
        requires right { IsNormal at.now.env.now (values at.now.ctx.now) y.scrut }
        requires comparable { AreComparable at.now.env.now (values at.now.ctx.now) (match_term x ∷ []) (match_term y ∷ []) }
        ensures tracks { Tracks (values at.now.ctx.now) (EitherBeyond (match_term x.entry) (match_term y.entry)) (stuck_equal at.now.env.now (compare at.now.env.now (test_of at.now.env.now) room) (match_of x.entry) (match_of y.entry)) result m.old m.new }
    {
        let Some(family) = kept_family(at.env, x.outer.family) else {
            return Err(Halt::Broken(Broken::UnknownName {
                name: x.outer.family.block,
            }));
        };
        self.each(alloc, at, room, x.params(), y.params(), m)?;
        self.predicates(alloc, at, room, family, x, y, m)?;
        self.compare(
            alloc,
            at,
            room,
            Mode::Equal,
            Argument::Value(x.scrut),
            Argument::Value(y.scrut),
            m,
        )?;
        self.branches(alloc, at, room, &family.ctors, x, y, m)
    }

    /// The predicates of two matches, under as many entries as the family has indices, and one for the scrutinee.
    #[cycle(compare)]
    #[inline(never)]
    fn predicates(
        &self,
        alloc: Global,
        at: &Setting<'_>,
        room: u32,
        family: &Family,
        x: Stuck<'_>,
        y: Stuck<'_>,
        m: &mut Meter,
    ) -> Result<(), Halt>
        requires nest { room + m.old.nest ≡ most_nested }
        requires comparable { AreComparable at.now.env.now (values at.now.ctx.now) (match_term x ∷ []) (match_term y ∷ []) }
        ensures tracks { (Ps : List Term) → Tracks (values at.now.ctx.now) (EitherBeyond (match_term x.entry) (match_term y.entry)) (λ c. entering c (predicate_entries x.entry.outer.now.family (with_parameters Ps family.now) (match_of x.entry).params) (λ d. compare at.now.env.now (test_of at.now.env.now) room d true (match_of x.entry).ret (match_of y.entry).ret)) result m.old m.new }
    {
        let inner = assume_indices(alloc, at.ctx, family)?;
        let setting = Setting::new(at.env, &inner, at.tables);
        self.part(
            alloc,
            &setting,
            room,
            Mode::Equal,
            x.predicate(),
            y.predicate(),
            m,
        )
    }

    /// The bodies of the branches of two matches, each under as many entries as its constructor has arguments.
    #[cycle(compare)]
    #[inline(never)]
    fn branches(
        &self,
        alloc: Global,
        at: &Setting<'_>,
        room: u32,
        ctors: &Constructors,
        x: Stuck<'_>,
        y: Stuck<'_>,
        m: &mut Meter,
    ) -> Result<(), Halt>
        requires nest { room + m.old.nest ≡ most_nested }
        requires comparable { AreComparable at.now.env.now (values at.now.ctx.now) (match_term x ∷ []) (match_term y ∷ []) }
        ensures tracks { Tracks (values at.now.ctx.now) (EitherBeyond (match_term x.entry) (match_term y.entry)) (arms_equal (compare at.now.env.now (test_of at.now.env.now) room) ctors.now (match_of x.entry) (match_of y.entry)) result m.old m.new }
    {
        let listed = ctors.as_slice();
        let xs = x.outer.branches.as_slice();
        let ys = y.outer.branches.as_slice();
        let count = listed.len().min(xs.len().min(ys.len()));
        for i in 0..count {
            let inner = assume_arguments(alloc, at.ctx, &listed[i])?;
            let setting = Setting::new(at.env, &inner, at.tables);
            let left = body(&xs[i], x.env);
            let right = body(&ys[i], y.env);
            self.part(alloc, &setting, room, Mode::Equal, left, right, m)?;
        }
        Ok(())
    }
}

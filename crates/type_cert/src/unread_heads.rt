//! Scripts of heads of values: of matches that are stuck and of fixpoints.
ghost use Rattle.std.specs.Prelude.{Bool, ◌≡◌, true, IsTrue};
ghost use Rattle.trees.specs.Tree.{terms_of};
ghost use Rattle.pc_terms.specs.Lists.{arms_of, types_of, walk_branch, walk_def};
ghost use Rattle.pc_terms.specs.Syntax.{head};
ghost use Rattle.calculus_rules.specs.Context.{values, under};
ghost use Rattle.cert_rules.specs.Scripts.{term_parts, parts_of};
ghost use Rattle.reduce_machine.specs.Reads.{stands_under};
ghost use Rattle.reduce_machine.specs.Seen.{seen_term, IsSeen};
ghost use Rattle.lazy_conversion.specs.Parts.{read_part};
ghost use Rattle.lazy_conversion.specs.Stuck.{match_of, match_term, defs_of};
ghost use Rattle.type_cert.specs.Going.{going};
ghost use Rattle.type_cert.specs.Passes.{Passes, AllPass, FirstPass, body_trees};

use crate::listed::assumed;
use crate::pace::Pace;
use crate::parts::same_families;
use crate::verifier::Verifier;
use conversion::mode::Mode;
use lazy_conversion::part::Part;
use lazy_conversion::spine_heads::fit;
use lazy_conversion::stuck::{Recursive, Stuck, fixpoint, stuck_match};
use pc_rules::context::Ctx;
use pc_terms::term::{Branch, Def};
use reduce_machine::bindings::Bindings;
use reduce_machine::seen::{Argument, Seen};
use std::alloc::Global;

/// The body of a branch under bindings.
fn arm_part<'a>(arm: &'a Branch, env: &'a Bindings) -> Part<'a>
    ensures is { read_part result ≡ (walk_branch (stands_under env.now.items) 0 arm.now).body }
{
    Part {
        term: &arm.body,
        under: u64::from(arm.binders),
        env,
    }
}

/// The body of a definition, of `n`, under bindings.
fn body_part<'a>(def: &'a Def, n: usize, env: &'a Bindings) -> Part<'a>
    ensures is { read_part result ≡ (walk_def (stands_under env.now.items) 0 n def.now).body }
{
    Part {
        term: &def.body,
        under: n as u64,
        env,
    }
}

impl Verifier<'_> {
    /// The parts of the heads of two values, where these are matches or fixpoints.
    #[cycle(unread)]
    pub(crate) fn unread_heads(
        &self,
        alloc: Global,
        ctx: &Ctx,
        x: Seen<'_>,
        y: Seen<'_>,
        pace: &mut Pace,
    ) -> bool
        requires left { IsSeen x }
        requires right { IsSeen y }
        ensures passes { IsTrue result → (equal : Bool) → AllPass (parts_of (going self.now) (values ctx.now) equal (head (seen_term x.entry)) (head (seen_term y.entry))) pace.old pace.new }
    {
        if let Some(f) = stuck_match(x) {
            let Some(g) = stuck_match(y) else {
                return false;
            };
            return self.unread_matches(alloc, ctx, f, g, pace);
        }
        let Some(f) = fixpoint(x) else {
            return false;
        };
        let Some(g) = fixpoint(y) else {
            return false;
        };
        if !fit(x, y) {
            return false;
        }
        if !self.unread_types(alloc, ctx, f, g, pace) {
            return false;
        }
        self.unread_bodies(alloc, ctx, f, g, pace)
    }

    /// The parts of two matches that are stuck.
    #[cycle(unread)]
    fn unread_matches(
        &self,
        alloc: Global,
        ctx: &Ctx,
        f: Stuck<'_>,
        g: Stuck<'_>,
        pace: &mut Pace,
    ) -> bool
        requires left { IsSeen f.scrut }
        requires right { IsSeen g.scrut }
        ensures passes { IsTrue result → (equal : Bool) → AllPass (parts_of (going self.now) (values ctx.now) equal (match_term f.entry) (match_term g.entry)) pace.old pace.new }
    {
        if !same_families(f.outer.family, g.outer.family) {
            return false;
        }
        if f.outer.binders != g.outer.binders {
            return false;
        }
        if !self.unread_params(alloc, ctx, f, g, pace) {
            return false;
        }
        if !self.unread_predicates(alloc, ctx, f, g, pace) {
            return false;
        }
        let left = Argument::Value(f.scrut);
        let right = Argument::Value(g.scrut);
        if !self.unread(alloc, ctx, Mode::Equal, left, right, pace) {
            return false;
        }
        self.unread_arms(alloc, ctx, f, g, pace)
    }

    /// The parameters of two matches.
    #[cycle(unread)]
    fn unread_params(
        &self,
        alloc: Global,
        ctx: &Ctx,
        f: Stuck<'_>,
        g: Stuck<'_>,
        pace: &mut Pace,
    ) -> bool
        ensures passes { IsTrue result → FirstPass (term_parts (going self.now) (values ctx.now) (terms_of (match_of f.entry).params) (terms_of (match_of g.entry).params)) pace.old pace.new }
    {
        let xs = f.outer.params.as_slice();
        let ys = g.outer.params.as_slice();
        if xs.len() != ys.len() {
            return false;
        }
        for i in 0..xs.len() {
            let left = Part {
                term: &xs[i],
                under: 0,
                env: f.env,
            };
            let right = Part {
                term: &ys[i],
                under: 0,
                env: g.env,
            };
            if !self.unread_part(alloc, ctx, Mode::Equal, left, right, pace) {
                return false;
            }
        }
        true
    }

    /// The predicates of two matches, each under its variables.
    #[cycle(unread)]
    fn unread_predicates(
        &self,
        alloc: Global,
        ctx: &Ctx,
        f: Stuck<'_>,
        g: Stuck<'_>,
        pace: &mut Pace,
    ) -> bool
        ensures passes { IsTrue result → Passes (going self.now (under f.entry.outer.now.binders (values ctx.now)) true (match_of f.entry).ret (match_of g.entry).ret) pace.old pace.new }
    {
        let Ok(inner) = assumed(alloc, ctx, f.outer.binders as usize, &f.outer.ret) else {
            return false;
        };
        let left = Part {
            term: &f.outer.ret,
            under: u64::from(f.outer.binders),
            env: f.env,
        };
        let right = Part {
            term: &g.outer.ret,
            under: u64::from(g.outer.binders),
            env: g.env,
        };
        self.unread_part(alloc, &inner, Mode::Equal, left, right, pace)
    }

    /// The branches of two matches, each under its variables.
    #[cycle(unread)]
    fn unread_arms(
        &self,
        alloc: Global,
        ctx: &Ctx,
        f: Stuck<'_>,
        g: Stuck<'_>,
        pace: &mut Pace,
    ) -> bool
        ensures passes { IsTrue result → FirstPass (term_parts (going self.now) (values ctx.now) (arms_of (match_of f.entry).branches) (arms_of (match_of g.entry).branches)) pace.old pace.new }
    {
        let xs = f.outer.branches.as_slice();
        let ys = g.outer.branches.as_slice();
        if xs.len() != ys.len() {
            return false;
        }
        for i in 0..xs.len() {
            let x = &xs[i];
            let y = &ys[i];
            if x.binders != y.binders {
                return false;
            }
            let Ok(inner) = assumed(alloc, ctx, x.binders as usize, &x.body) else {
                return false;
            };
            let left = arm_part(x, f.env);
            let right = arm_part(y, g.env);
            if !self.unread_part(alloc, &inner, Mode::Equal, left, right, pace) {
                return false;
            }
        }
        true
    }

    /// The types of the definitions of two fixpoints.
    #[cycle(unread)]
    fn unread_types(
        &self,
        alloc: Global,
        ctx: &Ctx,
        f: Recursive<'_>,
        g: Recursive<'_>,
        pace: &mut Pace,
    ) -> bool
        ensures passes { IsTrue result → FirstPass (term_parts (going self.now) (values ctx.now) (types_of (defs_of f.entry)) (types_of (defs_of g.entry))) pace.old pace.new }
    {
        let xs = f.defs.as_slice();
        let ys = g.defs.as_slice();
        if xs.len() != ys.len() {
            return false;
        }
        for i in 0..xs.len() {
            let x = &xs[i];
            let y = &ys[i];
            let left = Part {
                term: &x.ty,
                under: 0,
                env: f.env,
            };
            let right = Part {
                term: &y.ty,
                under: 0,
                env: g.env,
            };
            if !self.unread_part(alloc, ctx, Mode::Equal, left, right, pace) {
                return false;
            }
        }
        true
    }

    /// The bodies of the definitions of two fixpoints, each under all of them.
    #[cycle(unread)]
    fn unread_bodies(
        &self,
        alloc: Global,
        ctx: &Ctx,
        f: Recursive<'_>,
        g: Recursive<'_>,
        pace: &mut Pace,
    ) -> bool
        ensures passes { IsTrue result → FirstPass (term_parts (going self.now) (values ctx.now) (body_trees (defs_of f.entry)) (body_trees (defs_of g.entry))) pace.old pace.new }
    {
        let xs = f.defs.as_slice();
        let ys = g.defs.as_slice();
        let n = xs.len();
        if n != ys.len() {
            return false;
        }
        for i in 0..n {
            let x = &xs[i];
            let y = &ys[i];
            let Ok(inner) = assumed(alloc, ctx, n, &x.body) else {
                return false;
            };
            let left = body_part(x, n, f.env);
            let right = body_part(y, n, g.env);
            if !self.unread_part(alloc, &inner, Mode::Equal, left, right, pace) {
                return false;
            }
        }
        true
    }
}

//! Scripts along values of which nothing is read: what a script compares are terms under bindings, and the values to which its steps lead. Only
//! what stands below variables of its own is read, where the next item doesn't say that it is the same. Such a walk gives up where it isn't seen to
//! pass: at what is refused, at two sorts that aren't the same, at steps that lead to no weak-head normal form, and where units, rules that stand
//! in one another or memory come to an end. Then the terms decide.
ghost use Rattle.std.specs.Prelude.{Bool, ◌≡◌, ◌≤◌, true, Some, length, slice_get, IsTrue, IfOk};
ghost use Rattle.pc_terms.specs.Syntax.{head, args};
ghost use Rattle.calculus_rules.specs.Context.{Values, values};
ghost use Rattle.cert_rules.specs.declared.item.CertItem.TheVariants.{Same};
ghost use Rattle.cert_rules.specs.Walk.{walk_all};
ghost use Rattle.cert_rules.specs.Scripts.{parts_of};
ghost use Rattle.reduce_machine.specs.Reads.{read};
ghost use Rattle.reduce_machine.specs.Seen.{argument_term, seen_term, IsSeen};
ghost use Rattle.conversion.specs.Modes.{is_equal};
ghost use Rattle.lazy_conversion.specs.Parts.{read_part};
ghost use Rattle.lazy_conversion.specs.Sound.{IsSeenArgument};
ghost use Rattle.type_cert.specs.Going.{going, scripting};
ghost use Rattle.type_cert.specs.Passes.{Passes, AllPass, prefix_term, binder_acts};

use crate::listed::assumed;
use crate::numbers::item_at;
use crate::pace::{Pace, next_item};
use crate::taken::{as_value, stepped_value};
use crate::verifier::Verifier;
use cert_rules::item::CertItem;
use conversion::mode::Mode;
use lazy_conversion::part::Part;
use lazy_conversion::same_values::{same_arguments, same_heads};
use lazy_conversion::sameness::same_parts;
use lazy_conversion::shapes::{Binder, Shape, shape_of};
use pc_rules::context::Ctx;
use pc_terms::term::MakeFault;
use reduce_machine::bindings::Lazy;
use reduce_machine::reading::read_under;
use reduce_machine::seen::{Argument, Seen};
use std::alloc::Global;

/// Whether two arguments are seen to be the same.
fn are_same(alloc: Global, a: Argument<'_>, b: Argument<'_>) -> bool
    requires left { IsSeenArgument a }
    requires right { IsSeenArgument b }
    ensures same { IsTrue result → argument_term a.entry ≡ argument_term b.entry }
{
    match same_arguments(alloc, a, b) {
        Ok(same) => same,
        Err(_) => false,
    }
}

/// Whether the heads of two values are seen to be the same.
fn are_same_heads(alloc: Global, x: Seen<'_>, y: Seen<'_>) -> bool
    requires left { IsSeen x }
    requires right { IsSeen y }
    ensures same { IsTrue result → head (seen_term x.entry) ≡ head (seen_term y.entry) }
{
    match same_heads(alloc, x, y) {
        Ok(same) => same,
        Err(_) => false,
    }
}

/// A part of a term under bindings as a term under bindings: below variables of its own it is read.
fn opened(alloc: Global, p: Part<'_>) -> Result<Lazy, MakeFault>
    ensures ok { IfOk result (λ l. read l ≡ read_part p.entry) }
{
    if p.under == 0 {
        return Lazy::part(p.term, p.env);
    }
    let term = read_under(p.term, alloc, p.under, p.env)?;
    Ok(Lazy::plain(term))
}

impl Verifier<'_> {
    /// A script of one item, which says that two parts are the same.
    fn same_part(&self, a: Part<'_>, b: Part<'_>, pace: &mut Pace) -> bool
        requires next { slice_get self.now.cert.now pace.old.at ≡ Some Same }
        ensures passes { IsTrue result → (V : Values) (equal : Bool) → Passes (going self.now V equal (read_part a.entry) (read_part b.entry)) pace.old pace.new }
    {
        if self.room == 0 {
            return false;
        }
        let Ok(same) = same_parts(a, b) else {
            return false;
        };
        let _item = next_item(self.cert, pace);
        same
    }

    /// A script for two arguments: one more rule that stands, and its item.
    #[cycle(unread)]
    pub(crate) fn unread(
        &self,
        alloc: Global,
        ctx: &Ctx,
        mode: Mode,
        a: Argument<'_>,
        b: Argument<'_>,
        pace: &mut Pace,
    ) -> bool
        requires left { IsSeenArgument a }
        requires right { IsSeenArgument b }
        ensures passes { IsTrue result → Passes (going self.now (values ctx.now) (is_equal mode) (argument_term a.entry) (argument_term b.entry)) pace.old pace.new }
    {
        if self.room == 0 {
            return false;
        }
        let inner = Verifier {
            cert: self.cert,
            env: self.env,
            room: self.room - 1,
        };
        inner.unread_item(alloc, ctx, mode, a, b, pace)
    }

    /// The item at which a script stands, and what follows.
    #[cycle(unread)]
    fn unread_item(
        &self,
        alloc: Global,
        ctx: &Ctx,
        mode: Mode,
        a: Argument<'_>,
        b: Argument<'_>,
        pace: &mut Pace,
    ) -> bool
        requires left { IsSeenArgument a }
        requires right { IsSeenArgument b }
        ensures passes { IsTrue result → Passes (scripting self.now (slice_get self.now.cert.now pace.old.at) (values ctx.now) (is_equal mode) (argument_term a.entry) (argument_term b.entry)) pace.old pace.new }
    {
        match next_item(self.cert, pace) {
            Some(CertItem::Same) => are_same(alloc, a, b),
            Some(CertItem::Left(n)) => {
                let Some(left) = stepped_value(alloc, self.env, ctx, n, a, pace) else {
                    return false;
                };
                let x = Argument::Value(left.seen());
                self.unread(alloc, ctx, mode, x, b, pace)
            }
            Some(CertItem::Right(n)) => {
                let Some(right) = stepped_value(alloc, self.env, ctx, n, b, pace) else {
                    return false;
                };
                let y = Argument::Value(right.seen());
                self.unread(alloc, ctx, mode, a, y, pace)
            }
            Some(CertItem::Parts) => self.unread_parts(alloc, ctx, mode, a, b, pace),
            _ => false,
        }
    }

    /// The parts of two arguments, which are values then.
    #[cycle(unread)]
    fn unread_parts(
        &self,
        alloc: Global,
        ctx: &Ctx,
        mode: Mode,
        a: Argument<'_>,
        b: Argument<'_>,
        pace: &mut Pace,
    ) -> bool
        requires left { IsSeenArgument a }
        requires right { IsSeenArgument b }
        ensures passes { IsTrue result → AllPass (parts_of (going self.now) (values ctx.now) (is_equal mode) (argument_term a.entry) (argument_term b.entry)) pace.old pace.new }
    {
        let Some(x) = as_value(alloc, self.env, ctx, a) else {
            return false;
        };
        let Some(y) = as_value(alloc, self.env, ctx, b) else {
            return false;
        };
        self.unread_values(alloc, ctx, mode, x.seen(), y.seen(), pace)
    }

    /// The parts of two values.
    #[cycle(unread)]
    fn unread_values(
        &self,
        alloc: Global,
        ctx: &Ctx,
        mode: Mode,
        x: Seen<'_>,
        y: Seen<'_>,
        pace: &mut Pace,
    ) -> bool
        requires left { IsSeen x }
        requires right { IsSeen y }
        ensures passes { IsTrue result → AllPass (parts_of (going self.now) (values ctx.now) (is_equal mode) (seen_term x.entry) (seen_term y.entry)) pace.old pace.new }
    {
        match (shape_of(x), shape_of(y)) {
            (Shape::Product(f), Shape::Product(g)) => {
                self.unread_binders(alloc, ctx, mode, f, g, pace)
            }
            (Shape::Lambda(f), Shape::Lambda(g)) => {
                self.unread_binders(alloc, ctx, Mode::Equal, f, g, pace)
            }
            (Shape::Spine, Shape::Spine) => self.unread_spines(alloc, ctx, x, y, pace),
            _ => false,
        }
    }

    /// The parts of two values that are spines.
    #[cycle(unread)]
    fn unread_spines(
        &self,
        alloc: Global,
        ctx: &Ctx,
        x: Seen<'_>,
        y: Seen<'_>,
        pace: &mut Pace,
    ) -> bool
        requires left { IsSeen x }
        requires right { IsSeen y }
        ensures passes { IsTrue result → (equal : Bool) → AllPass (parts_of (going self.now) (values ctx.now) equal (seen_term x.entry) (seen_term y.entry)) pace.old pace.new }
    {
        let count = x.count();
        let other = y.count();
        if other != count {
            return false;
        }
        self.applied(alloc, ctx, x, y, count, pace)
    }

    /// The parts of the heads of two values with their first `n` arguments.
    #[cycle(unread)]
    fn applied(
        &self,
        alloc: Global,
        ctx: &Ctx,
        x: Seen<'_>,
        y: Seen<'_>,
        n: usize,
        pace: &mut Pace,
    ) -> bool
        requires left { IsSeen x }
        requires right { IsSeen y }
        requires left_count { n ≤ length (args (seen_term x)) }
        requires right_count { n ≤ length (args (seen_term y)) }
        ensures passes { IsTrue result → (equal : Bool) → AllPass (parts_of (going self.now) (values ctx.now) equal (prefix_term n (seen_term x.entry)) (prefix_term n (seen_term y.entry))) pace.old pace.new }
    {
        if n == 0 {
            return self.unread_heads(alloc, ctx, x, y, pace);
        }
        let last = n - 1;
        if !self.prefix(alloc, ctx, x, y, last, pace) {
            return false;
        }
        let left = x.argument(last);
        let right = y.argument(last);
        self.unread(alloc, ctx, Mode::Equal, left, right, pace)
    }

    /// A script for the heads of two values with their first `n` arguments.
    #[cycle(unread)]
    fn prefix(
        &self,
        alloc: Global,
        ctx: &Ctx,
        x: Seen<'_>,
        y: Seen<'_>,
        n: usize,
        pace: &mut Pace,
    ) -> bool
        requires left { IsSeen x }
        requires right { IsSeen y }
        requires left_count { n ≤ length (args (seen_term x)) }
        requires right_count { n ≤ length (args (seen_term y)) }
        ensures passes { IsTrue result → Passes (going self.now (values ctx.now) true (prefix_term n (seen_term x.entry)) (prefix_term n (seen_term y.entry))) pace.old pace.new }
    {
        if self.room == 0 {
            return false;
        }
        let inner = Verifier {
            cert: self.cert,
            env: self.env,
            room: self.room - 1,
        };
        match next_item(self.cert, pace) {
            Some(CertItem::Parts) => inner.applied(alloc, ctx, x, y, n, pace),
            Some(CertItem::Same) => n == 0 && are_same_heads(alloc, x, y),
            _ => false,
        }
    }

    /// The parts of two products or of two lambdas: what is below their variables is asked what is asked of the two.
    #[cycle(unread)]
    fn unread_binders(
        &self,
        alloc: Global,
        ctx: &Ctx,
        mode: Mode,
        f: Binder<'_>,
        g: Binder<'_>,
        pace: &mut Pace,
    ) -> bool
        ensures passes { IsTrue result → Passes (walk_all (binder_acts (going self.now) (values ctx.now) (is_equal mode) f.entry g.entry)) pace.old pace.new }
    {
        if !self.unread_part(alloc, ctx, Mode::Equal, f.domain, g.domain, pace) {
            return false;
        }
        let Ok(inner) = assumed(alloc, ctx, 1, f.domain.term) else {
            return false;
        };
        self.unread_part(alloc, &inner, mode, f.body, g.body, pace)
    }

    /// A script for two parts: they are read only where the next item doesn't say that they are the same.
    #[cycle(unread)]
    pub(crate) fn unread_part(
        &self,
        alloc: Global,
        ctx: &Ctx,
        mode: Mode,
        a: Part<'_>,
        b: Part<'_>,
        pace: &mut Pace,
    ) -> bool
        ensures passes { IsTrue result → Passes (going self.now (values ctx.now) (is_equal mode) (read_part a.entry) (read_part b.entry)) pace.old pace.new }
    {
        if let Some(CertItem::Same) = item_at(self.cert, pace.at) {
            return self.same_part(a, b, pace);
        }
        let Ok(x) = opened(alloc, a) else {
            return false;
        };
        let Ok(y) = opened(alloc, b) else {
            return false;
        };
        let left = Argument::Lazy(&x);
        let right = Argument::Lazy(&y);
        self.unread(alloc, ctx, mode, left, right, pace)
    }
}

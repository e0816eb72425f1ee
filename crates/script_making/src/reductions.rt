//! Weak-head normal forms, and the items that say how many steps lead to them.
ghost use Rattle.std.specs.Prelude.{◌≡◌, ◌-◌, ◌++◌, IfOk, IfErr};
ghost use Rattle.calculus_rules.specs.Context.{values};
ghost use Rattle.calculus_rules.specs.WeakHead.{WeakSteps};
ghost use Rattle.pc_rules.specs.declared.stop.Stop.TheVariants.{Memory};
ghost use Rattle.pc_rules.specs.declared.stop.Halt.TheVariants as halts;
ghost use Rattle.pc_rules.specs.DirectedWeakHead.{whnf};
ghost use Rattle.pc_rules.specs.Follows.{Follows};
ghost use Rattle.cert_rules.specs.MakingTyping.{side, make_side, make_whnf};
ghost use Rattle.script_making.specs.Makes.{Makes, without_count};
ghost use Rattle.script_making.specs.Sides.{steps_of};

use crate::draft::Draft;
use crate::maker::Maker;
use cert_rules::item::CertItem;
use pc_rules::context::Ctx;
use pc_rules::reducer::Reducer;
use pc_rules::stop::{Halt, Stop};
use pc_terms::term::Term;
use std::alloc::Global;

/// A side of a script.
#[derive(Clone, Copy, Debug, PartialEq, Eq)]
pub(crate) enum Side {
    /// The term that is to be equal to the other, or below it.
    Left,
    /// The other term.
    Right,
}

/// The item for so many steps of a side.
fn steps_of(side: Side, count: u32) -> CertItem
    ensures is { result ≡ steps_of side count }
{
    match side {
        Side::Left => CertItem::Left(count),
        Side::Right => CertItem::Right(count),
    }
}

/// Writes the item for the steps of a side, where there are any. Only `Memory`.
fn put_steps(which: Side, count: u32, draft: &mut Draft) -> Result<(), Halt>
    ensures meter { draft.new.meter ≡ draft.old.meter }
    ensures written { IfOk result (λ _. draft.new.written.items ≡ draft.old.written.items ++ side (steps_of which) count) }
    ensures only_memory { IfErr result (λ h. h ≡ halts.Stop Memory) }
{
    if count == 0 {
        return Ok(());
    }
    draft.put(steps_of(which, count))
}

impl<R: Reducer> Maker<'_, R> {
    /// The weak-head normal form of a term, and how many steps lead to it. `Memory` also where these are over 4,294,967,295, more than the
    /// units of any certificate's making.
    fn counted(
        &self,
        alloc: Global,
        ctx: &Ctx,
        t: &Term,
        draft: &mut Draft,
    ) -> Result<(u32, Term), Halt>
        ensures follows { Follows (whnf self.now.env.now (values ctx.now) t.now draft.old.meter.account) (without_count result) draft.old.meter draft.new.meter }
        ensures count { IfOk result (λ p. p.0 ≡ draft.old.meter.account.left - draft.new.meter.account.left) }
        ensures written { draft.new.written ≡ draft.old.written }
        ensures reached { IfOk result (λ p. WeakSteps self.now.env.now (values ctx.now) t.now p.1) }
    {
        let before = draft.meter.left();
        let whnf = self
            .reducer
            .whnf(alloc, self.env, ctx, t, &mut draft.meter)?;
        let Ok(count) = u32::try_from(before - draft.meter.left()) else {
            return Err(Halt::Stop(Stop::Memory));
        };
        Ok((count, whnf))
    }

    /// The weak-head normal form of a side of a script. Writes the item for its steps, where there are any.
    pub(crate) fn reduced(
        &self,
        alloc: Global,
        ctx: &Ctx,
        which: Side,
        t: &Term,
        draft: &mut Draft,
    ) -> Result<Term, Halt>
        ensures makes { Makes (make_side (steps_of which) self.now.env.now (values ctx.now) t.now draft.old.meter.account) result draft.old draft.new }
        ensures reached { IfOk result (λ w. WeakSteps self.now.env.now (values ctx.now) t.now w) }
    {
        let (count, whnf) = self.counted(alloc, ctx, t, draft)?;
        put_steps(which, count, draft)?;
        Ok(whnf)
    }

    /// The weak-head normal form of a type. Writes the number of its steps.
    pub fn whnf(&self, alloc: Global, ctx: &Ctx, t: &Term, draft: &mut Draft) -> Result<Term, Halt>
        ensures makes { Makes (make_whnf self.now.env.now (values ctx.now) t.now draft.old.meter.account) result draft.old draft.new }
        ensures reached { IfOk result (λ w. WeakSteps self.now.env.now (values ctx.now) t.now w) }
    {
        let (count, whnf) = self.counted(alloc, ctx, t, draft)?;
        draft.put(CertItem::Number(count))?;
        Ok(whnf)
    }
}

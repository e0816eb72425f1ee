//! Spines: heads, and arguments from left to right.
ghost use Rattle.std.specs.Prelude.{◌≡◌, ◌+◌, [], ◌∷◌, length, List};
ghost use Rattle.pc_terms.specs.Syntax.{Term};
ghost use Rattle.calculus_rules.specs.Context.{values};
ghost use Rattle.pc_rules.specs.DirectedRun.{most_nested};
ghost use Rattle.cert_rules.specs.Writing.{noting_all};
ghost use Rattle.cert_rules.specs.MakingTyping.{part_items};
ghost use Rattle.conversion.specs.Comparable.{AreComparable};
ghost use Rattle.script_making.specs.Makes.{Makes};
ghost use Rattle.script_making.specs.Comparing.{spines_making, heads_making, each_making};

use crate::draft::Draft;
use crate::maker::Maker;
use cert_rules::item::CertItem;
use conversion::mode::Mode;
use conversion::spine_heads::fit;
use conversion::spines::clash_of;
use pc_rules::broken::Broken;
use pc_rules::context::Ctx;
use pc_rules::reducer::Reducer;
use pc_rules::stop::Halt;
use pc_terms::term::{Node, Term, Terms};
use std::alloc::Global;

/// Writes an item for the parts of each of `count` applications. Only `Memory`.
fn put_parts(count: usize, draft: &mut Draft) -> Result<(), Halt>
    ensures makes { (xs : List Term) → length xs ≡ count → Makes (noting_all (part_items xs) draft.old.meter.account) result draft.old draft.new }
{
    for _ in 0..count {
        draft.put(CertItem::Parts)?;
    }
    Ok(())
}

impl<R: Reducer> Maker<'_, R> {
    /// Two spines: an item for the parts of each application, then their heads, and their arguments from left to right.
    #[cycle(compare)]
    pub(crate) fn spines(
        &self,
        alloc: Global,
        ctx: &Ctx,
        a: &Term,
        b: &Term,
        draft: &mut Draft,
    ) -> Result<(), Halt>
        requires nest { self.now.room + draft.old.meter.nest ≡ most_nested }
        requires comparable { AreComparable self.now.env.now (values ctx.now) (a.now ∷ []) (b.now ∷ []) }
        ensures makes { Makes (spines_making self.now.env.now self.now.room ctx.now a.now b.now draft.old.meter.account) result draft.old draft.new }
    {
        let left = a.spine(alloc)?;
        let right = b.spine(alloc)?;
        if !fit(&left.0, &left.1, &right.0, &right.1) {
            let clash = clash_of(a, b)?;
            return Err(Halt::Broken(Broken::NotBelow { clash }));
        }
        put_parts(left.1.len(), draft)?;
        self.heads(alloc, ctx, &left.0, &right.0, draft)?;
        self.each(alloc, ctx, &left.1, &right.1, draft)
    }

    /// Two heads of one kind.
    #[cycle(compare)]
    fn heads(
        &self,
        alloc: Global,
        ctx: &Ctx,
        a: &Term,
        b: &Term,
        draft: &mut Draft,
    ) -> Result<(), Halt>
        requires nest { self.now.room + draft.old.meter.nest ≡ most_nested }
        requires comparable { AreComparable self.now.env.now (values ctx.now) (a.now ∷ []) (b.now ∷ []) }
        ensures makes { Makes (heads_making self.now.env.now self.now.room ctx.now a.now b.now draft.old.meter.account) result draft.old draft.new }
    {
        match (a.view(), b.view()) {
            (Node::Case(x), Node::Case(y)) => self.matches(alloc, ctx, x.get(), y.get(), draft),
            (Node::Fix(ds, _), Node::Fix(es, _)) => self.fixpoints(alloc, ctx, ds, es, draft),
            _ => draft.put(CertItem::Same),
        }
    }

    /// Two lists of terms, one by one.
    #[cycle(compare)]
    pub(crate) fn each(
        &self,
        alloc: Global,
        ctx: &Ctx,
        ts: &Terms,
        us: &Terms,
        draft: &mut Draft,
    ) -> Result<(), Halt>
        requires nest { self.now.room + draft.old.meter.nest ≡ most_nested }
        requires comparable { AreComparable self.now.env.now (values ctx.now) ts.now us.now }
        ensures makes { Makes (each_making self.now.env.now self.now.room ctx.now ts.now us.now draft.old.meter.account) result draft.old draft.new }
    {
        let lefts = ts.as_slice();
        let rights = us.as_slice();
        let count = lefts.len().min(rights.len());
        for i in 0..count {
            self.compare(alloc, ctx, Mode::Equal, &lefts[i], &rights[i], draft)?;
        }
        Ok(())
    }
}

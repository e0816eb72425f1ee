//! Matches: their parts, and what is compared under the entries of a telescope.
ghost use Rattle.std.specs.Prelude.{◌≡◌, ◌+◌, [], ◌∷◌, List};
ghost use Rattle.pc_terms.specs.Syntax.{Term};
ghost use Rattle.pc_terms.specs.View.{tree_of};
ghost use Rattle.pc_terms.specs.declared.term.Node.TheVariants.{Case};
ghost use Rattle.calculus_rules.specs.Context.{values};
ghost use Rattle.pc_rules.specs.DirectedRun.{most_nested};
ghost use Rattle.conversion.specs.Comparable.{AreComparable};
ghost use Rattle.script_making.specs.Makes.{Makes};
ghost use Rattle.script_making.specs.Comparing.{matches_making, predicates_making, branch_bodies_making, under_making};

use crate::draft::Draft;
use crate::maker::Maker;
use calculus_rules::declaration::{Constructors, Family};
use cert_rules::item::CertItem;
use conversion::mode::Mode;
use instances::contexts::extended;
use instances::instances::branches::branch_entries;
use instances::instances::predicates::predicate_entries;
use instances::kept::kept_family;
use pc_rules::broken::Broken;
use pc_rules::context::Ctx;
use pc_rules::reducer::Reducer;
use pc_rules::stop::Halt;
use pc_terms::lists::Telescope;
use pc_terms::term::{Match, Term};
use std::alloc::Global;

impl<R: Reducer> Maker<'_, R> {
    /// The parts of two matches: an item, then parameters, predicates, scrutinees, branches.
    #[cycle(compare)]
    pub(crate) fn matches(
        &self,
        alloc: Global,
        ctx: &Ctx,
        x: &Match,
        y: &Match,
        draft: &mut Draft,
    ) -> Result<(), Halt>
        requires nest { self.now.room + draft.old.meter.nest ≡ most_nested }
        requires comparable { AreComparable self.now.env.now (values ctx.now) (tree_of (Case x.now) ∷ []) (tree_of (Case y.now) ∷ []) }
        ensures makes { Makes (matches_making self.now.env.now self.now.room ctx.now x.now y.now draft.old.meter.account) result draft.old draft.new }
    {
        draft.put(CertItem::Parts)?;
        let Some(family) = kept_family(self.env, x.family) else {
            return Err(Halt::Broken(Broken::UnknownName {
                name: x.family.block,
            }));
        };
        self.each(alloc, ctx, &x.params, &y.params, draft)?;
        self.predicates(alloc, ctx, family, x, y, draft)?;
        self.compare(alloc, ctx, Mode::Equal, &x.scrut, &y.scrut, draft)?;
        self.branches(alloc, ctx, &family.ctors, x, y, draft)
    }

    /// The predicates of two matches, under the entries of the left one's.
    #[cycle(compare)]
    fn predicates(
        &self,
        alloc: Global,
        ctx: &Ctx,
        family: &Family,
        x: &Match,
        y: &Match,
        draft: &mut Draft,
    ) -> Result<(), Halt>
        requires nest { self.now.room + draft.old.meter.nest ≡ most_nested }
        requires comparable { AreComparable self.now.env.now (values ctx.now) (tree_of (Case x.now) ∷ []) (tree_of (Case y.now) ∷ []) }
        ensures makes { (Ps : List Term) → Makes (predicates_making self.now.env.now self.now.room ctx.now Ps family.now x.now y.now draft.old.meter.account) result draft.old draft.new }
    {
        let entries = predicate_entries(alloc, x.family, family, &x.params)?;
        self.under(alloc, ctx, &entries, &x.ret, &y.ret, draft)
    }

    /// The bodies of the branches of two matches, under the entries of the left one's.
    #[cycle(compare)]
    fn branches(
        &self,
        alloc: Global,
        ctx: &Ctx,
        ctors: &Constructors,
        x: &Match,
        y: &Match,
        draft: &mut Draft,
    ) -> Result<(), Halt>
        requires nest { self.now.room + draft.old.meter.nest ≡ most_nested }
        requires comparable { AreComparable self.now.env.now (values ctx.now) (tree_of (Case x.now) ∷ []) (tree_of (Case y.now) ∷ []) }
        ensures makes { Makes (branch_bodies_making self.now.env.now self.now.room ctx.now ctors.now x.now y.now draft.old.meter.account) result draft.old draft.new }
    {
        let listed = ctors.as_slice();
        let xs = x.branches.as_slice();
        let ys = y.branches.as_slice();
        let count = listed.len().min(xs.len().min(ys.len()));
        for i in 0..count {
            let left = &xs[i].body;
            let right = &ys[i].body;
            let entries = branch_entries(alloc, &listed[i], &x.params)?;
            self.under(alloc, ctx, &entries, left, right, draft)?;
        }
        Ok(())
    }

    /// Two terms under the entries of a telescope.
    #[cycle(compare)]
    fn under(
        &self,
        alloc: Global,
        ctx: &Ctx,
        entries: &Telescope,
        a: &Term,
        b: &Term,
        draft: &mut Draft,
    ) -> Result<(), Halt>
        requires nest { self.now.room + draft.old.meter.nest ≡ most_nested }
        requires comparable { AreComparable self.now.env.now (values ctx.now) (a.now ∷ []) (b.now ∷ []) }
        ensures makes { Makes (under_making self.now.env.now self.now.room ctx.now entries.now a.now b.now draft.old.meter.account) result draft.old draft.new }
    {
        let inner = extended(alloc, ctx, entries)?;
        self.compare(alloc, &inner, Mode::Equal, a, b, draft)
    }
}

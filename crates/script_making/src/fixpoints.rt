//! Fixpoints: the types of their definitions, then the bodies.
ghost use Rattle.std.specs.Prelude.{◌≡◌, ◌+◌, length};
ghost use Rattle.pc_terms.specs.Lists.{types_of, bodies_of};
ghost use Rattle.pc_terms.specs.Syntax.{list_of};
ghost use Rattle.calculus_rules.specs.Context.{values};
ghost use Rattle.pc_rules.specs.DirectedRun.{most_nested};
ghost use Rattle.conversion.specs.Comparable.{AreComparable};
ghost use Rattle.script_making.specs.Makes.{Makes};
ghost use Rattle.script_making.specs.Comparing.{fixpoints_making, fix_bodies_making};

use crate::draft::Draft;
use crate::maker::Maker;
use cert_rules::item::CertItem;
use conversion::definitions::{bodies, types};
use instances::contexts::{definition_entries, extended};
use pc_rules::context::Ctx;
use pc_rules::reducer::Reducer;
use pc_rules::stop::Halt;
use pc_terms::term::Defs;
use std::alloc::Global;

impl<R: Reducer> Maker<'_, R> {
    /// The parts of two fixpoints: an item, then the types of their definitions, then the bodies.
    #[cycle(compare)]
    pub(crate) fn fixpoints(
        &self,
        alloc: Global,
        ctx: &Ctx,
        ds: &Defs,
        es: &Defs,
        draft: &mut Draft,
    ) -> Result<(), Halt>
        requires nest { self.now.room + draft.old.meter.nest ≡ most_nested }
        requires types { AreComparable self.now.env.now (values ctx.now) (list_of (types_of ds.now)) (list_of (types_of es.now)) }
        requires bodies { AreComparable self.now.env.now (values ctx.now) (list_of (bodies_of (length ds.now) ds.now)) (list_of (bodies_of (length es.now) es.now)) }
        ensures makes { Makes (fixpoints_making self.now.env.now self.now.room ctx.now ds.now es.now draft.old.meter.account) result draft.old draft.new }
    {
        draft.put(CertItem::Parts)?;
        let left = types(alloc, ds)?;
        let right = types(alloc, es)?;
        self.each(alloc, ctx, &left, &right, draft)?;
        self.compare_bodies(alloc, ctx, ds, es, draft)
    }

    /// The bodies of two fixpoints, under the definitions of the left one.
    #[cycle(compare)]
    fn compare_bodies(
        &self,
        alloc: Global,
        ctx: &Ctx,
        ds: &Defs,
        es: &Defs,
        draft: &mut Draft,
    ) -> Result<(), Halt>
        requires nest { self.now.room + draft.old.meter.nest ≡ most_nested }
        requires bodies { AreComparable self.now.env.now (values ctx.now) (list_of (bodies_of (length ds.now) ds.now)) (list_of (bodies_of (length es.now) es.now)) }
        ensures makes { Makes (fix_bodies_making self.now.env.now self.now.room ctx.now ds.now es.now draft.old.meter.account) result draft.old draft.new }
    {
        let entries = definition_entries(alloc, ds)?;
        let inner = extended(alloc, ctx, &entries)?;
        let left = bodies(alloc, ds)?;
        let right = bodies(alloc, es)?;
        self.each(alloc, &inner, &left, &right, draft)
    }
}

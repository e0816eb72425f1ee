//! Lists of terms under bindings.
ghost use Rattle.std.specs.Prelude.{◌≡◌, ◌+◌};
ghost use Rattle.calculus_rules.specs.Context.{values};
ghost use Rattle.pc_rules.specs.Entailment.{test_of};
ghost use Rattle.pc_rules.specs.DirectedRun.{run_all, most_nested};
ghost use Rattle.pc_rules.specs.DirectedComparison.{compare, each_equal};
ghost use Rattle.conversion.specs.Comparable.{AreComparable};
ghost use Rattle.lazy_conversion.specs.Lists.{read_list};
ghost use Rattle.lazy_conversion.specs.Tracks.{Tracks, AnyBeyond};

use crate::comparison::LazyCompare;
use crate::part::Part;
use conversion::mode::Mode;
use pc_rules::meter::Meter;
use pc_rules::stop::Halt;
use pc_terms::term::Terms;
use reduce_machine::bindings::Bindings;
use reduce_machine::setting::Setting;
use std::alloc::Global;

/// Terms under bindings, each below `under` variables of its own.
#[derive(Clone, Copy, Drop)]
pub(crate) struct Parts<'a> {
    pub(crate) terms: &'a Terms,
    pub(crate) under: u64,
    pub(crate) env: &'a Bindings,
}

impl LazyCompare {
    /// Two lists of terms, one by one.
    #[cycle(compare)]
    pub(crate) fn each(
        &self,
        alloc: Global,
        at: &Setting<'_>,
        room: u32,
        ts: Parts<'_>,
        us: Parts<'_>,
        m: &mut Meter,
    ) -> Result<(), Halt>
        requires nest { room + m.old.nest ≡ most_nested }
        requires comparable { AreComparable at.now.env.now (values at.now.ctx.now) (read_list ts) (read_list us) }
        ensures tracks { Tracks (values at.now.ctx.now) (AnyBeyond (read_list ts.entry) (read_list us.entry)) (λ c. run_all (each_equal (compare at.now.env.now (test_of at.now.env.now) room) c (read_list ts.entry) (read_list us.entry))) result m.old m.new }
    {
        let lefts = ts.terms.as_slice();
        let rights = us.terms.as_slice();
        let count = lefts.len().min(rights.len());
        for i in 0..count {
            let left = Part {
                term: &lefts[i],
                under: ts.under,
                env: ts.env,
            };
            let right = Part {
                term: &rights[i],
                under: us.under,
                env: us.env,
            };
            self.part(alloc, at, room, Mode::Equal, left, right, m)?;
        }
        Ok(())
    }
}

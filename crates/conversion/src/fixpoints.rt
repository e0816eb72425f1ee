//! Fixpoints: the types of their definitions, then the bodies.
ghost use Rattle.std.specs.Prelude.{◌≡◌, ◌+◌, length};
ghost use Rattle.pc_terms.specs.Lists.{types_of, bodies_of};
ghost use Rattle.pc_terms.specs.Syntax.{list_of};
ghost use Rattle.calculus_rules.specs.Context.{values};
ghost use Rattle.pc_rules.specs.Entailment.{test_of};
ghost use Rattle.pc_rules.specs.Follows.{Follows};
ghost use Rattle.pc_rules.specs.DirectedRun.{run_all, most_nested};
ghost use Rattle.pc_rules.specs.DirectedComparison.{compare, fixpoints_equal, each_equal, entering, lifted_types};
ghost use Rattle.conversion.specs.Comparable.{AreComparable};

use crate::comparison::Compare;
use crate::definitions::{bodies, types};
use instances::contexts::{definition_entries, extended};
use pc_rules::context::Ctx;
use pc_rules::environment::Env;
use pc_rules::meter::Meter;
use pc_rules::reducer::Reducer;
use pc_rules::stop::Halt;
use pc_terms::term::Defs;
use std::alloc::Global;

impl<R: Reducer + Drop> Compare<R> {
    /// The parts of two fixpoints: the types of their definitions, then the bodies.
    #[cycle(compare)]
    pub(crate) fn fixpoints(
        &self,
        alloc: Global,
        env: &Env,
        ctx: &Ctx,
        room: u32,
        ds: &Defs,
        es: &Defs,
        m: &mut Meter,
    ) -> Result<(), Halt>
        requires nest { room + m.old.nest ≡ most_nested }
        requires types { AreComparable env.now (values ctx.now) (list_of (types_of ds.now)) (list_of (types_of es.now)) }
        requires bodies { AreComparable env.now (values ctx.now) (list_of (bodies_of (length ds.now) ds.now)) (list_of (bodies_of (length es.now) es.now)) }
        ensures follows { Follows (fixpoints_equal (compare env.now (test_of env.now) room) ctx.now (types_of ds.now) (bodies_of (length ds.now) ds.now) (types_of es.now) (bodies_of (length es.now) es.now) m.old.account) result m.old m.new }
    {
        let left = types(alloc, ds)?;
        let right = types(alloc, es)?;
        self.each(alloc, env, ctx, room, &left, &right, m)?;
        self.compare_bodies(alloc, env, ctx, room, ds, es, m)
    }

    /// The bodies of two fixpoints, under the definitions of the left one.
    #[cycle(compare)]
    fn compare_bodies(
        &self,
        alloc: Global,
        env: &Env,
        ctx: &Ctx,
        room: u32,
        ds: &Defs,
        es: &Defs,
        m: &mut Meter,
    ) -> Result<(), Halt>
        requires nest { room + m.old.nest ≡ most_nested }
        requires bodies { AreComparable env.now (values ctx.now) (list_of (bodies_of (length ds.now) ds.now)) (list_of (bodies_of (length es.now) es.now)) }
        ensures follows { Follows (entering ctx.now (lifted_types 0 (list_of (types_of ds.now))) (λ d. run_all (each_equal (compare env.now (test_of env.now) room) d (list_of (bodies_of (length ds.now) ds.now)) (list_of (bodies_of (length es.now) es.now)))) m.old.account) result m.old m.new }
    {
        let entries = definition_entries(alloc, ds)?;
        let inner = extended(alloc, ctx, &entries)?;
        let left = bodies(alloc, ds)?;
        let right = bodies(alloc, es)?;
        self.each(alloc, env, &inner, room, &left, &right, m)
    }
}

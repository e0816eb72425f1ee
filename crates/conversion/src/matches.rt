//! Matches: parameters, predicates, scrutinees and branches.
ghost use Rattle.std.specs.Prelude.{◌≡◌, ◌+◌, [], ◌∷◌, true, List};
ghost use Rattle.trees.specs.Tree.{terms_of};
ghost use Rattle.pc_terms.specs.Syntax.{Term, list_of};
ghost use Rattle.pc_terms.specs.Lists.{arms_of};
ghost use Rattle.pc_terms.specs.View.{tree_of};
ghost use Rattle.pc_terms.specs.declared.term.Node.TheVariants.{Case};
ghost use Rattle.calculus_rules.specs.Context.{values};
ghost use Rattle.calculus_rules.specs.Environment.{with_parameters};
ghost use Rattle.calculus_rules.specs.Instances.{predicate_entries};
ghost use Rattle.pc_rules.specs.Entailment.{test_of};
ghost use Rattle.pc_rules.specs.Follows.{Follows};
ghost use Rattle.pc_rules.specs.DirectedRun.{run_all, most_nested};
ghost use Rattle.calculus_rules.specs.Lookups.{family_of};
ghost use Rattle.pc_rules.specs.DirectedComparison.{compare, matches_equal, branches_equal, entering};
ghost use Rattle.conversion.specs.Comparable.{AreComparable};

use crate::comparison::Compare;
use crate::mode::Mode;
use calculus_rules::declaration::{Constructors, Family};
use instances::contexts::extended;
use instances::instances::branches::branch_entries;
use instances::instances::predicates::predicate_entries;
use instances::kept::kept_family;
use pc_rules::broken::Broken;
use pc_rules::context::Ctx;
use pc_rules::environment::Env;
use pc_rules::meter::Meter;
use pc_rules::reducer::Reducer;
use pc_rules::stop::Halt;
use pc_terms::lists::Telescope;
use pc_terms::term::{Match, Term};
use std::alloc::Global;

impl<R: Reducer + Drop> Compare<R> {
    /// The parts of two matches: parameters, predicates, scrutinees, branches.
    #[cycle(compare)]
    pub(crate) fn matches(
        &self,
        alloc: Global,
        env: &Env,
        ctx: &Ctx,
        room: u32,
        x: &Match,
        y: &Match,
        m: &mut Meter,
    ) -> Result<(), Halt>
        requires nest { room + m.old.nest ≡ most_nested }
        requires comparable { AreComparable env.now (values ctx.now) (tree_of (Case x.now) ∷ []) (tree_of (Case y.now) ∷ []) }
        ensures follows { Follows (matches_equal (compare env.now (test_of env.now) room) ctx.now x.now.family (family_of env.now x.now.family) (terms_of x.now.params) x.now.ret x.now.scrut (arms_of x.now.branches) (terms_of y.now.params) y.now.ret y.now.scrut (arms_of y.now.branches) m.old.account) result m.old m.new }
    {
        let Some(family) = kept_family(env, x.family) else {
            return Err(Halt::Broken(Broken::UnknownName {
                name: x.family.block,
            }));
        };
        self.each(alloc, env, ctx, room, &x.params, &y.params, m)?;
        self.predicates(alloc, env, ctx, room, family, x, y, m)?;
        self.compare(alloc, env, ctx, room, Mode::Equal, &x.scrut, &y.scrut, m)?;
        self.branches(alloc, env, ctx, room, &family.ctors, x, y, m)
    }

    /// The predicates of two matches, under the entries of the left one's.
    #[cycle(compare)]
    fn predicates(
        &self,
        alloc: Global,
        env: &Env,
        ctx: &Ctx,
        room: u32,
        family: &Family,
        x: &Match,
        y: &Match,
        m: &mut Meter,
    ) -> Result<(), Halt>
        requires nest { room + m.old.nest ≡ most_nested }
        requires comparable { AreComparable env.now (values ctx.now) (tree_of (Case x.now) ∷ []) (tree_of (Case y.now) ∷ []) }
        ensures follows { (Ps : List Term) → Follows (entering ctx.now (predicate_entries x.now.family (with_parameters Ps family.now) x.now.params) (λ d. compare env.now (test_of env.now) room d true x.now.ret y.now.ret) m.old.account) result m.old m.new }
    {
        let entries = predicate_entries(alloc, x.family, family, &x.params)?;
        self.under(alloc, env, ctx, room, &entries, &x.ret, &y.ret, m)
    }

    /// The bodies of the branches of two matches, under the entries of the left one's.
    #[cycle(compare)]
    fn branches(
        &self,
        alloc: Global,
        env: &Env,
        ctx: &Ctx,
        room: u32,
        ctors: &Constructors,
        x: &Match,
        y: &Match,
        m: &mut Meter,
    ) -> Result<(), Halt>
        requires nest { room + m.old.nest ≡ most_nested }
        requires comparable { AreComparable env.now (values ctx.now) (tree_of (Case x.now) ∷ []) (tree_of (Case y.now) ∷ []) }
        ensures follows { Follows (run_all (branches_equal (compare env.now (test_of env.now) room) ctx.now x.now.params ctors.now (list_of (arms_of x.now.branches)) (list_of (arms_of y.now.branches))) m.old.account) result m.old m.new }
    {
        let listed = ctors.as_slice();
        let xs = x.branches.as_slice();
        let ys = y.branches.as_slice();
        let count = listed.len().min(xs.len().min(ys.len()));
        for i in 0..count {
            let left = &xs[i].body;
            let right = &ys[i].body;
            let entries = branch_entries(alloc, &listed[i], &x.params)?;
            self.under(alloc, env, ctx, room, &entries, left, right, m)?;
        }
        Ok(())
    }

    /// Two terms under the entries of a telescope.
    #[cycle(compare)]
    fn under(
        &self,
        alloc: Global,
        env: &Env,
        ctx: &Ctx,
        room: u32,
        entries: &Telescope,
        a: &Term,
        b: &Term,
        m: &mut Meter,
    ) -> Result<(), Halt>
        requires nest { room + m.old.nest ≡ most_nested }
        requires comparable { AreComparable env.now (values ctx.now) (a.now ∷ []) (b.now ∷ []) }
        ensures follows { Follows (entering ctx.now entries.now (λ d. compare env.now (test_of env.now) room d true a.now b.now) m.old.account) result m.old m.new }
    {
        let inner = extended(alloc, ctx, entries)?;
        self.compare(alloc, env, &inner, room, Mode::Equal, a, b, m)
    }
}

//! Spines: heads, and arguments from left to right.
ghost use Rattle.std.specs.Prelude.{◌≡◌, ◌+◌, [], ◌∷◌, true, length, IfOk, IfErr};
ghost use Rattle.pc_terms.specs.View.{tree_of};
ghost use Rattle.pc_terms.specs.declared.term.MakeFault.TheVariants.{Memory};
ghost use Rattle.pc_rules.specs.declared.broken.Clash.TheVariants.{Terms as ClashOfTerms};
ghost use Rattle.calculus_rules.specs.Context.{values};
ghost use Rattle.pc_rules.specs.Entailment.{test_of};
ghost use Rattle.pc_rules.specs.Follows.{Follows};
ghost use Rattle.pc_rules.specs.DirectedRun.{run_all, most_nested};
ghost use Rattle.pc_rules.specs.DirectedComparison.{compare, spines_equal, heads_equal, each_equal};
ghost use Rattle.conversion.specs.Comparable.{AreComparable};

use crate::comparison::Compare;
use crate::mode::Mode;
use crate::spine_heads::fit;
use pc_rules::broken::{Broken, Clash};
use pc_rules::context::Ctx;
use pc_rules::environment::Env;
use pc_rules::meter::Meter;
use pc_rules::reducer::Reducer;
use pc_rules::stop::Halt;
use pc_terms::term::{MakeFault, Node, Term, Terms};
use std::alloc::Global;

/// The clash of two weak-head normal forms. Only `Memory`.
pub fn clash_of(a: &Term, b: &Term) -> Result<Clash, MakeFault>
    ensures ok { IfOk result (λ c. c ≡ ClashOfTerms a.now b.now) }
    ensures only_memory { IfErr result (λ e. e ≡ Memory) }
{
    let left = a.share()?;
    let right = b.share()?;
    Ok(Clash::Terms(left, right))
}

impl<R: Reducer + Drop> Compare<R> {
    /// Two spines: their heads, and their arguments from left to right.
    #[cycle(compare)]
    pub(crate) fn spines(
        &self,
        alloc: Global,
        env: &Env,
        ctx: &Ctx,
        room: u32,
        a: &Term,
        b: &Term,
        m: &mut Meter,
    ) -> Result<(), Halt>
        requires nest { room + m.old.nest ≡ most_nested }
        requires comparable { AreComparable env.now (values ctx.now) (a.now ∷ []) (b.now ∷ []) }
        ensures follows { Follows (spines_equal env.now (compare env.now (test_of env.now) room) ctx.now a.now b.now m.old.account) result m.old m.new }
    {
        let left = a.spine(alloc)?;
        let right = b.spine(alloc)?;
        if !fit(&left.0, &left.1, &right.0, &right.1) {
            let clash = clash_of(a, b)?;
            return Err(Halt::Broken(Broken::NotBelow { clash }));
        }
        self.heads(alloc, env, ctx, room, &left.0, &right.0, m)?;
        self.each(alloc, env, ctx, room, &left.1, &right.1, m)
    }

    /// Two heads of one kind.
    #[cycle(compare)]
    fn heads(
        &self,
        alloc: Global,
        env: &Env,
        ctx: &Ctx,
        room: u32,
        a: &Term,
        b: &Term,
        m: &mut Meter,
    ) -> Result<(), Halt>
        requires nest { room + m.old.nest ≡ most_nested }
        requires comparable { AreComparable env.now (values ctx.now) (a.now ∷ []) (b.now ∷ []) }
        ensures follows { Follows (heads_equal env.now (compare env.now (test_of env.now) room) ctx.now a.now b.now m.old.account) result m.old m.new }
    {
        match (a.view(), b.view()) {
            (Node::Case(x), Node::Case(y)) => self.matches(
                alloc,
                env,
                ctx,
                room,
                x.get(),
                y.get(),
                m,
            ),
            (Node::Fix(ds, _), Node::Fix(es, _)) => {
                self.fixpoints(alloc, env, ctx, room, ds, es, m)
            }
            _ => Ok(()),
        }
    }

    /// Two lists of terms, one by one.
    #[cycle(compare)]
    pub(crate) fn each(
        &self,
        alloc: Global,
        env: &Env,
        ctx: &Ctx,
        room: u32,
        ts: &Terms,
        us: &Terms,
        m: &mut Meter,
    ) -> Result<(), Halt>
        requires nest { room + m.old.nest ≡ most_nested }
        requires comparable { AreComparable env.now (values ctx.now) ts.now us.now }
        ensures follows { Follows (run_all (each_equal (compare env.now (test_of env.now) room) ctx.now ts.now us.now) m.old.account) result m.old m.new }
    {
        let lefts = ts.as_slice();
        let rights = us.as_slice();
        let count = lefts.len().min(rights.len());
        for i in 0..count {
            self.compare(alloc, env, ctx, room, Mode::Equal, &lefts[i], &rights[i], m)?;
        }
        Ok(())
    }
}

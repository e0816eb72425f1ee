//! Spines: heads, and arguments from left to right.
ghost use Rattle.std.specs.Prelude.{◌≡◌, ◌+◌, [], ◌∷◌, IfOk, IfErr};
ghost use Rattle.pc_terms.specs.Syntax.{head, args};
ghost use Rattle.pc_terms.specs.declared.term.MakeFault.TheVariants.{TooDeep};
ghost use Rattle.pc_rules.specs.declared.broken.Clash.TheVariants.{Terms as ClashOfTerms};
ghost use Rattle.calculus_rules.specs.Context.{values};
ghost use Rattle.pc_rules.specs.Entailment.{test_of};
ghost use Rattle.pc_rules.specs.DirectedRun.{run_all, most_nested};
ghost use Rattle.pc_rules.specs.DirectedComparison.{compare, spines_equal, heads_equal, each_equal};
ghost use Rattle.conversion.specs.Comparable.{AreComparable};
ghost use Rattle.reduce_machine.specs.Layers.{IsMatchNode};
ghost use Rattle.reduce_machine.specs.Seen.{seen_term, IsSeen};
ghost use Rattle.lazy_conversion.specs.Sound.{IsNormal};
ghost use Rattle.lazy_conversion.specs.Tracks.{Tracks, EitherBeyond};

use crate::comparison::LazyCompare;
use crate::spine_heads::fit;
use crate::stuck::{fixpoint, stuck_match};
use conversion::mode::Mode;
use pc_rules::broken::{Broken, Clash};
use pc_rules::meter::Meter;
use pc_rules::stop::Halt;
use pc_terms::term::MakeFault;
use reduce_machine::seen::Seen;
use reduce_machine::setting::Setting;
use std::alloc::Global;

/// The clash of two values, which are read.
fn clash_of(alloc: Global, x: Seen<'_>, y: Seen<'_>) -> Result<Clash, MakeFault>
    requires left { IsSeen x }
    requires right { IsSeen y }
    ensures ok { IfOk result (λ c. c ≡ ClashOfTerms (seen_term x.entry) (seen_term y.entry)) }
    ensures too_deep { IfErr result (λ e. e ≡ TooDeep → EitherBeyond (seen_term x.entry) (seen_term y.entry)) }
{
    let left = x.read(alloc)?;
    let right = y.read(alloc)?;
    Ok(Clash::Terms(left, right))
}

impl LazyCompare {
    /// Two spines: their heads, and their arguments from left to right. What is reduced for one argument is kept for those that follow, and for what
    /// they lead to, as where two numbers are compared successor by successor.
    #[cycle(compare)]
    #[inline(never)]
    pub(crate) fn spines(
        &self,
        alloc: Global,
        at: &Setting<'_>,
        room: u32,
        x: Seen<'_>,
        y: Seen<'_>,
        m: &mut Meter,
    ) -> Result<(), Halt>
        requires nest { room + m.old.nest ≡ most_nested }
        requires left { IsNormal at.now.env.now (values at.now.ctx.now) x }
        requires right { IsNormal at.now.env.now (values at.now.ctx.now) y }
        requires comparable { AreComparable at.now.env.now (values at.now.ctx.now) (seen_term x ∷ []) (seen_term y ∷ []) }
        ensures tracks { Tracks (values at.now.ctx.now) (EitherBeyond (seen_term x.entry) (seen_term y.entry)) (λ c. spines_equal at.now.env.now (compare at.now.env.now (test_of at.now.env.now) room) c (seen_term x.entry) (seen_term y.entry)) result m.old m.new }
    {
        if !fit(x, y) {
            let clash = clash_of(alloc, x, y)?;
            return Err(Halt::Broken(Broken::NotBelow { clash }));
        }
        self.heads(alloc, at, room, x, y, m)?;
        let keeping = at.keeping(alloc)?;
        self.arguments(alloc, &keeping, room, x, y, m)
    }

    /// The heads of two values.
    #[cycle(compare)]
    fn heads(
        &self,
        alloc: Global,
        at: &Setting<'_>,
        room: u32,
        x: Seen<'_>,
        y: Seen<'_>,
        m: &mut Meter,
    ) -> Result<(), Halt>
        requires nest { room + m.old.nest ≡ most_nested }
        requires left { IsNormal at.now.env.now (values at.now.ctx.now) x }
        requires right { IsNormal at.now.env.now (values at.now.ctx.now) y }
        requires comparable { AreComparable at.now.env.now (values at.now.ctx.now) (seen_term x ∷ []) (seen_term y ∷ []) }
        ensures tracks { Tracks (values at.now.ctx.now) (EitherBeyond (seen_term x.entry) (seen_term y.entry)) (λ c. heads_equal at.now.env.now (compare at.now.env.now (test_of at.now.env.now) room) c (head (seen_term x.entry)) (head (seen_term y.entry))) result m.old m.new }
    {
        let Some(f) = stuck_match(x) else {
            return self.recursive_heads(alloc, at, room, x, y, m);
        };
        let Some(g) = stuck_match(y) else {
            return Ok(());
        };
        self.matches(alloc, at, room, f, g, m)
    }

    /// The heads of two values, of which the left one is no match.
    #[cycle(compare)]
    fn recursive_heads(
        &self,
        alloc: Global,
        at: &Setting<'_>,
        room: u32,
        x: Seen<'_>,
        y: Seen<'_>,
        m: &mut Meter,
    ) -> Result<(), Halt>
        requires nest { room + m.old.nest ≡ most_nested }
        requires left { IsNormal at.now.env.now (values at.now.ctx.now) x }
        requires right { IsNormal at.now.env.now (values at.now.ctx.now) y }
        requires other { IsMatchNode (head (seen_term x)) → ⊥ }
        requires comparable { AreComparable at.now.env.now (values at.now.ctx.now) (seen_term x ∷ []) (seen_term y ∷ []) }
        ensures tracks { Tracks (values at.now.ctx.now) (EitherBeyond (seen_term x.entry) (seen_term y.entry)) (λ c. heads_equal at.now.env.now (compare at.now.env.now (test_of at.now.env.now) room) c (head (seen_term x.entry)) (head (seen_term y.entry))) result m.old m.new }
    {
        let Some(f) = fixpoint(x) else {
            return Ok(());
        };
        let Some(g) = fixpoint(y) else {
            return Ok(());
        };
        self.fixpoints(alloc, at, room, f, g, m)
    }

    /// The arguments of two values, one by one.
    #[cycle(compare)]
    fn arguments(
        &self,
        alloc: Global,
        at: &Setting<'_>,
        room: u32,
        x: Seen<'_>,
        y: Seen<'_>,
        m: &mut Meter,
    ) -> Result<(), Halt>
        requires nest { room + m.old.nest ≡ most_nested }
        requires left { IsNormal at.now.env.now (values at.now.ctx.now) x }
        requires right { IsNormal at.now.env.now (values at.now.ctx.now) y }
        requires comparable { AreComparable at.now.env.now (values at.now.ctx.now) (seen_term x ∷ []) (seen_term y ∷ []) }
        ensures tracks { Tracks (values at.now.ctx.now) (EitherBeyond (seen_term x.entry) (seen_term y.entry)) (λ c. run_all (each_equal (compare at.now.env.now (test_of at.now.env.now) room) c (args (seen_term x.entry)) (args (seen_term y.entry)))) result m.old m.new }
    {
        let count = x.count().min(y.count());
        for i in 0..count {
            let left = x.argument(i);
            let right = y.argument(i);
            self.compare(alloc, at, room, Mode::Equal, left, right, m)?;
        }
        Ok(())
    }
}

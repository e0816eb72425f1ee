//! Comparisons that end at their start.
ghost use Rattle.std.specs.Prelude.{◌≡◌, ◌+◌, Bool, true};
ghost use Rattle.pc_terms.specs.Syntax.{Term};
ghost use Rattle.calculus_rules.specs.Environment.{Env};
ghost use Rattle.calculus_rules.specs.Context.{Context};
ghost use Rattle.calculus_rules.specs.Same.{same};
ghost use Rattle.pc_rules.specs.DirectedComparison.{Test, compare};
ghost use Rattle.pc_rules.specs.Follows.{Follows};
ghost use Rattle.pc_rules.specs.DirectedRun.{most_nested};

use pc_rules::meter::Meter;
use pc_rules::stop::{Halt, Stop};

/// The comparison of two terms that are the same: a unit, and one more rule that stands for a moment. Takes no memory.
pub(crate) fn compare_same(room: u32, m: &mut Meter) -> Result<(), Halt>
    requires nest { room + m.old.nest ≡ most_nested }
    ensures follows { (E : Env) (q : Test) (c : Context) (equal : Bool) (a b : Term) → same a b ≡ true → Follows (compare E q room c equal a b m.old.account) result m.old m.new }
{
    if !m.tick() {
        return Err(Halt::Stop(Stop::Spent));
    }
    if !m.enter() {
        return Err(Halt::Stop(Stop::TooDeep));
    }
    m.leave();
    Ok(())
}

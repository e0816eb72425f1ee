//! Comparison of sorts.
ghost use Rattle.std.specs.Prelude.{◌≡◌, if◌then◌else◌};
ghost use Rattle.universe_levels.specs.Consistency.{AreOver, IsSortOver};
ghost use Rattle.pc_rules.specs.declared.meter.Account.{Account};
ghost use Rattle.pc_rules.specs.declared.broken.Broken.TheVariants.{NotBelow};
ghost use Rattle.pc_rules.specs.declared.broken.Clash.TheVariants.{Sorts as ClashOfSorts};
ghost use Rattle.pc_rules.specs.DirectedRun.{done, refused};
ghost use Rattle.pc_rules.specs.DirectedComparison.{sorts_stand};
ghost use Rattle.pc_rules.specs.Entailment.{test_of};
ghost use Rattle.pc_rules.specs.Follows.{Answers};
ghost use Rattle.conversion.specs.Modes.{is_equal};

use crate::mode::Mode;
use pc_rules::broken::{BoxedSort, Broken, Clash};
use pc_rules::environment::Env;
use pc_rules::stop::Halt;
use std::alloc::Global;
use universe_levels::sort::Sort;

/// Whether a sort is at most another by the environment's constraints, and the other at most the first where they are to be equal. Takes no
/// memory.
pub fn stand_as(env: &Env, mode: Mode, s: &Sort, t: &Sort) -> bool
    requires constraints { AreOver env.now.levels env.now.constraints }
    requires left { IsSortOver env.now.levels s.now }
    requires right { IsSortOver env.now.levels t.now }
    ensures is { result ≡ sorts_stand (test_of env.now) (is_equal mode) s.now t.now }
{
    match mode {
        Mode::Equal => env.entails(s, t) && env.entails(t, s),
        Mode::Below => env.entails(s, t),
    }
}

/// Compares two sorts by the environment's constraints. `Broken` keeps the two where they don't stand as the mode asks. Answers only `Memory`
/// besides.
pub fn compare_sorts(alloc: Global, env: &Env, mode: Mode, s: &Sort, t: &Sort) -> Result<(), Halt>
    requires constraints { AreOver env.now.levels env.now.constraints }
    requires left { IsSortOver env.now.levels s.now }
    requires right { IsSortOver env.now.levels t.now }
    ensures answers { (u : Account) → Answers (if sorts_stand (test_of env.now) (is_equal mode) s.now t.now then done tt u else refused (NotBelow (ClashOfSorts s.now t.now)) u) result u }
{
    if stand_as(env, mode, s, t) {
        return Ok(());
    }
    let left = BoxedSort::new(alloc, s.share(alloc)?)?;
    let right = BoxedSort::new(alloc, t.share(alloc)?)?;
    Err(Halt::Broken(Broken::NotBelow {
        clash: Clash::Sorts(left, right),
    }))
}

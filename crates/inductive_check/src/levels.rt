//! Levels of sorts.
ghost use Rattle.pc_rules.specs.declared.meter.Account.{Account};
ghost use Rattle.pc_rules.specs.Follows.{Answers};
ghost use Rattle.pc_rules.specs.DirectedTyping.{undeclared_in, levels_declared};

use pc_rules::broken::Broken;
use pc_rules::stop::Halt;
use universe_levels::sort::Sort;

/// Whether the levels of a sort are among the declared ones, of which the last has the number `levels`. `LevelUndeclared` with the first
/// that is not. Takes no memory.
pub fn are_declared(levels: u32, sort: &Sort) -> Result<(), Halt>
    ensures answers { (u : Account) → Answers (levels_declared (undeclared_in levels sort.now) u) result u }
{
    let Sort::Of(universe) = sort else {
        return Ok(());
    };
    for part in universe.parts() {
        let level = part.level;
        if level.0 > levels {
            return Err(Halt::Broken(Broken::LevelUndeclared { level }));
        }
    }
    Ok(())
}

//! The maximum of level expressions: a list in rising order of levels, each level once with its greatest addition.
ghost use Rattle.std.specs.Prelude.{◌≡◌, ◌<◌, ◌≤◌, ℕ, length, IfErr, OnOk};
ghost use Rattle.universe_levels.specs.Maximum.{with_part, with_parts, IsRising};
ghost use Rattle.universe_levels.specs.Places.{level_at};

use crate::level::{Level, LevelExpr};
use crate::universe::UniverseFault;

/// Puts level expressions to those of `kept`, one by one; answers only `Memory`.
pub(crate) fn put_all(kept: &mut Vec<LevelExpr>, parts: &[LevelExpr]) -> Result<(), UniverseFault>
    requires rising { IsRising kept.old.items }
    ensures value { OnOk result (kept.new.items ≡ with_parts kept.old.items parts.now) }
    ensures only_memory { IfErr result (λ e. e ≡ UniverseFault.Memory) }
{
    for part in parts {
        put(kept, *part)?;
    }
    Ok(())
}

/// Puts a level expression to those of `kept`: a level that is there keeps its greater addition.
fn put(kept: &mut Vec<LevelExpr>, part: LevelExpr) -> Result<(), UniverseFault>
    requires rising { IsRising kept.old.items }
    ensures value { OnOk result (kept.new.items ≡ with_part part kept.old.items) }
    ensures only_memory { IfErr result (λ e. e ≡ UniverseFault.Memory) }
{
    let i = place(kept.as_slice(), part.level);
    if i < kept.len() && kept[i].level == part.level {
        kept[i].add = kept[i].add.max(part.add);
        return Ok(());
    }
    kept.insert(i, part).map_err(|_| UniverseFault::Memory)?;
    Ok(())
}

/// How many of the level expressions have a lesser level, by halving.
fn place(parts: &[LevelExpr], level: Level) -> usize
    requires rising { IsRising parts.now }
    ensures bound { result ≤ length parts.now }
    ensures lesser { (k : ℕ) → k < result → level_at parts.now k < level.0 }
    ensures others { (k : ℕ) → result ≤ k → k < length parts.now → level.0 ≤ level_at parts.now k }
{
    let mut low = 0;
    let mut high = parts.len();
    while low < high {
        let middle = low + (high - low) / 2;
        if parts[middle].level.0 < level.0 {
            low = middle + 1;
        } else {
            high = middle;
        }
    }
    low
}

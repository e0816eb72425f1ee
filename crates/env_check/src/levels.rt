//! Levels, as they are listed.
ghost use Rattle.std.specs.Prelude.{◌≡◌, ◌≢◌, ◌≤◌, length, AllPairs, [], None, IfOk, IfErr};
ghost use Rattle.pc_rules.specs.DirectedDeclarations.{first_repeated};
ghost use Rattle.env_check.specs.Beginning.{Refuses, level_refusal};

use crate::refusal::BareRefusal;
use pc_rules::broken::{Broken, Place};
use std::alloc::Global;
use std::collections::HashSet;
use universe_levels::level::Level;

/// Whether each level is listed once. `DuplicateName` at the first level that was listed before, and else only `Memory`.
pub fn check_levels(alloc: Global, levels: &[Level]) -> Result<(), BareRefusal>
    requires few { length levels.now ≤ 1024 }
    ensures passed { IfOk result (λ _. first_repeated 0 [] levels.now ≡ None) }
    ensures distinct { IfOk result (λ _. AllPairs (λ k l. k ≢ l) levels.now) }
    ensures refused { IfErr result (Refuses (first_repeated 0 [] levels.now) level_refusal) }
{
    let mut before = HashSet::new(alloc);
    for (i, level) in levels.iter().enumerate() {
        let Ok(added) = before.insert(level.0) else {
            return Err(BareRefusal::Memory);
        };
        if !added {
            return Err(BareRefusal::Broken {
                place: Place::Level(i as u32),
                rule: Broken::DuplicateName { name: level.0 },
            });
        }
    }
    Ok(())
}

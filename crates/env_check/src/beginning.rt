//! What is looked at before the declarations: the levels as they are listed, the constraints on them, and their graph.
ghost use Rattle.std.specs.Prelude.{◌≡◌, IfOk, IfErr};
ghost use Rattle.dump_reader.specs.Spelled.{IsSpelled};
ghost use Rattle.env_check.specs.Places.{bare};
ghost use Rattle.env_check.specs.Beginning.{HasSoundLevels, IsRefusedFirst};

use crate::constraints::{check_constraints, graph_of};
use crate::levels::check_levels;
use crate::refusal::BareRefusal;
use dump_reader::environment::RawEnv;
use pc_rules::environment::Env;
use std::alloc::Global;

/// The environment of the levels and constraints that are read, without declarations. `DuplicateName` at a level that was listed before;
/// `LevelUndeclared` at a constraint with a level that is not declared; `UniverseCycle` at the first of some constraints, by their places in rising
/// order, that alone have no valuation; and else only `Memory`.
pub fn bare_env(alloc: Global, raw: &RawEnv) -> Result<Env, BareRefusal>
    requires spelled { IsSpelled raw.now }
    ensures bare { IfOk result (λ e. e ≡ bare raw.now) }
    ensures sound { IfOk result (λ _. HasSoundLevels raw.now) }
    ensures refused { IfErr result (IsRefusedFirst raw.now) }
{
    let levels = raw.levels.len() as u32;
    let constraints = raw.constraints.as_slice();
    check_levels(alloc, raw.levels.as_slice())?;
    check_constraints(levels, constraints)?;
    let graph = graph_of(alloc, levels, constraints)?;
    Ok(Env::new(alloc, graph))
}

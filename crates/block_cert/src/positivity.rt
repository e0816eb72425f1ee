//! Strict positivity of a block, once for the whole of it.
ghost use Rattle.std.specs.Prelude.{◌≡◌};
ghost use Rattle.inductive_check.specs.Given.{IsRawBlock, block_of};
ghost use Rattle.type_cert.specs.Retraces.{Retraces, stand};
ghost use Rattle.block_cert.specs.BlockWalks.{positivity_walk};

use dump_reader::declaration::RawDecl;
use inductive_check::positive::positive;
use pc_rules::environment::Env;
use std::alloc::Global;
use type_cert::halt::WalkHalt;
use type_cert::trail::Trail;

/// Whether a block is strictly positive, over the environment that knows its families by their types alone. Refused at the next item where
/// it is not.
pub(crate) fn positivity(
    alloc: Global,
    env: &Env,
    raw: &RawDecl,
    trail: &mut Trail,
) -> Result<(), WalkHalt>
    requires block { IsRawBlock raw.now }
    ensures retraces { Retraces (positivity_walk env.now (block_of raw.now) (stand trail.old)) result trail.old trail.new }
{
    let item = trail.at;
    if positive(alloc, env, raw, &mut trail.meter)? {
        return Ok(());
    }
    Err(WalkHalt::Barred { item })
}

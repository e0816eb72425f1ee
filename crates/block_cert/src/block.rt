//! A block that is read.
ghost use Rattle.std.specs.Prelude.{◌≡◌, ◌+◌, [], IfOk};
ghost use Rattle.dump_reader.specs.declared.declaration.RawDecl.TheVariants.{Block as RawBlock};
ghost use Rattle.pc_rules.specs.Lookup.{IsNew};
ghost use Rattle.pc_rules.specs.DirectedRun.{most_nested};
ghost use Rattle.rule_laws.specs.Declarations.{BlockFormed, IsCheckedBlock};
ghost use Rattle.type_infer.specs.Ready.{IsReady};
ghost use Rattle.inductive_check.specs.Given.{IsRawBlock, block_of, block_from};
ghost use Rattle.type_cert.specs.Retraces.{Retraces, stand};
ghost use Rattle.block_cert.specs.BlockWalks.{block_walk};

use crate::constructors::families;
use crate::heads::block_heads;
use crate::positivity::positivity;
use calculus_rules::declaration::Block;
use dump_reader::declaration::{RawDecl, RawFamilies};
use inductive_check::block::with_heads;
use inductive_check::sharing::shared_telescope;
use pc_rules::guarder::Guarder;
use pc_terms::leaf::Name;
use pc_terms::lists::Telescope;
use std::alloc::Global;
use type_cert::halt::WalkHalt;
use type_cert::trail::Trail;
use type_cert::typing::TypeWalk;
use type_cert::verifier::Verifier;

/// The walk of a block by its parts: the heads over the environment, the constructors over the environment with the heads, and positivity.
fn walk_parts<G: Guarder>(
    alloc: Global,
    walk: &TypeWalk<'_, G>,
    name: Name,
    params: &Telescope,
    listed: &RawFamilies,
    raw: &RawDecl,
    trail: &mut Trail,
) -> Result<Block, WalkHalt>
    requires nest { walk.now.verifier.room + trail.old.meter.nest ≡ most_nested }
    requires ready { IsReady walk.now.verifier.env.now [] }
    requires new { IsNew walk.now.verifier.env.now name }
    requires parts { raw.now ≡ RawBlock name params.now listed.now }
    ensures retraces { Retraces (block_walk walk.now.verifier (block_from name params.now listed.now) (stand trail.old)) result trail.old trail.new }
    ensures formed { IfOk result (λ _. BlockFormed (block_from name params.now listed.now)) }
{
    let ctx = block_heads(alloc, walk, params, listed, trail)?;
    let under = with_heads(alloc, walk.verifier.env, name, params, listed)?;
    let inner = TypeWalk {
        verifier: Verifier {
            cert: walk.verifier.cert,
            env: &under,
            room: walk.verifier.room,
        },
        guarder: walk.guarder,
        made: walk.made,
    };
    let made = families(alloc, &inner, &ctx, listed, trail)?;
    positivity(alloc, &under, raw, trail)?;
    Ok(Block {
        name,
        params: shared_telescope(alloc, params)?,
        families: made,
    })
}

/// The certified walk of a block of inductive families that is new to the environment: gives it with the sorts of its constructors'
/// arguments (PCUIC, Sozeau et al., "Coq Coq Correct!", POPL 2020, section 2.3).
///
/// Parameters and each family's constructor names, sort and indices come first, over the environment; then the constructors, over the
/// environment in which the families are known by their types alone; then one test of positivity for the whole block. `Barred` keeps the
/// number of the item at which the walk is refused: one that cannot be used, or the next one where a name, a level, a sort, a count or
/// positivity is not as asked. `Spent` exactly where the walk has no end within the units left and `TooDeep` did not come. `TooDeep` only
/// where it passes a limit. `Memory` also where a list of the block has more than 4,294,967,295 items.
pub fn walk_block<G: Guarder>(
    alloc: Global,
    walk: &TypeWalk<'_, G>,
    raw: &RawDecl,
    trail: &mut Trail,
) -> Result<Block, WalkHalt>
    requires nest { walk.now.verifier.room + trail.old.meter.nest ≡ most_nested }
    requires ready { IsReady walk.now.verifier.env.now [] }
    requires block { IsRawBlock raw.now }
    requires new { IsNew walk.now.verifier.env.now (block_of raw.now).name }
    ensures retraces { Retraces (block_walk walk.now.verifier (block_of raw.now) (stand trail.old)) result trail.old trail.new }
    ensures formed { IfOk result (λ _. BlockFormed (block_of raw.now)) }
    ensures fits { IfOk result (λ block. IsCheckedBlock walk.now.verifier.env.now (block_of raw.now) block) }
{
    match raw {
        RawDecl::Block {
            name,
            params,
            families,
        } => walk_parts(alloc, walk, *name, params, families, raw, trail),
        RawDecl::Constant { .. } => unreachable!(),
    }
}

//! Places among the parameters of a block, and what names them.
ghost use Rattle.std.specs.Prelude.{◌≡◌, ◌<◌, IfOk, IfErr, length};
ghost use Rattle.calculus_rules.specs.Naming.{entries_name};
ghost use Rattle.calculus_rules.specs.Positivity.{parameter_target, results_name, families_name, types_name};
ghost use Rattle.pc_rules.specs.declared.stop.Stop.TheVariants.{Memory};

use crate::listing::number;
use calculus_rules::declaration::{Block, Constructor, Family};
use calculus_rules::target::Target;
use pc_rules::naming::{names, some_names};
use pc_rules::stop::Stop;
use pc_terms::term::Term;

/// A parameter of a block, by its place from 0, as a target. `Memory` where the block has more than 4,294,967,295.
pub(crate) fn parameter_target(block: &Block, place: usize) -> Result<Target, Stop>
    requires place { place < length block.now.params }
    ensures is { IfOk result (λ g. g ≡ parameter_target block.now place) }
    ensures only_memory { IfErr result (λ s. s ≡ Memory) }
{
    let count = number(block.params.len())?;
    let variable = number(block.params.len() - 1 - place)?;
    Ok(Target::Parameter {
        block: block.name,
        count,
        variable,
    })
}

/// Whether one of the types of a telescope names the target, where it begins right under the target's parameters. `Memory` where it has more
/// than 4,294,967,295.
fn entries_name(target: Target, types: &[Term]) -> Result<bool, Stop>
    ensures is { IfOk result (λ b. b ≡ entries_name target 0 types.now) }
    ensures only_memory { IfErr result (λ s. s ≡ Memory) }
{
    for under in 0..types.len() {
        if names(target, number(under)?, &types[under]) {
            return Ok(true);
        }
    }
    Ok(false)
}

/// Whether a result term of one of the constructors names the target.
fn results_name(target: Target, ctors: &[Constructor]) -> Result<bool, Stop>
    ensures is { IfOk result (λ b. b ≡ results_name target ctors.now) }
    ensures only_memory { IfErr result (λ s. s ≡ Memory) }
{
    for ctor in ctors {
        if some_names(target, number(ctor.args.len())?, ctor.result.as_slice()) {
            return Ok(true);
        }
    }
    Ok(false)
}

/// Whether an index type or a result term of one of the families names the target.
fn families_name(target: Target, families: &[Family]) -> Result<bool, Stop>
    ensures is { IfOk result (λ b. b ≡ families_name target families.now) }
    ensures only_memory { IfErr result (λ s. s ≡ Memory) }
{
    for family in families {
        if entries_name(target, family.indices.as_slice())? {
            return Ok(true);
        }
        if results_name(target, family.ctors.as_slice())? {
            return Ok(true);
        }
    }
    Ok(false)
}

/// Whether a later parameter's type, an index type or a result term of the block names the parameter at a place. `Memory` where a list of the
/// block has more than 4,294,967,295 items. Takes no memory.
pub(crate) fn types_name(block: &Block, place: usize, target: Target) -> Result<bool, Stop>
    requires place { place < length block.now.params }
    requires target { target ≡ parameter_target block.now place }
    ensures is { IfOk result (λ b. b ≡ types_name block.now place) }
    ensures only_memory { IfErr result (λ s. s ≡ Memory) }
{
    let count = number(block.params.len())?;
    let innermost = Target::Parameter {
        block: block.name,
        count,
        variable: 0,
    };
    if entries_name(innermost, &block.params.as_slice()[place + 1..])? {
        return Ok(true);
    }
    families_name(target, block.families.as_slice())
}

//! Strict positivity of a whole block, as a test of its own.
ghost use Rattle.std.specs.Prelude.{◌≡◌, true, map, IfOk};
ghost use Rattle.calculus_rules.specs.Positivity.{IsPositive};
ghost use Rattle.pc_rules.specs.DirectedPositivity.{types_positive, constructor_positive, constructors_positive, families_positive, block_positive};
ghost use Rattle.pc_rules.specs.Follows.{Follows, halted};
ghost use Rattle.inductive_check.specs.Given.{ctor_of, family_of, IsRawBlock, block_of};

use crate::positivity::is_positive;
use calculus_rules::target::Target;
use dump_reader::declaration::{RawCtor, RawDecl, RawFamily};
use pc_rules::environment::Env;
use pc_rules::meter::Meter;
use pc_rules::naming::some_names;
use pc_rules::stop::Stop;
use pc_terms::leaf::Name;
use pc_terms::lists::Telescope;
use std::alloc::Global;

/// Whether the types of a constructor's arguments are strictly positive in the block. `Spent` where there are too few units for that.
fn types_positive(
    alloc: Global,
    env: &Env,
    block: Name,
    types: &Telescope,
    m: &mut Meter,
) -> Result<bool, Stop>
    ensures follows { Follows (types_positive env.now block types.now m.old.account) (halted result) m.old m.new }
{
    for ty in types.as_slice() {
        if !is_positive(alloc, env, block, ty, m)? {
            return Ok(false);
        }
    }
    Ok(true)
}

/// Whether a constructor's argument types are strictly positive in the block and its result terms name none of the block's families.
fn constructor_positive(
    alloc: Global,
    env: &Env,
    block: Name,
    ctor: &RawCtor,
    m: &mut Meter,
) -> Result<bool, Stop>
    ensures follows { Follows (constructor_positive env.now block (ctor_of ctor.now) m.old.account) (halted result) m.old m.new }
{
    if !types_positive(alloc, env, block, &ctor.args, m)? {
        return Ok(false);
    }
    Ok(!some_names(Target::Families(block), 0, ctor.result.as_slice()))
}

/// Whether all constructors of a family of the block are as `constructor_positive` asks.
fn constructors_positive(
    alloc: Global,
    env: &Env,
    block: Name,
    ctors: &[RawCtor],
    m: &mut Meter,
) -> Result<bool, Stop>
    ensures follows { Follows (constructors_positive env.now block (map ctor_of ctors.now) m.old.account) (halted result) m.old m.new }
{
    for ctor in ctors {
        if !constructor_positive(alloc, env, block, ctor, m)? {
            return Ok(false);
        }
    }
    Ok(true)
}

/// Whether all families of the block are.
fn families_positive(
    alloc: Global,
    env: &Env,
    block: Name,
    families: &[RawFamily],
    m: &mut Meter,
) -> Result<bool, Stop>
    ensures follows { Follows (families_positive env.now block (map family_of families.now) m.old.account) (halted result) m.old m.new }
{
    for family in families {
        if !constructors_positive(alloc, env, block, family.ctors.as_slice(), m)? {
            return Ok(false);
        }
    }
    Ok(true)
}

/// Whether a block of inductive families, over the environment before it, is strictly positive: the argument types of its constructors are
/// good for its families, which may stand as parameters of kept families where these use them positively, and the result terms name none of
/// its families.
///
/// Goes constructor by constructor, through the argument types in order and then the result terms, and stops at the first that does not
/// hold. Takes the units that `check_block` takes for this: one for each parameter of a kept family that names what the test is for. `Spent`
/// exactly where there are too few. Never `TooDeep`. `Memory` also where a list of a block has more than 4,294,967,295 items.
pub fn positive(alloc: Global, env: &Env, raw: &RawDecl, m: &mut Meter) -> Result<bool, Stop>
    requires block { IsRawBlock raw.now }
    ensures follows { Follows (block_positive env.now (block_of raw.now) m.old.account) (halted result) m.old m.new }
    ensures positive { IfOk result (λ b. b ≡ true → IsPositive env.now (block_of raw.now)) }
{
    match raw {
        RawDecl::Block { name, families, .. } => {
            families_positive(alloc, env, *name, families.as_slice(), m)
        }
        RawDecl::Constant { .. } => unreachable!(),
    }
}

//! Constants, families and constructors: rules 7 to 9.
ghost use Rattle.std.specs.Prelude.{◌≡◌, ◌⊎◌, IfOk, IfErr, MatchOption, None, Some, slice_get};
ghost use Rattle.pc_rules.specs.declared.meter.Account.{Account};
ghost use Rattle.calculus_rules.specs.Environment.{with_parameters, family_at};
ghost use Rattle.pc_rules.specs.Follows.{Halts, Answers};
ghost use Rattle.calculus_rules.specs.Lookups.{kept_at};
ghost use Rattle.pc_rules.specs.DirectedTyping.{const_rule, family_number, ind_rule, construct_rule};

use crate::made_types::MadeTypes;
use calculus_rules::declaration::{Block, Constructor, Family, Kept};
use pc_rules::broken::Broken;
use pc_rules::environment::Env;
use pc_rules::stop::{Halt, Stop};
use pc_terms::leaf::{FamilyId, Name};
use pc_terms::term::Term;
use std::alloc::Global;

/// The type of a constant, rule 7: a closed term, as it is kept. `UnknownName` unless a constant is kept by the name, and else only `Memory`.
pub fn const_rule(env: &Env, name: Name) -> Result<Term, Halt>
    ensures answers { (u : Account) → Answers (const_rule name (kept_at env.now.declarations name) u) result u }
{
    match env.find(name) {
        Some(Kept::Constant { ty, .. }) => Ok(ty.share()?),
        _ => Err(Halt::Broken(Broken::UnknownName { name })),
    }
}

/// The refusal that there is no item `number` (from 0) of `items` items: `BadNumber`, or `Memory` where `items` is no number of 32 bits.
pub fn bad_number(number: u32, items: usize) -> Halt
    ensures is { (result ≡ Halt.Broken (Broken.BadNumber number items)) ⊎ (result ≡ Halt.Stop Stop.Memory) }
{
    match u32::try_from(items) {
        Ok(count) => Halt::Broken(Broken::BadNumber { number, count }),
        Err(_) => Halt::Stop(Stop::Memory),
    }
}

/// Family `i` (from 0) of a block.
fn family_at(block: &Block, i: u32) -> Option<&Family>
    ensures at { MatchOption result (slice_get block.now.families i ≡ None) (λ F. slice_get block.now.families i ≡ Some F.now) }
{
    block.families.as_slice().get(i as usize)
}

/// Constructor `i` (from 0) of a family.
fn constructor_at(family: &Family, i: u32) -> Option<&Constructor>
    ensures at { MatchOption result (slice_get family.now.ctors i ≡ None) (λ C. slice_get family.now.ctors i ≡ Some C.now) }
{
    family.ctors.as_slice().get(i as usize)
}

/// The family of a block by its number (from 0) in `id`. `BadNumber` where the block has not so many.
pub fn family_in(block: &Block, id: FamilyId) -> Result<&Family, Halt>
    ensures ok { IfOk result (λ F. family_at block.now id.family ≡ Some (with_parameters block.now.params F.now)) }
    ensures err { IfErr result (λ h. (u : Account) → Halts (family_number block.now id (family_at block.now id.family) u) h u) }
{
    match family_at(block, id.family) {
        Some(family) => Ok(family),
        None => Err(bad_number(id.family, block.families.len())),
    }
}

/// The type of a family, rule 8: the closed product over parameters and indices that ends in its sort. `UnknownName` where neither a block nor
/// heads are kept by the name, then `BadNumber`.
pub fn ind_rule(alloc: Global, env: &Env, id: FamilyId) -> Result<Term, Halt>
    ensures answers { (u : Account) → Answers (ind_rule env.now id u) result u }
{
    family_rule(alloc, &MadeTypes::none(), env, id)
}

/// The type of a family, rule 8, as `ind_rule`; it is taken from the table where it was made before, and else kept there.
pub fn family_rule(alloc: Global, made: &MadeTypes, env: &Env, id: FamilyId) -> Result<Term, Halt>
    ensures answers { (u : Account) → Answers (ind_rule env.now id u) result u }
{
    let Some(block) = env.block(id.block) else {
        return Err(Halt::Broken(Broken::UnknownName { name: id.block }));
    };
    let family = family_in(block, id)?;
    Ok(made.family_type(alloc, id, block, family)?)
}

/// The type of constructor `number` (from 0) of a family of a whole block, rule 9: the closed product over parameters and arguments that ends in
/// the family at the parameters and the result. `UnknownName`, then `BadNumber` for the family, then for the constructor.
pub fn construct_rule(alloc: Global, env: &Env, id: FamilyId, number: u32) -> Result<Term, Halt>
    ensures answers { (u : Account) → Answers (construct_rule env.now id number u) result u }
{
    constructor_rule(alloc, &MadeTypes::none(), env, id, number)
}

/// The type of a constructor, rule 9, as `construct_rule`; it is taken from the table where it was made before, and else kept there.
pub fn constructor_rule(
    alloc: Global,
    made: &MadeTypes,
    env: &Env,
    id: FamilyId,
    number: u32,
) -> Result<Term, Halt>
    ensures answers { (u : Account) → Answers (construct_rule env.now id number u) result u }
{
    let Some(block) = env.whole_block(id.block) else {
        return Err(Halt::Broken(Broken::UnknownName { name: id.block }));
    };
    let family = family_in(block, id)?;
    match constructor_at(family, number) {
        Some(ctor) => Ok(made.constructor_type(alloc, id, number, block, ctor)?),
        None => Err(bad_number(number, family.ctors.len())),
    }
}

//! The instantiations: types and entries that the rules form from what an environment keeps, and the values of predicates and fixpoints
//! (PCUIC, Sozeau et al., POPL 2020, section 2).
//!
//! The type of a family may be asked for while its block is being declared, and is known by its heads. Constructors and matches ask for a
//! whole block. That the family or the constructor is there is a condition of each call; where counts do not fit, the answer is still that
//! of the definition.
//!
//! Each call gives the term or the entries of its definition (`ok`). It answers `TooDeep` only where a term that the asked one is made of
//! is beyond the limits of terms (`too_deep`), and else only `Memory` (`unspent`).
ghost use Rattle.std.specs.Prelude.{◌≡◌, ◌≢◌, ◌<◌, Some, IsSome, IfOk, IfErr, IsTrue, length, slice_get};
ghost use Rattle.calculus_rules.specs.declared.declaration.Constructor.{Constructor};
ghost use Rattle.pc_rules.specs.declared.stop.Stop.TheVariants.{TooDeep, Spent};
ghost use Rattle.calculus_rules.specs.Environment.{FamilyDecl};
ghost use Rattle.calculus_rules.specs.Instances.{family_type, constructor_type, predicate_entries, predicate_at, branch_entries, branch_type};
ghost use Rattle.pc_rules.specs.DirectedRun.{is_beyond, any_beyond};
ghost use Rattle.pc_rules.specs.DirectedTyping.{branch_beyond};
ghost use Rattle.calculus_rules.specs.Lookups.{family_of};
ghost use Rattle.instances.specs.Known.{known_family, constructor_of};
ghost use Rattle.instances.specs.Unfolding.{unfolding_of, unfolding_beyond};

use crate::instances::constructors::constructor_type;
use crate::instances::families::family_type;
use crate::instances::predicates::{self, predicate_entries};
use crate::instances::{branches, fixpoints};
use calculus_rules::declaration::Constructor;
use pc_rules::environment::Env;
use pc_rules::stop::Stop;
use pc_terms::leaf::FamilyId;
use pc_terms::lists::Telescope;
use pc_terms::term::{Defs, Match, Term, Terms};
use std::alloc::Global;

/// A constructor of a whole block, which is there.
fn kept_constructor(env: &Env, id: FamilyId, c: u32) -> &Constructor
    requires kept { IsSome (constructor_of env.now id c) }
    ensures is { constructor_of env.now id c ≡ Some result.now }
{
    let block = env.whole_block(id.block).unwrap();
    let family = &block.families.as_slice()[id.family as usize];
    &family.ctors.as_slice()[c as usize]
}

/// The type of a family: the product over the block's parameters and the family's indices that ends in the family's sort.
///
/// The block is kept, whole or as heads, and has the family. The type is closed: under each of its domains variable 0 is the parameter or
/// index right before. `TooDeep` only where the type is beyond the limits of terms.
pub fn ind_type(alloc: Global, env: &Env, id: FamilyId) -> Result<Term, Stop>
    requires known { IsSome (known_family env.now id) }
    ensures ok { IfOk result (λ t. (F : FamilyDecl) → known_family env.now id ≡ Some F → t ≡ family_type F) }
    ensures too_deep { IfErr result (λ s. s ≡ TooDeep → (F : FamilyDecl) → known_family env.now id ≡ Some F → IsTrue (is_beyond (family_type F))) }
    ensures unspent { IfErr result (λ s. s ≢ Spent) }
{
    let block = env.block(id.block).unwrap();
    let family = &block.families.as_slice()[id.family as usize];
    let ty = family_type(alloc, block, family)?;
    Ok(ty)
}

/// The type of constructor `c` of a family, counted from 0: the product over the block's parameters and the constructor's arguments that
/// ends in the family at the parameters and at the constructor's indices.
///
/// The block is kept whole and has the family, which has the constructor. The type is closed: under each of its domains variable 0 is the
/// parameter or argument right before. `TooDeep` only where the type is beyond the limits of terms.
pub fn construct_type(alloc: Global, env: &Env, id: FamilyId, c: u32) -> Result<Term, Stop>
    requires kept { IsSome (constructor_of env.now id c) }
    ensures ok { IfOk result (λ t. (F : FamilyDecl) (C : Constructor) → family_of env.now id ≡ Some F → constructor_of env.now id c ≡ Some C → t ≡ constructor_type id F C) }
    ensures too_deep { IfErr result (λ s. s ≡ TooDeep → (F : FamilyDecl) (C : Constructor) → family_of env.now id ≡ Some F → constructor_of env.now id c ≡ Some C → IsTrue (is_beyond (constructor_type id F C))) }
    ensures unspent { IfErr result (λ s. s ≢ Spent) }
{
    let block = env.whole_block(id.block).unwrap();
    let ctor = kept_constructor(env, id, c);
    let ty = constructor_type(alloc, id, block, ctor)?;
    Ok(ty)
}

/// The unfolding of definition `i` of a fixpoint, counted from 0: its body with the fixpoints of all definitions put in for them.
///
/// The definition is there. Definitions and result stand in one context. `TooDeep` only where a fixpoint of these definitions or the
/// result is beyond the limits of terms. Over 4,294,967,295 definitions are `Memory`.
pub fn fix_unfold(alloc: Global, defs: &Defs, i: u32) -> Result<Term, Stop>
    requires there { i < length defs.now }
    ensures ok { IfOk result (λ t. unfolding_of defs.now i ≡ Some t) }
    ensures too_deep { IfErr result (λ s. s ≡ TooDeep → IsTrue (unfolding_beyond defs.now i)) }
    ensures unspent { IfErr result (λ s. s ≢ Spent) }
{
    let unfolded = fixpoints::fix_unfold(alloc, defs, i)?;
    Ok(unfolded)
}

/// The entries of the predicate of a match on a family, the outermost first: the types of the family's indices at the parameters, and that
/// of the scrutinee, which is the family at the parameters and at these indices.
///
/// The block is kept whole and has the family. The parameters stand in the context of the match, and each entry in that context and under
/// the entries before it, of which the last is variable 0. `TooDeep` only where one of the entries is beyond the limits of terms.
pub fn pred_entries(
    alloc: Global,
    env: &Env,
    id: FamilyId,
    params: &Terms,
) -> Result<Telescope, Stop>
    requires kept { IsSome (family_of env.now id) }
    ensures ok { IfOk result (λ out. (F : FamilyDecl) → family_of env.now id ≡ Some F → out ≡ predicate_entries id F params.now) }
    ensures too_deep { IfErr result (λ s. s ≡ TooDeep → (F : FamilyDecl) → family_of env.now id ≡ Some F → IsTrue (any_beyond (predicate_entries id F params.now))) }
    ensures unspent { IfErr result (λ s. s ≢ Spent) }
{
    let block = env.whole_block(id.block).unwrap();
    let family = &block.families.as_slice()[id.family as usize];
    let entries = predicate_entries(alloc, id, family, params)?;
    Ok(entries)
}

/// The entries of the branch of constructor `c` of a family, counted from 0, the outermost first: the types of the constructor's arguments
/// at the parameters.
///
/// The block is kept whole and has the family, which has the constructor. The parameters stand in the context of the match, and each entry
/// in that context and under the entries before it, of which the last is variable 0. `TooDeep` only where one of the entries is beyond the
/// limits of terms.
pub fn branch_entries(
    alloc: Global,
    env: &Env,
    id: FamilyId,
    c: u32,
    params: &Terms,
) -> Result<Telescope, Stop>
    requires kept { IsSome (constructor_of env.now id c) }
    ensures ok { IfOk result (λ out. (C : Constructor) → constructor_of env.now id c ≡ Some C → out ≡ branch_entries C params.now) }
    ensures too_deep { IfErr result (λ s. s ≡ TooDeep → (C : Constructor) → constructor_of env.now id c ≡ Some C → IsTrue (any_beyond (branch_entries C params.now))) }
    ensures unspent { IfErr result (λ s. s ≢ Spent) }
{
    let ctor = kept_constructor(env, id, c);
    let entries = branches::branch_entries(alloc, ctor, params)?;
    Ok(entries)
}

/// The predicate of a match at indices and a scrutinee, which is the match's type: the scrutinee in the place of variable 0 and the indices,
/// the last first, in the places of the variables after it.
///
/// Indices, scrutinee and result stand in the context of the match. `TooDeep` only where the result is beyond the limits of terms.
pub fn pred_at(alloc: Global, m: &Match, indices: &Terms, scrut: &Term) -> Result<Term, Stop>
    ensures ok { IfOk result (λ t. t ≡ predicate_at m.now.ret indices.now scrut.now) }
    ensures too_deep { IfErr result (λ s. s ≡ TooDeep → IsTrue (is_beyond (predicate_at m.now.ret indices.now scrut.now))) }
    ensures unspent { IfErr result (λ s. s ≢ Spent) }
{
    let at = predicates::pred_at(alloc, m, indices, scrut)?;
    Ok(at)
}

/// The type of the body of the branch of constructor `c` of a match's family, counted from 0: the match's predicate at the indices of what
/// the constructor builds, and at the constructor applied to the parameters and to its arguments.
///
/// The block is kept whole and has the family, which has the constructor. The type stands in the context of the match and under the
/// entries of the branch, of which the last is variable 0. `TooDeep` only where one of these indices, the applied constructor or the type
/// itself is beyond the limits of terms.
pub fn branch_type(alloc: Global, env: &Env, m: &Match, c: u32) -> Result<Term, Stop>
    requires kept { IsSome (constructor_of env.now m.now.family c) }
    ensures ok { IfOk result (λ t. (C : Constructor) → constructor_of env.now m.now.family c ≡ Some C → t ≡ branch_type m.now.family c C m.now.params m.now.ret) }
    ensures too_deep { IfErr result (λ s. s ≡ TooDeep → (C : Constructor) → constructor_of env.now m.now.family c ≡ Some C → IsTrue (branch_beyond m.now.family c C m.now.params m.now.ret)) }
    ensures unspent { IfErr result (λ s. s ≢ Spent) }
{
    let ctor = kept_constructor(env, m.family, c);
    let ty = branches::branch_type(alloc, c, ctor, m)?;
    Ok(ty)
}

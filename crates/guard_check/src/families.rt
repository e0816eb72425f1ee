//! Families of blocks, and types that end in them.
ghost use Rattle.std.specs.Prelude.{◌≡◌, IfOk, IfErr, MatchOption, Some, None, slice_get, take};
ghost use Rattle.pc_terms.specs.Syntax.{head, args};
ghost use Rattle.pc_rules.specs.declared.stop.Stop.TheVariants.{Memory};
ghost use Rattle.calculus_rules.specs.declared.target.Target.TheVariants.{Families};
ghost use Rattle.calculus_rules.specs.Naming.{some_names};
ghost use Rattle.calculus_rules.specs.Guardedness.{head_block, heads_block, nests_block, stands_for_block, ends_smaller};
ghost use Rattle.calculus_rules.specs.Lookups.{family_of};
ghost use Rattle.pc_rules.specs.DirectedGuard.{constructors_of};

use calculus_rules::declaration::Constructor;
use calculus_rules::target::Target;
use pc_rules::environment::Env;
use pc_rules::naming::{names_block, some_names};
use pc_rules::stop::Stop;
use pc_terms::leaf::{FamilyId, Name};
use pc_terms::term::{Node, Term, Terms};
use std::alloc::Global;

/// A constructor of a family of a whole block that is kept, by its place from 0; none where there is no such family or constructor.
pub(crate) fn constructor(env: &Env, id: FamilyId, place: usize) -> Option<&Constructor>
    ensures at { MatchOption result (slice_get (constructors_of (family_of env.now id)) place ≡ None) (λ c. slice_get (constructors_of (family_of env.now id)) place ≡ Some c.now) }
{
    let block = env.whole_block(id.block)?;
    let family = block.families.as_slice().get(id.family as usize)?;
    family.ctors.as_slice().get(place)
}

/// Whether a term is a family of a block applied to arguments.
fn heads_block(block: Name, t: &Term) -> bool
    ensures is { result ≡ heads_block block t.now }
{
    match t.view() {
        Node::App(f, _) => heads_block(block, f),
        Node::Ind(id) => id.block.0 == block.0,
        _ => false,
    }
}

/// Whether one of the first terms of a list names a family of a block. Takes no memory.
#[tactic(auto, using(std::proofs::lemmas::Grind::common_steps))]
fn first_name(block: Name, count: usize, ts: &[Term]) -> bool
    ensures is { result ≡ some_names (Families block) 0 (take count ts.now) }
{
    if count < ts.len() {
        return some_names(Target::Families(block), 0, &ts[..count]);
    }
    some_names(Target::Families(block), 0, ts)
}

/// Whether a term is a family of a kept block one of whose parameters names a family of a block. Only `Memory`.
fn nests_block(alloc: Global, env: &Env, block: Name, ty: &Term) -> Result<bool, Stop>
    ensures is { IfOk result (λ b. b ≡ nests_block env.now block (head ty.now) (args ty.now)) }
    ensures only_memory { IfErr result (λ e. e ≡ Memory) }
{
    let (head, args) = ty.spine(alloc)?;
    let Node::Ind(family) = head.view() else {
        return Ok(false);
    };
    let count = match env.whole_block(family.block) {
        Some(whole) => whole.params.len(),
        None => 0,
    };
    Ok(first_name(block, count, args.as_slice()))
}

/// Whether a term, under `under` variables more than the parameters of a match, is one of these parameters' variables, and the parameter names a
/// family of a block. Takes no memory.
fn stands_for_block(block: Name, params: &[Term], under: u32, ty: &Term) -> bool
    ensures is { result ≡ stands_for_block block params.now under ty.now }
{
    let Node::Rel(i) = ty.view() else {
        return false;
    };
    if *i < under {
        return false;
    }
    let variable = (*i - under) as usize;
    if variable >= params.len() {
        return false;
    }
    names_block(block, &params[params.len() - 1 - variable])
}

/// Whether a type, as a constructor of block `block` declares it behind `under` arguments, makes the variable of a branch smaller, in a match
/// with these parameters that is opened. Only `Memory`, also where there are more than 4,294,967,295 arguments.
pub(crate) fn ends_smaller(
    alloc: Global,
    env: &Env,
    recursive: Option<Name>,
    block: Name,
    params: &Terms,
    under: u32,
    ty: &Term,
) -> Result<bool, Stop>
    ensures is { IfOk result (λ b. b ≡ ends_smaller env.now recursive block params.now under ty.now) }
    ensures only_memory { IfErr result (λ e. e ≡ Memory) }
{
    match ty.view() {
        Node::Prod(_, codomain) => {
            let Some(inner) = under.checked_add(1) else {
                return Err(Stop::Memory);
            };
            ends_smaller(alloc, env, recursive, block, params, inner, codomain)
        }
        _ => {
            if heads_block(block, ty) {
                return Ok(true);
            }
            let Some(r) = recursive else {
                return Ok(false);
            };
            if block.0 == r.0 {
                return nests_block(alloc, env, r, ty);
            }
            Ok(stands_for_block(r, params.as_slice(), under, ty))
        }
    }
}

/// The block of the family at the head of a term, if there is one.
pub(crate) fn head_block(t: &Term) -> Option<Name>
    ensures is { result ≡ head_block (head t.now) }
{
    match t.view() {
        Node::App(f, _) => head_block(f),
        Node::Ind(id) => Some(id.block),
        _ => None,
    }
}

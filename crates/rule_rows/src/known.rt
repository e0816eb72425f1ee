//! What rows name: families, constructors and matches, and whether an environment keeps them.
ghost use Rattle.std.specs.Prelude.{IsSome, IfOk};
ghost use Rattle.calculus_rules.specs.Lookups.{family_of};
ghost use Rattle.instances.specs.Known.{known_family, constructor_of};

use pc_rules::environment::Env;
use pc_terms::leaf::FamilyId;
use pc_terms::term::{Match, Node, Term};
use row_files::Fault;

/// The family that a term is.
pub fn family(term: &Term) -> Result<FamilyId, Fault> {
    match term.view() {
        Node::Ind(id) => Ok(*id),
        _ => Err(Fault::Faulty("no family")),
    }
}

/// The constructor that a term is: its family, and its number there.
pub fn constructor(term: &Term) -> Result<(FamilyId, u32), Fault> {
    match term.view() {
        Node::Construct(id, c) => Ok((*id, *c)),
        _ => Err(Fault::Faulty("no constructor")),
    }
}

/// The match that a term is.
pub fn matched(term: &Term) -> Result<&Match, Fault> {
    match term.view() {
        Node::Case(whole) => Ok(whole.get()),
        _ => Err(Fault::Faulty("no match")),
    }
}

/// Whether an environment keeps a family in a whole block: a fault where it doesn't.
pub fn known(env: &Env, id: FamilyId) -> Result<(), Fault>
    ensures known { IfOk result (λ _. IsSome (known_family env.now id)) }
    ensures kept { IfOk result (λ _. IsSome (family_of env.now id)) }
{
    match env.whole_block(id.block) {
        Some(block) if (id.family as usize) < block.families.len() => Ok(()),
        _ => Err(Fault::Faulty("no such family")),
    }
}

/// Whether an environment keeps a constructor of a family: a fault where it doesn't.
pub fn known_constructor(env: &Env, id: FamilyId, c: u32) -> Result<(), Fault>
    ensures kept { IfOk result (λ _. IsSome (constructor_of env.now id c)) }
{
    let Some(block) = env.whole_block(id.block) else {
        return Err(Fault::Faulty("no such family"));
    };
    match block.families.as_slice().get(id.family as usize) {
        Some(family) if (c as usize) < family.ctors.len() => Ok(()),
        _ => Err(Fault::Faulty("no such constructor")),
    }
}

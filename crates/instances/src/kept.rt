//! Families of whole blocks.
ghost use Rattle.std.specs.Prelude.{◌≡◌, List, MatchOption, None, Some};
ghost use Rattle.calculus_rules.specs.Environment.{with_parameters};
ghost use Rattle.calculus_rules.specs.Lookups.{family_of};
ghost use Rattle.pc_terms.specs.Syntax.{Term};

use calculus_rules::declaration::Family;
use pc_rules::environment::Env;
use pc_terms::leaf::FamilyId;

/// A family of a whole block that is kept; none exactly where there is none. Takes no memory.
pub fn kept_family(env: &Env, id: FamilyId) -> Option<&Family>
    ensures kept { MatchOption result (family_of env.now id ≡ None) (λ F. (Ps : List Term) × (family_of env.now id ≡ Some (with_parameters Ps F.now))) }
{
    match env.whole_block(id.block) {
        Some(block) => block.families.as_slice().get(id.family as usize),
        None => None,
    }
}

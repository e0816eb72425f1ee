//! Elimination: into which sorts a match on a family may go.
ghost use Rattle.std.specs.Prelude.{◌≡◌, Some};
ghost use Rattle.pc_rules.specs.declared.meter.Account.{Account};
ghost use Rattle.calculus_rules.specs.Environment.{with_parameters};
ghost use Rattle.pc_rules.specs.DirectedTyping.{all_prop, few_constructors, is_single, may_eliminate, eliminated};
ghost use Rattle.pc_rules.specs.Follows.{Answers};

use calculus_rules::declaration::{Block, Constructor, Family, Sorts};
use pc_rules::broken::Broken;
use pc_rules::stop::Halt;
use pc_terms::leaf::FamilyId;
use universe_levels::sort::Sort;

/// Whether all sorts are `Prop`.
fn all_prop(sorts: &Sorts) -> bool
    ensures is { result ≡ all_prop sorts.now }
{
    for sort in sorts.as_slice() {
        match sort {
            Sort::Prop => {}
            Sort::Of(_) => return false,
        }
    }
    true
}

/// Whether there is no constructor, or one whose argument sorts are all `Prop`.
fn few_constructors(ctors: &[Constructor]) -> bool
    ensures is { result ≡ few_constructors ctors.now }
{
    match ctors {
        [] => true,
        [ctor] => all_prop(&ctor.arg_sorts),
        _ => false,
    }
}

/// Whether a match on a family of the block may go into a sort (PCUIC, POPL 2020, section 2: elimination of propositions).
fn may_eliminate(block: &Block, family: &Family, target: &Sort) -> bool
    ensures is { result ≡ may_eliminate (Some block.now) (with_parameters block.now.params family.now) family.now.sort target.now }
{
    match (&family.sort, target) {
        (Sort::Of(_), _) => true,
        (Sort::Prop, Sort::Prop) => true,
        (Sort::Prop, Sort::Of(_)) => {
            block.families.len() == 1 && few_constructors(family.ctors.as_slice())
        }
    }
}

/// Whether a match on a family of a block may go into a sort: the family isn't in `Prop`, or the sort is `Prop`, or the block has one
/// family, without constructor or with one whose argument sorts are all `Prop`. `ElimNotAllowed` where it may not.
pub fn eliminated(block: &Block, id: FamilyId, family: &Family, target: &Sort) -> Result<(), Halt>
    ensures answers { (u : Account) → Answers (eliminated (Some block.now) id (with_parameters block.now.params family.now) target.now u) result u }
{
    if may_eliminate(block, family, target) {
        return Ok(());
    }
    Err(Halt::Broken(Broken::ElimNotAllowed { family: id }))
}

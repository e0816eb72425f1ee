//! The counts of a match: parameters, variables of the predicate, branches, and variables of each branch.
ghost use Rattle.std.specs.Prelude.{◌≡◌, IfOk, length};
ghost use Rattle.trees.specs.Tree.{terms_of};
ghost use Rattle.trees.specs.Shape.{binders_of};
ghost use Rattle.pc_terms.specs.Lists.{arms_of};
ghost use Rattle.pc_rules.specs.declared.meter.Account.{Account};
ghost use Rattle.calculus_rules.specs.Environment.{with_parameters};
ghost use Rattle.pc_rules.specs.DirectedTyping.{counted, names_counted, match_counted};
ghost use Rattle.pc_rules.specs.Follows.{Answers};

use calculus_rules::declaration::{Block, Constructors, Family};
use pc_rules::broken::Broken;
use pc_rules::stop::{Halt, Stop};
use pc_terms::term::{Branches, Match};

/// Whether a count is the one that is wanted. `CountWrong` with both where it is not, and else only `Memory`, where one of them is no number of
/// 32 bits.
pub fn counted(want: usize, got: usize) -> Result<(), Halt>
    ensures answers { (u : Account) → Answers (counted want got u) result u }
    ensures equal { IfOk result (λ _. got ≡ want) }
{
    if want == got {
        return Ok(());
    }
    match (u32::try_from(want), u32::try_from(got)) {
        (Ok(want), Ok(got)) => Err(Halt::Broken(Broken::CountWrong { want, got })),
        _ => Err(Halt::Stop(Stop::Memory)),
    }
}

/// Whether each branch has a variable for each argument of its constructor, as far as there are both.
fn names_counted(ctors: &Constructors, branches: &Branches) -> Result<(), Halt>
    ensures answers { (u : Account) → Answers (names_counted ctors.now (binders_of (arms_of branches.now)) u) result u }
{
    let listed = ctors.as_slice();
    let bodies = branches.as_slice();
    let count = listed.len().min(bodies.len());
    for i in 0..count {
        counted(listed[i].args.len(), bodies[i].binders as usize)?;
    }
    Ok(())
}

/// Whether the counts of a match are those of its family: as many parameters as the block has, a variable of the predicate for each index
/// and one for the scrutinee, a branch for each constructor, and in each branch a variable for each argument of its constructor.
/// `CountWrong` keeps the first of these counts that is not as wanted, and else there is only `Memory`.
pub fn match_counted(block: &Block, family: &Family, x: &Match) -> Result<(), Halt>
    ensures answers { (u : Account) → Answers (match_counted (with_parameters block.now.params family.now) (terms_of x.now.params) x.now.binders (arms_of x.now.branches) u) result u }
    ensures params { IfOk result (λ _. length x.now.params ≡ length block.now.params) }
{
    counted(block.params.len(), x.params.len())?;
    let indices = family.indices.len();
    if indices == usize::MAX {
        return Err(Halt::Stop(Stop::Memory));
    }
    counted(indices + 1, x.binders as usize)?;
    counted(family.ctors.len(), x.branches.len())?;
    names_counted(&family.ctors, &x.branches)
}

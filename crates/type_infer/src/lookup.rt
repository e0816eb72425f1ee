//! Families of whole blocks that are looked up in an environment.
ghost use Rattle.std.specs.Prelude.{◌≡◌, IfOk, IfErr, Ok, Some};
ghost use Rattle.pc_rules.specs.declared.meter.Account.{Account};
ghost use Rattle.calculus_rules.specs.Environment.{with_parameters, family_at};
ghost use Rattle.pc_rules.specs.DirectedTyping.{find_family};
ghost use Rattle.calculus_rules.specs.Lookups.{kept_at, whole_block};
ghost use Rattle.pc_rules.specs.Follows.{Answers, Halts};

use crate::declared::family_in;
use calculus_rules::declaration::{Block, Family};
use pc_rules::broken::Broken;
use pc_rules::environment::Env;
use pc_rules::stop::Halt;
use pc_terms::leaf::FamilyId;

/// The family `id` of a whole block that is kept, with its block; a block's families are counted from 0. `UnknownName` where no whole block is
/// kept by that name, `BadNumber` where the block has no family of that number, and else only `Memory`.
pub fn whole_family(env: &Env, id: FamilyId) -> Result<(&Block, &Family), Halt>
    ensures block { IfOk result (λ p. whole_block (kept_at env.now.declarations id.block) ≡ Some p.0.now) }
    ensures family { IfOk result (λ p. family_at p.0.now id.family ≡ Some (with_parameters p.0.now.params p.1.now)) }
    ensures found { IfOk result (λ p. (u : Account) → Answers (find_family id (whole_block (kept_at env.now.declarations id.block)) u) (Ok (with_parameters p.0.now.params p.1.now)) u) }
    ensures halts { IfErr result (λ h. (u : Account) → Halts (find_family id (whole_block (kept_at env.now.declarations id.block)) u) h u) }
{
    match env.whole_block(id.block) {
        Some(block) => {
            let family = family_in(block, id)?;
            Ok((block, family))
        }
        None => Err(Halt::Broken(Broken::UnknownName { name: id.block })),
    }
}

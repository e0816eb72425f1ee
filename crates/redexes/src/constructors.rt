//! Constructors with all their arguments, and the branches that they choose.
ghost use Rattle.std.specs.Prelude.{◌≡◌, IfOk, IfErr, MatchOption, Some, None};
ghost use Rattle.pc_terms.specs.declared.term.MakeFault.TheVariants.{Memory};
ghost use Rattle.pc_terms.specs.Lists.{arms_of};
ghost use Rattle.pc_rules.specs.DirectedWeakHead.{built, branch_of};
ghost use Rattle.calculus_rules.specs.Same.{same_families};
ghost use Rattle.redexes.specs.Redexes.{contractum};

use crate::lookup::{branch_at, constructor_at, family_at};
use crate::redexes::Redex;
use crate::spine::Spine;
use pc_rules::environment::Env;
use pc_terms::leaf::FamilyId;
use pc_terms::term::{MakeFault, Match, Node, Term};
use std::alloc::Global;

/// A constructor with all its parameters and arguments: its family, its number there, and its arguments.
#[derive(Drop)]
pub struct Built {
    pub family: FamilyId,
    pub constructor: u32,
    pub args: Spine,
}

impl Built {
    /// The constructor that a term is, where it has all parameters and arguments; none where the term is no such constructor.
    pub fn of(alloc: Global, env: &Env, t: &Term) -> Result<Option<Built>, MakeFault>
        ensures ok { IfOk result (λ o. MatchOption o (built env.now t.now ≡ None) (λ b. built env.now t.now ≡ Some (b.family, b.constructor, b.args))) }
        ensures only_memory { IfErr result (λ e. e ≡ Memory) }
    {
        let (head, spine) = Spine::of(alloc, t)?;
        let Node::Construct(id, number) = head.view() else {
            return Ok(None);
        };
        let Some(block) = env.whole_block(id.block) else {
            return Ok(None);
        };
        let Some(family) = family_at(block, id.family) else {
            return Ok(None);
        };
        let Some(ctor) = constructor_at(family, *number) else {
            return Ok(None);
        };
        let count = spine.len();
        let params = block.params.len();
        if count < params {
            return Ok(None);
        }
        let given = count - params;
        let wanted = ctor.args.len();
        if given != wanted {
            return Ok(None);
        }
        let args = spine.behind(params);
        Ok(Some(Built {
            family: *id,
            constructor: *number,
            args,
        }))
    }
}

/// Whether two families are the same.
fn same_family(a: FamilyId, b: FamilyId) -> bool
    ensures is { result ≡ same_families a b }
{
    a.block.0 == b.block.0 && a.family == b.family
}

/// The step of a match whose scrutinee is this term; none where the term is no constructor of the match's family with all its arguments,
/// or there is no branch for it of so many names.
pub fn branch(
    alloc: Global,
    env: &Env,
    m: &Match,
    scrutinee: &Term,
) -> Result<Option<Redex>, MakeFault>
    ensures ok { IfOk result (λ o. MatchOption o (branch_of (arms_of m.now.branches) m.now.family (built env.now scrutinee.now) ≡ None) (λ r. branch_of (arms_of m.now.branches) m.now.family (built env.now scrutinee.now) ≡ Some (contractum r))) }
    ensures only_memory { IfErr result (λ e. e ≡ Memory) }
{
    let Some(found) = Built::of(alloc, env, scrutinee)? else {
        return Ok(None);
    };
    if !same_family(m.family, found.family) {
        return Ok(None);
    }
    let Some(arm) = branch_at(&m.branches, found.constructor) else {
        return Ok(None);
    };
    if arm.binders as usize != found.args.len() {
        return Ok(None);
    }
    let body = arm.body.share()?;
    Ok(Some(Redex::Branch {
        body,
        args: found.args,
    }))
}

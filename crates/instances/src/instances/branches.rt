//! Branches of matches: their entries, and their types.
ghost use Rattle.std.specs.Prelude.{◌≡◌, IfOk, IfErr, IsTrue, length};
ghost use Rattle.calculus_rules.specs.Instances.{branch_entries, result_at, branch_type};
ghost use Rattle.pc_rules.specs.DirectedRun.{any_beyond};
ghost use Rattle.pc_rules.specs.DirectedTyping.{branch_beyond};
ghost use Rattle.pc_terms.specs.declared.term.MakeFault.TheVariants.{TooDeep};

use crate::instances::applied::apply_under;
use crate::instances::counted::short_length;
use crate::instances::entries::telescope_at;
use crate::instances::replacing::replace;
use calculus_rules::declaration::Constructor;
use pc_terms::lists::Telescope;
use pc_terms::term::{MakeFault, Match, Node, Term, Terms};
use std::alloc::Global;

/// The entries of the branch of a constructor, the outermost first: the types of the constructor's arguments at the parameters (PCUIC, POPL
/// 2020, section 2).
///
/// The parameters stand in the context of the match, and each entry in that context and under the entries before it, of which the last is
/// variable 0. `TooDeep` only where one of the entries is beyond the limits of terms, and else only `Memory`.
pub fn branch_entries(
    alloc: Global,
    ctor: &Constructor,
    params: &Terms,
) -> Result<Telescope, MakeFault>
    ensures ok { IfOk result (λ out. out ≡ branch_entries ctor.now params.now) }
    ensures too_deep { IfErr result (λ e. e ≡ TooDeep → IsTrue (any_beyond (branch_entries ctor.now params.now))) }
{
    telescope_at(alloc, &ctor.args, params)
}

/// The indices of what a constructor builds at the parameters, under its `count` arguments.
fn result_indices(
    alloc: Global,
    ctor: &Constructor,
    count: u32,
    params: &Terms,
) -> Result<Terms, MakeFault>
    requires count { count ≡ length ctor.now.args }
    ensures ok { IfOk result (λ out. out ≡ result_at ctor.now params.now) }
    ensures too_deep { IfErr result (λ e. e ≡ TooDeep → IsTrue (any_beyond (result_at ctor.now params.now))) }
{
    let mut out = Terms::new(alloc);
    for index in ctor.result.as_slice() {
        let index = index.subst_list_at(alloc, count, params)?;
        out.push(index)?;
    }
    Ok(out)
}

/// The type of the body of the branch of constructor `ctor`, which has place `c` in the match's family from 0: the match's predicate at the
/// indices of what the constructor builds, and at the constructor applied to the parameters and to its arguments (PCUIC, POPL 2020,
/// section 2).
///
/// It stands in the context of the match and under the entries of the branch, of which the last is variable 0. `TooDeep` only where one of
/// these indices, the applied constructor or the type itself is beyond the limits of terms, and else only `Memory`.
pub fn branch_type(alloc: Global, c: u32, ctor: &Constructor, m: &Match) -> Result<Term, MakeFault>
    ensures ok { IfOk result (λ t. t ≡ branch_type m.now.family c ctor.now m.now.params m.now.ret) }
    ensures too_deep { IfErr result (λ e. e ≡ TooDeep → IsTrue (branch_beyond m.now.family c ctor.now m.now.params m.now.ret)) }
{
    let count = short_length(ctor.args.len())?;
    let mut list = result_indices(alloc, ctor, count, &m.params)?;
    let head = Term::make(alloc, Node::Construct(m.family, c))?;
    let built = apply_under(alloc, &head, &m.params, count)?;
    list.push(built)?;
    let ty = replace(alloc, &m.ret, count, &list)?;
    Ok(ty)
}

//! Predicates of matches: their entries, and their values.
ghost use Rattle.std.specs.Prelude.{◌≡◌, List, IfOk, IfErr, IsTrue};
ghost use Rattle.pc_terms.specs.Syntax.{Term};
ghost use Rattle.calculus_rules.specs.Environment.{with_parameters};
ghost use Rattle.calculus_rules.specs.Instances.{predicate_entries, predicate_at};
ghost use Rattle.pc_rules.specs.DirectedRun.{is_beyond, any_beyond};
ghost use Rattle.pc_terms.specs.declared.term.MakeFault.TheVariants.{TooDeep};

use crate::instances::applied::{apply_under, push_shared};
use crate::instances::counted::short_length;
use crate::instances::entries::telescope_at;
use calculus_rules::declaration::Family;
use pc_terms::leaf::FamilyId;
use pc_terms::lists::Telescope;
use pc_terms::term::{MakeFault, Match, Node, Term, Terms};
use std::alloc::Global;

/// The entries of the predicate of a match on family `id`, the outermost first: the types of the family's indices at the parameters, and
/// that of the scrutinee, which is the family at the parameters and at these indices (PCUIC, POPL 2020, section 2).
///
/// The parameters stand in the context of the match, and each entry in that context and under the entries before it, of which the last is
/// variable 0. The types of the block's parameters are not looked at, so that any list may stand for them. `TooDeep` only where one of
/// the entries is beyond the limits of terms, and else only `Memory`.
pub fn predicate_entries(
    alloc: Global,
    id: FamilyId,
    family: &Family,
    params: &Terms,
) -> Result<Telescope, MakeFault>
    ensures ok { IfOk result (λ out. (Ps : List Term) → out ≡ predicate_entries id (with_parameters Ps family.now) params.now) }
    ensures too_deep { IfErr result (λ e. e ≡ TooDeep → (Ps : List Term) → IsTrue (any_beyond (predicate_entries id (with_parameters Ps family.now) params.now))) }
{
    let count = short_length(family.indices.len())?;
    let mut entries = telescope_at(alloc, &family.indices, params)?;
    let head = Term::make(alloc, Node::Ind(id))?;
    let scrutinee = apply_under(alloc, &head, params, count)?;
    entries.push(scrutinee)?;
    Ok(entries)
}

/// The predicate of a match at indices and a scrutinee, which is the match's type (PCUIC, POPL 2020, section 2): the scrutinee in the place
/// of variable 0 and the indices, the last first, in the places of the variables after it.
///
/// Indices, scrutinee and result stand in the context of the match. `TooDeep` only where the result is beyond the limits of terms, and
/// else only `Memory`.
pub fn pred_at(alloc: Global, m: &Match, indices: &Terms, scrut: &Term) -> Result<Term, MakeFault>
    ensures ok { IfOk result (λ t. t ≡ predicate_at m.now.ret indices.now scrut.now) }
    ensures too_deep { IfErr result (λ e. e ≡ TooDeep → IsTrue (is_beyond (predicate_at m.now.ret indices.now scrut.now))) }
{
    let mut list = Terms::new(alloc);
    push_shared(&mut list, indices)?;
    let scrut = scrut.share()?;
    list.push(scrut)?;
    let at = m.ret.subst_list(alloc, &list)?;
    Ok(at)
}

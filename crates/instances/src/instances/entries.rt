//! Telescopes at parameters.
ghost use Rattle.std.specs.Prelude.{◌≡◌, IfOk, IfErr, IsTrue};
ghost use Rattle.trees.specs.Tree.{Rel as variable};
ghost use Rattle.trees.specs.Substitution.{subst_list};
ghost use Rattle.trees.specs.Parallel.{put_all};
ghost use Rattle.trees.specs.Measures.{IsBeyond};
ghost use Rattle.calculus_rules.specs.Instances.{entries_at};
ghost use Rattle.pc_rules.specs.DirectedRun.{any_beyond};
ghost use Rattle.pc_terms.specs.declared.term.MakeFault.TheVariants.{TooDeep};

use pc_terms::lists::Telescope;
use pc_terms::term::{MakeFault, Term, Terms};
use std::alloc::Global;

/// A term with parameters put in under `depth` variables. No variable of a term has a number over 32 bits, so under more variables than
/// that it stays as it is.
#[tactic(auto, using(crate::proofs::Telescopes::entry_laws, std::proofs::lemmas::Grind::common_steps))]
fn entry_at(alloc: Global, term: &Term, depth: usize, params: &Terms) -> Result<Term, MakeFault>
    ensures ok { IfOk result (λ t. t ≡ subst_list depth params.now term.now) }
    ensures too_deep { IfErr result (λ e. e ≡ TooDeep → IsBeyond (subst_list depth params.now term.now)) }
{
    match u32::try_from(depth) {
        Ok(depth) => term.subst_list_at(alloc, depth, params),
        Err(_) => term.share(),
    }
}

/// The entries of a telescope with parameters in the place of the variables outside it, the outermost first. `TooDeep` only where one of
/// them is beyond the limits.
pub(crate) fn telescope_at(
    alloc: Global,
    telescope: &Telescope,
    params: &Terms,
) -> Result<Telescope, MakeFault>
    ensures ok { IfOk result (λ out. out ≡ entries_at (put_all params.now variable) telescope.now) }
    ensures too_deep { IfErr result (λ e. e ≡ TooDeep → IsTrue (any_beyond (entries_at (put_all params.now variable) telescope.now))) }
{
    let mut out = Telescope::new(alloc);
    let entries = telescope.as_slice();
    for i in 0..entries.len() {
        let entry = entry_at(alloc, &entries[i], i, params)?;
        out.push(entry)?;
    }
    Ok(out)
}

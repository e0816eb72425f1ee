//! Lists of terms that share their items with others.
ghost use Rattle.std.specs.Prelude.{◌≡◌, IfOk, IfErr};
ghost use Rattle.pc_terms.specs.declared.term.MakeFault.TheVariants.{Memory};

use pc_terms::lists::Telescope;
use pc_terms::term::{MakeFault, Term, Terms};
use std::alloc::Global;

/// The terms of a slice as a list of its own. Only `Memory`.
#[tactic(auto, using(std::proofs::lemmas::Grind::common_steps))]
pub(crate) fn shared_terms(alloc: Global, terms: &[Term]) -> Result<Terms, MakeFault>
    ensures ok { IfOk result (λ out. out ≡ terms.now) }
    ensures only_memory { IfErr result (λ e. e ≡ Memory) }
{
    let mut out = Terms::new(alloc);
    for term in terms {
        let same = term.share()?;
        out.push(same)?;
    }
    Ok(out)
}

/// The entries of a telescope as a telescope of its own. Only `Memory`.
pub fn shared_telescope(alloc: Global, entries: &Telescope) -> Result<Telescope, MakeFault>
    ensures ok { IfOk result (λ out. out ≡ entries.now) }
    ensures only_memory { IfErr result (λ e. e ≡ Memory) }
{
    let terms = shared_terms(alloc, entries.as_slice())?;
    Ok(Telescope::of(terms.into_vec()))
}

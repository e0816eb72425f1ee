//! Products over telescopes.
ghost use Rattle.std.specs.Prelude.{◌≡◌, IfOk, IfErr};
ghost use Rattle.trees.specs.Measures.{IsBeyond};
ghost use Rattle.calculus_rules.specs.Instances.{products};
ghost use Rattle.pc_terms.specs.declared.term.MakeFault.TheVariants.{TooDeep};

use pc_terms::lists::Telescope;
use pc_terms::term::{MakeFault, Node, Term};
use std::alloc::Global;

/// The product over a telescope that ends in `body`, which is under the variables of all its types.
pub(crate) fn product_over(
    alloc: Global,
    telescope: &Telescope,
    body: Term,
) -> Result<Term, MakeFault>
    ensures ok { IfOk result (λ t. t ≡ products telescope.now body) }
    ensures too_deep { IfErr result (λ e. e ≡ TooDeep → IsBeyond (products telescope.now body)) }
{
    let types = telescope.as_slice();
    let count = types.len();
    let mut product = body;
    for i in 0..count {
        let domain = types[count - 1 - i].share()?;
        product = Term::make(alloc, Node::Prod(domain, product))?;
    }
    Ok(product)
}

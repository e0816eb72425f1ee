//! Types of families.
ghost use Rattle.std.specs.Prelude.{◌≡◌, IfOk, IfErr, IsTrue};
ghost use Rattle.calculus_rules.specs.Environment.{with_parameters};
ghost use Rattle.calculus_rules.specs.Instances.{family_type};
ghost use Rattle.pc_rules.specs.DirectedRun.{is_beyond};
ghost use Rattle.pc_terms.specs.declared.term.MakeFault.TheVariants.{TooDeep, Memory};
ghost use Rattle.universe_levels.specs.declared.sort.Sort.{Sort};
ghost use Rattle.pc_terms.specs.Syntax.{SortT};

use crate::instances::products::product_over;
use calculus_rules::declaration::{Block, Family};
use pc_terms::term::{MakeFault, Node, Term};
use std::alloc::Global;
use universe_levels::sort::Sort;

/// A sort as a term.
fn sort_term(alloc: Global, sort: &Sort) -> Result<Term, MakeFault>
    ensures ok { IfOk result (λ t. t ≡ SortT sort.now) }
    ensures only_memory { IfErr result (λ e. e ≡ Memory) }
{
    match sort.share(alloc) {
        Ok(sort) => Term::make(alloc, Node::Sort(sort)),
        Err(_) => Err(MakeFault::Memory),
    }
}

/// The type of a family of a block: the product over the block's parameters and the family's indices that ends in the family's sort
/// (PCUIC, POPL 2020, section 2).
///
/// It stands in the context of the block, which is the empty one for a block that is kept. Under each of its domains variable 0 is the
/// parameter or index right before. `TooDeep` only where the type is beyond the limits of terms, and else only `Memory`.
pub fn family_type(alloc: Global, block: &Block, family: &Family) -> Result<Term, MakeFault>
    ensures ok { IfOk result (λ t. t ≡ family_type (with_parameters block.now.params family.now)) }
    ensures too_deep { IfErr result (λ e. e ≡ TooDeep → IsTrue (is_beyond (family_type (with_parameters block.now.params family.now)))) }
{
    let sort = sort_term(alloc, &family.sort)?;
    let arity = product_over(alloc, &family.indices, sort)?;
    let product = product_over(alloc, &block.params, arity)?;
    Ok(product)
}

//! Types of constructors.
ghost use Rattle.std.specs.Prelude.{◌≡◌, ◌++◌, ◌≤◌, IfOk, IfErr, IsTrue, map};
ghost use Rattle.trees.specs.Measures.{depth_limit, IsBeyond};
ghost use Rattle.pc_terms.specs.Syntax.{Ind, shift, apply, variables};
ghost use Rattle.calculus_rules.specs.declared.declaration.Family.{Family};
ghost use Rattle.calculus_rules.specs.Environment.{with_parameters};
ghost use Rattle.calculus_rules.specs.Instances.{constructor_type};
ghost use Rattle.pc_rules.specs.DirectedRun.{is_beyond};
ghost use Rattle.pc_terms.specs.declared.term.MakeFault.TheVariants.{TooDeep};

use crate::instances::applied::{push_shared, push_variables};
use crate::instances::counted::short_length;
use crate::instances::products::product_over;
use calculus_rules::declaration::{Block, Constructor};
use pc_terms::leaf::FamilyId;
use pc_terms::term::{MakeFault, Node, Term, Terms};
use std::alloc::Global;

/// What a constructor builds, under the parameters and its arguments: the family at the parameters and at the constructor's indices.
fn built_type(
    alloc: Global,
    id: FamilyId,
    params: u32,
    args: u32,
    result_indices: &Terms,
) -> Result<Term, MakeFault>
    requires params_fit { params ≤ depth_limit }
    requires args_fit { args ≤ depth_limit }
    ensures ok { IfOk result (λ t. t ≡ apply (Ind id) (map (shift args 0) (variables params) ++ result_indices.now)) }
    ensures too_deep { IfErr result (λ e. e ≡ TooDeep → IsBeyond (apply (Ind id) (map (shift args 0) (variables params) ++ result_indices.now))) }
{
    let head = Term::make(alloc, Node::Ind(id))?;
    let mut arguments = Terms::new(alloc);
    push_variables(&mut arguments, alloc, args, params)?;
    push_shared(&mut arguments, result_indices)?;
    let applied = head.apply(alloc, &arguments)?;
    Ok(applied)
}

/// The type of a constructor of family `id` of a block: the product over the block's parameters and the constructor's arguments that ends
/// in the family at the parameters and at the constructor's indices (PCUIC, POPL 2020, section 2).
///
/// It stands in the context of the block, which is the empty one for a block that is kept. Under each of its domains variable 0 is the
/// parameter or argument right before. `TooDeep` only where the type is beyond the limits of terms, and else only `Memory`.
pub fn constructor_type(
    alloc: Global,
    id: FamilyId,
    block: &Block,
    ctor: &Constructor,
) -> Result<Term, MakeFault>
    ensures ok { IfOk result (λ t. (G : Family) → t ≡ constructor_type id (with_parameters block.now.params G) ctor.now) }
    ensures too_deep { IfErr result (λ e. e ≡ TooDeep → (G : Family) → IsTrue (is_beyond (constructor_type id (with_parameters block.now.params G) ctor.now))) }
{
    let params = short_length(block.params.len())?;
    let args = short_length(ctor.args.len())?;
    let end = built_type(alloc, id, params, args, &ctor.result)?;
    let inner = product_over(alloc, &ctor.args, end)?;
    let product = product_over(alloc, &block.params, inner)?;
    Ok(product)
}

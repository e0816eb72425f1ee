//! Terms with the bodies of constants in place of their uses.
ghost use Rattle.std.specs.Prelude.{◌≡◌, ◌≤◌, ℕ, IfOk, IfErr, nat_eq, length, map};
ghost use Rattle.std.specs.HashMap.{get};
ghost use Rattle.trees.specs.Measures.{depth, depth_trees, depth_limit};
ghost use Rattle.box_terms.specs.BoxSyntax.{BConst};
ghost use Rattle.box_terms.specs.BoxLists.{arms_of, bodies_of};
ghost use Rattle.box_terms.specs.BoxView.{box_of};
ghost use Rattle.box_passes.specs.Maps.{map_branch, map_def};
ghost use Rattle.lambda_box.specs.declared.fault.PassFault.TheVariants.{Memory};
ghost use Rattle.shrink_passes.specs.Filled.{filled, filled_terms};

use box_passes::sharing::{share_branches, share_defs, shared};
use box_terms::term::{BoxBranch, BoxBranches, BoxDef, BoxDefs, BoxNode, BoxTerm};
use lambda_box::PassFault;
use pc_terms::leaf::Name;
use pc_terms::term::MakeFault;
use std::alloc::Global;
use std::collections::HashMap;

/// The body that stands for a constant, or the constant itself. Only `Memory`.
fn of_constant(
    bodies: &HashMap<u32, BoxTerm>,
    t: &BoxTerm,
    name: Name,
) -> Result<BoxTerm, PassFault>
    requires is { t.now ≡ BConst name }
    ensures ok { IfOk result (λ u. u ≡ filled (get nat_eq bodies.now) t.now) }
    ensures only_memory { IfErr result (λ e. e ≡ Memory) }
{
    match bodies.get(&name.0) {
        Some(body) => shared(body),
        None => shared(t),
    }
}

/// The term of a node, where it is what the term `t` becomes, which is no deeper than terms are. Only `Memory`.
fn made(
    alloc: Global,
    bodies: &HashMap<u32, BoxTerm>,
    t: &BoxTerm,
    node: BoxNode,
) -> Result<BoxTerm, PassFault>
    requires is { box_of node ≡ filled (get nat_eq bodies.now) t.now }
    requires shallow { depth (filled (get nat_eq bodies.now) t.now) ≤ depth_limit }
    ensures ok { IfOk result (λ u. u ≡ filled (get nat_eq bodies.now) t.now) }
    ensures only_memory { IfErr result (λ e. e ≡ Memory) }
{
    match BoxTerm::make(alloc, node) {
        Ok(t) => Ok(t),
        Err(MakeFault::TooDeep) => Err(PassFault::TooDeep),
        Err(MakeFault::Memory) => Err(PassFault::Memory),
    }
}

/// The term with the bodies in place of the uses, where it is no deeper than terms are. It calls itself for subterms alone. Only `Memory`.
#[cycle(fill)]
#[tactic(auto, using(std::proofs::lemmas::Grind::common_steps))]
pub(crate) fn fill(
    alloc: Global,
    bodies: &HashMap<u32, BoxTerm>,
    t: &BoxTerm,
) -> Result<BoxTerm, PassFault>
    requires shallow { depth (filled (get nat_eq bodies.now) t.now) ≤ depth_limit }
    ensures ok { IfOk result (λ u. u ≡ filled (get nat_eq bodies.now) t.now) }
    ensures only_memory { IfErr result (λ e. e ≡ Memory) }
{
    match t.view() {
        BoxNode::Boxed => shared(t),
        BoxNode::Rel(_) => shared(t),
        BoxNode::Lambda(b) => {
            let body = fill(alloc, bodies, b)?;
            if body.shares_node(b) {
                return shared(t);
            }
            made(alloc, bodies, t, BoxNode::Lambda(body))
        }
        BoxNode::LetIn(v, b) => {
            let value = fill(alloc, bodies, v)?;
            let body = fill(alloc, bodies, b)?;
            if value.shares_node(v) && body.shares_node(b) {
                return shared(t);
            }
            made(alloc, bodies, t, BoxNode::LetIn(value, body))
        }
        BoxNode::App(f, a) => {
            let function = fill(alloc, bodies, f)?;
            let argument = fill(alloc, bodies, a)?;
            if function.shares_node(f) && argument.shares_node(a) {
                return shared(t);
            }
            made(alloc, bodies, t, BoxNode::App(function, argument))
        }
        BoxNode::Const(name) => of_constant(bodies, t, *name),
        BoxNode::Construct(_, _) => shared(t),
        BoxNode::Case(f, s, bs) => {
            let scrut = fill(alloc, bodies, s)?;
            let branches = fill_branches(alloc, bodies, bs)?;
            if scrut.shares_node(s) && share_branches(&branches, bs) {
                return shared(t);
            }
            made(alloc, bodies, t, BoxNode::Case(*f, scrut, branches))
        }
        BoxNode::Fix(ds, i) => {
            let defs = fill_defs(alloc, bodies, ds)?;
            if share_defs(&defs, ds) {
                return shared(t);
            }
            made(alloc, bodies, t, BoxNode::Fix(defs, *i))
        }
    }
}

/// The branches with the bodies in place of the uses. Only `Memory`.
#[cycle(fill)]
#[tactic(auto, using(std::proofs::lemmas::Grind::common_steps))]
fn fill_branches(
    alloc: Global,
    bodies: &HashMap<u32, BoxTerm>,
    bs: &BoxBranches,
) -> Result<BoxBranches, PassFault>
    requires shallow { depth_trees (filled_terms (get nat_eq bodies.now) (arms_of bs.now)) ≤ depth_limit }
    ensures ok { IfOk result (λ xs. xs ≡ map (map_branch (filled (get nat_eq bodies.now))) bs.now) }
    ensures only_memory { IfErr result (λ e. e ≡ Memory) }
{
    let xs = bs.as_slice();
    let mut items = Vec::new(alloc);
    for i in 0..xs.len() {
        let arm = &xs[i];
        let body = fill(alloc, bodies, &arm.body)?;
        let binders = arm.binders;
        if items.push(BoxBranch { binders, body }).is_err() {
            return Err(PassFault::Memory);
        }
    }
    Ok(BoxBranches::of(items))
}

/// The definitions with the bodies in place of the uses. Only `Memory`.
#[cycle(fill)]
#[tactic(auto, using(std::proofs::lemmas::Grind::common_steps))]
fn fill_defs(
    alloc: Global,
    bodies: &HashMap<u32, BoxTerm>,
    ds: &BoxDefs,
) -> Result<BoxDefs, PassFault>
    requires shallow { depth_trees (filled_terms (get nat_eq bodies.now) (bodies_of (length ds.now) ds.now)) ≤ depth_limit }
    ensures ok { IfOk result (λ xs. xs ≡ map (map_def (filled (get nat_eq bodies.now))) ds.now) }
    ensures only_memory { IfErr result (λ e. e ≡ Memory) }
{
    let xs = ds.as_slice();
    let mut items = Vec::new(alloc);
    for i in 0..xs.len() {
        let def = &xs[i];
        let body = fill(alloc, bodies, &def.body)?;
        let rarg = def.rarg;
        if items.push(BoxDef { body, rarg }).is_err() {
            return Err(PassFault::Memory);
        }
    }
    Ok(BoxDefs::of(items))
}

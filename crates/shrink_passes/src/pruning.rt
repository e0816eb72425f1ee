//! Terms without the arguments at some places.
ghost use Rattle.std.specs.Prelude.{◌≡◌, IfOk, IfErr, nat_eq, map};
ghost use Rattle.std.specs.HashMap.{get};
ghost use Rattle.box_terms.specs.BoxView.{box_of};
ghost use Rattle.box_passes.specs.Maps.{map_branch, map_def};
ghost use Rattle.lambda_box.specs.declared.fault.PassFault.TheVariants.{Memory};
ghost use Rattle.shrink_passes.specs.DeadPlaces.{is_place, spine};
ghost use Rattle.shrink_passes.specs.Pruned.{is_dropped, pruned};

use crate::flags::Flags;
use crate::noting::{Use, with_argument};
use box_passes::sharing::{share_branches, share_defs, shared};
use box_terms::term::{BoxBranch, BoxBranches, BoxDef, BoxDefs, BoxNode, BoxTerm};
use lambda_box::PassFault;
use pc_terms::term::MakeFault;
use std::alloc::Global;
use std::collections::HashMap;

/// What a term becomes.
#[derive(Drop)]
struct Pruned {
    /// The term without the arguments.
    term: BoxTerm,
    /// The use of a constant that the term was, with its arguments.
    head: Option<Use>,
}

/// Whether the next argument of a head is dropped.
fn drops(table: &HashMap<u32, Flags>, head: Option<Use>) -> bool
    ensures is { result ≡ is_dropped (is_place (get nat_eq table.now)) head }
{
    let Some(of) = head else {
        return false;
    };
    match table.get(&of.name.0) {
        Some(flags) => flags.at(of.arguments as usize),
        None => false,
    }
}

/// A term that stays, with no use that it is. Only `Memory`.
fn same(t: &BoxTerm) -> Result<Pruned, PassFault>
    ensures ok { IfOk result (λ u. (u.term ≡ t.now) × (u.head ≡ None)) }
    ensures only_memory { IfErr result (λ e. e ≡ Memory) }
{
    let term = shared(t)?;
    Ok(Pruned { term, head: None })
}

/// The term of a node, where it is what the term `t` becomes, with the use that `t` was. Only `Memory`.
fn made(
    alloc: Global,
    table: &HashMap<u32, Flags>,
    t: &BoxTerm,
    node: BoxNode,
    head: Option<Use>,
) -> Result<Pruned, PassFault>
    requires is { box_of node ≡ pruned (is_place (get nat_eq table.now)) t.now }
    ensures ok { IfOk result (λ u. (u.term ≡ pruned (is_place (get nat_eq table.now)) t.now) × (u.head ≡ head)) }
    ensures only_memory { IfErr result (λ e. e ≡ Memory) }
{
    let _within = t.depth();
    match BoxTerm::make(alloc, node) {
        Ok(term) => Ok(Pruned { term, head }),
        Err(MakeFault::TooDeep) => Err(PassFault::TooDeep),
        Err(MakeFault::Memory) => Err(PassFault::Memory),
    }
}

/// The term without the arguments at the places of the table. It calls itself for subterms alone. Only `Memory`.
pub(crate) fn prune(
    alloc: Global,
    table: &HashMap<u32, Flags>,
    t: &BoxTerm,
) -> Result<BoxTerm, PassFault>
    ensures ok { IfOk result (λ u. u ≡ pruned (is_place (get nat_eq table.now)) t.now) }
    ensures only_memory { IfErr result (λ e. e ≡ Memory) }
{
    let Pruned { term, head: _ } = prune_head(alloc, table, t)?;
    Ok(term)
}

/// A term as the head of arguments, without the arguments at the places of the table. Only `Memory`.
#[cycle(prune)]
#[tactic(auto, using(std::proofs::lemmas::Grind::common_steps))]
fn prune_head(alloc: Global, table: &HashMap<u32, Flags>, t: &BoxTerm) -> Result<Pruned, PassFault>
    ensures ok { IfOk result (λ u. (u.term ≡ pruned (is_place (get nat_eq table.now)) t.now) × (u.head ≡ spine t.now)) }
    ensures only_memory { IfErr result (λ e. e ≡ Memory) }
{
    match t.view() {
        BoxNode::Boxed => same(t),
        BoxNode::Rel(_) => same(t),
        BoxNode::Lambda(b) => {
            let Pruned {
                term: body,
                head: _,
            } = prune_head(alloc, table, b)?;
            if body.shares_node(b) {
                return same(t);
            }
            made(alloc, table, t, BoxNode::Lambda(body), None)
        }
        BoxNode::LetIn(v, b) => {
            let Pruned {
                term: value,
                head: _,
            } = prune_head(alloc, table, v)?;
            let Pruned {
                term: body,
                head: _,
            } = prune_head(alloc, table, b)?;
            if value.shares_node(v) && body.shares_node(b) {
                return same(t);
            }
            made(alloc, table, t, BoxNode::LetIn(value, body), None)
        }
        BoxNode::App(f, a) => {
            let Pruned {
                term: function,
                head,
            } = prune_head(alloc, table, f)?;
            let whole = with_argument(f, head);
            if drops(table, head) {
                return Ok(Pruned {
                    term: function,
                    head: whole,
                });
            }
            let Pruned {
                term: argument,
                head: _,
            } = prune_head(alloc, table, a)?;
            if function.shares_node(f) && argument.shares_node(a) {
                let term = shared(t)?;
                return Ok(Pruned { term, head: whole });
            }
            made(alloc, table, t, BoxNode::App(function, argument), whole)
        }
        BoxNode::Const(name) => {
            let term = shared(t)?;
            let head = Some(Use {
                name: *name,
                arguments: 0,
            });
            Ok(Pruned { term, head })
        }
        BoxNode::Construct(_, _) => same(t),
        BoxNode::Case(f, s, bs) => {
            let Pruned {
                term: scrut,
                head: _,
            } = prune_head(alloc, table, s)?;
            let branches = prune_branches(alloc, table, bs)?;
            if scrut.shares_node(s) && share_branches(&branches, bs) {
                return same(t);
            }
            made(alloc, table, t, BoxNode::Case(*f, scrut, branches), None)
        }
        BoxNode::Fix(ds, i) => {
            let defs = prune_defs(alloc, table, ds)?;
            if share_defs(&defs, ds) {
                return same(t);
            }
            made(alloc, table, t, BoxNode::Fix(defs, *i), None)
        }
    }
}

/// The branches without the arguments at the places of the table. Only `Memory`.
#[cycle(prune)]
#[tactic(auto, using(std::proofs::lemmas::Grind::common_steps))]
fn prune_branches(
    alloc: Global,
    table: &HashMap<u32, Flags>,
    bs: &BoxBranches,
) -> Result<BoxBranches, PassFault>
    ensures ok { IfOk result (λ xs. xs ≡ map (map_branch (pruned (is_place (get nat_eq table.now)))) bs.now) }
    ensures only_memory { IfErr result (λ e. e ≡ Memory) }
{
    let xs = bs.as_slice();
    let mut items = Vec::new(alloc);
    for i in 0..xs.len() {
        let arm = &xs[i];
        let Pruned {
            term: body,
            head: _,
        } = prune_head(alloc, table, &arm.body)?;
        let binders = arm.binders;
        if items.push(BoxBranch { binders, body }).is_err() {
            return Err(PassFault::Memory);
        }
    }
    Ok(BoxBranches::of(items))
}

/// The definitions without the arguments at the places of the table. Only `Memory`.
#[cycle(prune)]
#[tactic(auto, using(std::proofs::lemmas::Grind::common_steps))]
fn prune_defs(
    alloc: Global,
    table: &HashMap<u32, Flags>,
    ds: &BoxDefs,
) -> Result<BoxDefs, PassFault>
    ensures ok { IfOk result (λ xs. xs ≡ map (map_def (pruned (is_place (get nat_eq table.now)))) ds.now) }
    ensures only_memory { IfErr result (λ e. e ≡ Memory) }
{
    let xs = ds.as_slice();
    let mut items = Vec::new(alloc);
    for i in 0..xs.len() {
        let def = &xs[i];
        let Pruned {
            term: body,
            head: _,
        } = prune_head(alloc, table, &def.body)?;
        let rarg = def.rarg;
        if items.push(BoxDef { body, rarg }).is_err() {
            return Err(PassFault::Memory);
        }
    }
    Ok(BoxDefs::of(items))
}

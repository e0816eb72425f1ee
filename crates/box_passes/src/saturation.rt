//! The pass that gives constructors all their arguments, and no parameters.
ghost use Rattle.std.specs.Prelude.{◌≡◌, ◌+◌, ◌<◌, ◌≤◌, IfOk, IfErr, map};
ghost use Rattle.trees.specs.Measures.{depth, depth_trees, depth_limit};
ghost use Rattle.box_passes.specs.Saturate.{saturate_term, saturate_constant, saturate_program, constructor_function};
ghost use Rattle.box_terms.specs.BoxLists.{arms_of, depth_defs};
ghost use Rattle.box_terms.specs.BoxView.{box_of};
ghost use Rattle.box_terms.specs.declared.term.BoxNode.TheVariants.{Construct};
ghost use Rattle.box_passes.specs.Heads.{head, spare};
ghost use Rattle.box_passes.specs.Maps.{map_branch, map_def, AreDeep, AreShallow};
ghost use Rattle.lambda_box.specs.BoxForm.{IsBoxProgram};
ghost use Rattle.lambda_box.specs.SaturatedForm.{IsSaturated};
ghost use Rattle.box_passes.specs.PassResults.{IsAtMostSaturated, KeepsBareData, RunsForData, HasCountedRuns, IsDeep};
ghost use Rattle.lambda_box.specs.declared.fault.PassFault.TheVariants.{TooDeep, Memory};

use crate::families::{Arity, arity_at, bare};
use crate::sharing::{share_branches, share_defs, shared};
use box_terms::program::{BoxConstant, BoxConstants, BoxFamilies, BoxProgram};
use box_terms::term::{BoxBranch, BoxBranches, BoxDef, BoxDefs, BoxNode, BoxTerm};
use lambda_box::PassFault;
use pc_terms::leaf::FamilyId;
use pc_terms::term::MakeFault;
use std::alloc::Global;

/// What a term becomes as the head of some arguments.
#[derive(Drop)]
pub(crate) struct Head {
    /// The head that it becomes.
    term: BoxTerm,
    /// How many of the arguments, from the first, are dropped.
    spare: u32,
}

/// The saturated program: each constructor gets all its arguments and no parameters (eta expansion of constructors, as Coq's extraction
/// does: Letouzey, "A New Extraction for Coq", TYPES 2002). Where a constructor of p parameters and n arguments is the head of at least
/// p + n arguments, the first p are dropped; elsewhere it becomes p + n lambdas round the constructor applied to the innermost n variables.
/// The families have no parameters then. Nothing else changes, and subterms in which nothing changes stay shared.
///
/// The answer is the program of `specs/Saturate.antt`. Where `p` has the form of programs, the answer has it too, with every constructor
/// saturated; it has at most 3 * K + 1 nodes for each of `p`, K being the greatest number of parameters and arguments of a constructor; and
/// where main evaluates to data with n nodes, for main and for main applied to any data terms, the answer gives the same data, and its
/// evaluation with environments has at most n contractions and 2 * n blocks, of which none has more words than `p` has, and as many matches
/// as its evaluation by substitution. `TooDeep` exactly where the saturated program has a term over the depth limit of 2,048.
pub fn saturate(alloc: Global, p: &BoxProgram) -> Result<BoxProgram, PassFault>
    ensures is { IfOk result (λ q. q ≡ saturate_program p.now) }
    ensures form { IfOk result (λ q. IsBoxProgram p.now → IsBoxProgram q × IsSaturated q) }
    ensures size { IfOk result (λ q. IsBoxProgram p.now → IsAtMostSaturated p.now q) }
    ensures data_kept { IfOk result (λ q. IsBoxProgram p.now → KeepsBareData p.now q) }
    ensures runs { IfOk result (λ q. IsBoxProgram p.now → RunsForData p.now q) }
    ensures counted { IfOk result (λ q. IsBoxProgram p.now → HasCountedRuns p.now) }
    ensures too_deep { IfErr result (λ e. e ≡ TooDeep → IsDeep (saturate_program p.now)) }
    ensures shallow { IfOk result (λ q. IsDeep q → ⊥) }
{
    let constants = saturated_constants(alloc, &p.families, &p.constants)?;
    let families = bare(alloc, &p.families)?;
    let main = saturated_term(alloc, &p.families, &p.main)?;
    Ok(BoxProgram {
        constants,
        families,
        main,
    })
}

/// The constants saturated, in the same order. `TooDeep` only where one is over the depth limit.
#[tactic(auto, using(box_terms::proofs::Items::reverse_map, crate::proofs::Heading::shallow_laws, std::proofs::lemmas::Grind::common_steps))]
fn saturated_constants(
    alloc: Global,
    fs: &BoxFamilies,
    cs: &BoxConstants,
) -> Result<BoxConstants, PassFault>
    ensures ok { IfOk result (λ ds. ds ≡ map (saturate_constant fs.now) cs.now) }
    ensures too_deep { IfErr result (λ e. e ≡ TooDeep → AreDeep (map (saturate_constant fs.now) cs.now)) }
    ensures shallow { IfOk result AreShallow }
{
    let mut items = Vec::new(alloc);
    for d in cs.as_slice() {
        let body = saturated_term(alloc, fs, &d.body)?;
        let name = d.name;
        if items.push(BoxConstant { name, body }).is_err() {
            return Err(PassFault::Memory);
        }
    }
    Ok(BoxConstants::of(items))
}

/// The saturated term. `TooDeep` only where it is over the depth limit.
fn saturated_term(alloc: Global, fs: &BoxFamilies, t: &BoxTerm) -> Result<BoxTerm, PassFault>
    ensures ok { IfOk result (λ u. u ≡ saturate_term fs.now t.now) }
    ensures too_deep { IfErr result (λ e. e ≡ TooDeep → depth_limit < depth (saturate_term fs.now t.now)) }
    ensures shallow { IfOk result (λ u. depth u ≤ depth_limit) }
{
    let _within = t.depth();
    let Head { term, spare: _ } = saturated(alloc, fs, t, 0)?;
    let _shallow = term.depth();
    Ok(term)
}

/// The term of a node. `TooDeep` where it is over the depth limit.
fn made(alloc: Global, node: BoxNode) -> Result<BoxTerm, PassFault>
    ensures ok { IfOk result (λ u. u ≡ box_of node) }
    ensures too_deep { IfErr result (λ e. e ≡ TooDeep → depth_limit < depth (box_of node)) }
{
    match BoxTerm::make(alloc, node) {
        Ok(t) => Ok(t),
        Err(MakeFault::TooDeep) => Err(PassFault::TooDeep),
        Err(MakeFault::Memory) => Err(PassFault::Memory),
    }
}

/// A head that drops no argument.
fn head_of(alloc: Global, node: BoxNode) -> Result<Head, PassFault>
    ensures ok { IfOk result (λ h. (h.term ≡ box_of node) × (h.spare ≡ 0)) }
    ensures too_deep { IfErr result (λ e. e ≡ TooDeep → depth_limit < depth (box_of node)) }
{
    let term = made(alloc, node)?;
    Ok(Head { term, spare: 0 })
}

/// A head that stays, and drops some arguments. Only `Memory`.
fn same_head(t: &BoxTerm, spare: u32) -> Result<Head, PassFault>
    ensures ok { IfOk result (λ h. (h.term ≡ t.now) × (h.spare ≡ spare)) }
    ensures only_memory { IfErr result (λ e. e ≡ Memory) }
{
    let term = shared(t)?;
    Ok(Head { term, spare })
}

/// A constructor as a function of its parameters and arguments.
fn function(alloc: Global, f: FamilyId, c: u32, k: Arity) -> Result<BoxTerm, PassFault>
    ensures ok { IfOk result (λ u. u ≡ constructor_function k.params k.args f c) }
    ensures too_deep { IfErr result (λ e. e ≡ TooDeep → depth_limit < depth (constructor_function k.params k.args f c)) }
{
    let mut t = made(alloc, BoxNode::Construct(f, c))?;
    let mut i = k.args;
    'variables: while i > 0 {
        i -= 1;
        let variable = made(alloc, BoxNode::Rel(i))?;
        t = made(alloc, BoxNode::App(t, variable))?;
    }
    let mut binders = u64::from(k.params) + u64::from(k.args);
    'binders: while binders > 0 {
        binders -= 1;
        t = made(alloc, BoxNode::Lambda(t))?;
    }
    Ok(t)
}

/// A constructor as the head of n arguments.
fn constructor(
    alloc: Global,
    fs: &BoxFamilies,
    t: &BoxTerm,
    f: FamilyId,
    c: u32,
    n: u32,
) -> Result<Head, PassFault>
    requires is { t.now ≡ box_of (Construct f c) }
    ensures ok { IfOk result (λ h. (h.term ≡ head fs.now t.now n) × (h.spare ≡ spare fs.now t.now n)) }
    ensures too_deep { IfErr result (λ e. e ≡ TooDeep → depth_limit < depth (head fs.now t.now n)) }
{
    match arity_at(fs, f, c) {
        None => same_head(t, 0),
        Some(k) => {
            if u64::from(k.params) + u64::from(k.args) <= u64::from(n) {
                return same_head(t, k.params);
            }
            let term = function(alloc, f, c, k)?;
            Ok(Head { term, spare: 0 })
        }
    }
}

/// A term as the head of n arguments.
#[cycle(saturate)]
#[tactic(auto, using(std::proofs::lemmas::Grind::common_steps))]
fn saturated(alloc: Global, fs: &BoxFamilies, t: &BoxTerm, n: u32) -> Result<Head, PassFault>
    requires room { n + depth t.now ≤ depth_limit }
    ensures ok { IfOk result (λ h. (h.term ≡ head fs.now t.now n) × (h.spare ≡ spare fs.now t.now n)) }
    ensures too_deep { IfErr result (λ e. e ≡ TooDeep → depth_limit < depth (head fs.now t.now n)) }
{
    match t.view() {
        BoxNode::Boxed => same_head(t, 0),
        BoxNode::Rel(_) => same_head(t, 0),
        BoxNode::Lambda(b) => {
            let Head {
                term: body,
                spare: _,
            } = saturated(alloc, fs, b, 0)?;
            if body.shares_node(b) {
                return same_head(t, 0);
            }
            head_of(alloc, BoxNode::Lambda(body))
        }
        BoxNode::LetIn(v, b) => {
            let Head {
                term: value,
                spare: _,
            } = saturated(alloc, fs, v, 0)?;
            let Head {
                term: body,
                spare: _,
            } = saturated(alloc, fs, b, 0)?;
            if value.shares_node(v) && body.shares_node(b) {
                return same_head(t, 0);
            }
            head_of(alloc, BoxNode::LetIn(value, body))
        }
        BoxNode::App(f, a) => {
            let g = saturated(alloc, fs, f, n + 1)?;
            if g.spare > 0 {
                let Head { term, spare } = g;
                return Ok(Head {
                    term,
                    spare: spare - 1,
                });
            }
            let Head {
                term: function,
                spare: _,
            } = g;
            let Head {
                term: argument,
                spare: _,
            } = saturated(alloc, fs, a, 0)?;
            if function.shares_node(f) && argument.shares_node(a) {
                return same_head(t, 0);
            }
            head_of(alloc, BoxNode::App(function, argument))
        }
        BoxNode::Const(_) => same_head(t, 0),
        BoxNode::Construct(f, c) => constructor(alloc, fs, t, *f, *c, n),
        BoxNode::Case(f, s, bs) => {
            let Head {
                term: scrut,
                spare: _,
            } = saturated(alloc, fs, s, 0)?;
            let branches = saturated_branches(alloc, fs, bs)?;
            if scrut.shares_node(s) && share_branches(&branches, bs) {
                return same_head(t, 0);
            }
            head_of(alloc, BoxNode::Case(*f, scrut, branches))
        }
        BoxNode::Fix(ds, i) => {
            let defs = saturated_defs(alloc, fs, ds)?;
            if share_defs(&defs, ds) {
                return same_head(t, 0);
            }
            head_of(alloc, BoxNode::Fix(defs, *i))
        }
    }
}

/// The branches saturated. `TooDeep` only where one is over the depth limit.
#[cycle(saturate)]
#[tactic(auto, using(std::proofs::lemmas::Grind::common_steps))]
fn saturated_branches(
    alloc: Global,
    fs: &BoxFamilies,
    bs: &BoxBranches,
) -> Result<BoxBranches, PassFault>
    requires room { depth_trees (arms_of bs.now) ≤ depth_limit }
    ensures ok { IfOk result (λ xs. xs ≡ map (map_branch (λ t. head fs.now t 0)) bs.now) }
    ensures too_deep { IfErr result (λ e. e ≡ TooDeep → depth_limit < depth_trees (arms_of (map (map_branch (λ t. head fs.now t 0)) bs.now))) }
{
    let xs = bs.as_slice();
    let mut items = Vec::new(alloc);
    for i in 0..xs.len() {
        let arm = &xs[i];
        let Head {
            term: body,
            spare: _,
        } = saturated(alloc, fs, &arm.body, 0)?;
        let binders = arm.binders;
        if items.push(BoxBranch { binders, body }).is_err() {
            return Err(PassFault::Memory);
        }
    }
    Ok(BoxBranches::of(items))
}

/// The definitions saturated. `TooDeep` only where one is over the depth limit.
#[cycle(saturate)]
#[tactic(auto, using(std::proofs::lemmas::Grind::common_steps))]
fn saturated_defs(alloc: Global, fs: &BoxFamilies, ds: &BoxDefs) -> Result<BoxDefs, PassFault>
    requires room { depth_defs ds.now ≤ depth_limit }
    ensures ok { IfOk result (λ xs. xs ≡ map (map_def (λ t. head fs.now t 0)) ds.now) }
    ensures too_deep { IfErr result (λ e. e ≡ TooDeep → depth_limit < depth_defs (map (map_def (λ t. head fs.now t 0)) ds.now)) }
{
    let xs = ds.as_slice();
    let mut items = Vec::new(alloc);
    for i in 0..xs.len() {
        let def = &xs[i];
        let Head {
            term: body,
            spare: _,
        } = saturated(alloc, fs, &def.body, 0)?;
        let rarg = def.rarg;
        if items.push(BoxDef { body, rarg }).is_err() {
            return Err(PassFault::Memory);
        }
    }
    Ok(BoxDefs::of(items))
}

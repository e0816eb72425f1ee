//! The pass that drops matches on propositional families.
ghost use Rattle.std.specs.Prelude.{◌≡◌, ◌<◌, ◌≤◌, ◌⊎◌, true, false, [], length, IfOk, IfErr, IsTrue, IsFalse, map};
ghost use Rattle.trees.specs.Tree.{Rel as variable};
ghost use Rattle.trees.specs.Parallel.{put_all, substitute};
ghost use Rattle.lambda_box.specs.BoxProgram.{boxes};
ghost use Rattle.lambda_box.specs.OrdinaryForm.{family_of, propositional_of, IsOrdinaryProgram};
ghost use Rattle.box_passes.specs.PropMatch.{drop_matches, drop_matches_constant, prop_match_program};
ghost use Rattle.box_terms.specs.BoxView.{box_of};
ghost use Rattle.box_passes.specs.Maps.{map_branch, map_def};
ghost use Rattle.lambda_box.specs.BoxForm.{IsBoxProgram};
ghost use Rattle.lambda_box.specs.SaturatedForm.{program_nodes};
ghost use Rattle.lambda_box.specs.DataTerms.{greatest_words};
ghost use Rattle.box_passes.specs.PassResults.{KeepsData, NoDeeper};
ghost use Rattle.lambda_box.specs.declared.fault.PassFault.TheVariants.{Memory};

use crate::families::propositional;
use crate::sharing::{share_branches, share_defs, shared};
use box_terms::lists::BoxTerms;
use box_terms::program::{BoxConstant, BoxConstants, BoxFamilies, BoxProgram};
use box_terms::term::{BoxBranch, BoxBranches, BoxDef, BoxDefs, BoxNode, BoxTerm};
use lambda_box::PassFault;
use pc_terms::leaf::FamilyId;
use pc_terms::term::MakeFault;
use std::alloc::Global;

/// The program without matches on propositional families (erasure lets their scrutinee be box: Letouzey, "A New Extraction for Coq", TYPES
/// 2002). Such a match with one branch becomes that branch, with boxes for its names; one with several branches, for which there is no rule
/// of evaluation, becomes box. Nothing else changes, and subterms in which nothing changes stay shared.
///
/// The answer is the program of `specs/PropMatch.antt`. It has the form of programs where `p` has it, gives the same data with no more nodes
/// of evaluation, for main and for main applied to any data terms, and has no more nodes, words or depth. `Memory` is the only refusal.
pub fn prop_match(alloc: Global, p: &BoxProgram) -> Result<BoxProgram, PassFault>
    ensures is { IfOk result (λ q. q ≡ prop_match_program p.now) }
    ensures form { IfOk result (λ q. IsBoxProgram p.now → IsBoxProgram q × IsOrdinaryProgram q) }
    ensures data_kept { IfOk result (λ q. IsBoxProgram p.now → KeepsData p.now q) }
    ensures nodes_kept { IfOk result (λ q. program_nodes q ≤ program_nodes p.now) }
    ensures words_kept { IfOk result (λ q. greatest_words q ≤ greatest_words p.now) }
    ensures no_deeper { IfOk result (λ q. NoDeeper p.now) }
    ensures only_memory { IfErr result (λ e. e ≡ Memory) }
{
    let constants = dropped_constants(alloc, &p.families, &p.constants)?;
    let Ok(families) = p.families.copied(alloc) else {
        return Err(PassFault::Memory);
    };
    let main = dropped(alloc, &p.families, &p.main)?;
    Ok(BoxProgram {
        constants,
        families,
        main,
    })
}

/// The constants without their matches on propositional families, in the same order. Only `Memory`.
#[tactic(auto, using(box_terms::proofs::Items::reverse_map, std::proofs::lemmas::Grind::common_steps))]
fn dropped_constants(
    alloc: Global,
    fs: &BoxFamilies,
    cs: &BoxConstants,
) -> Result<BoxConstants, PassFault>
    ensures ok { IfOk result (λ ds. ds ≡ map (drop_matches_constant fs.now) cs.now) }
    ensures only_memory { IfErr result (λ e. e ≡ Memory) }
{
    let mut items = Vec::new(alloc);
    for d in cs.as_slice() {
        let body = dropped(alloc, fs, &d.body)?;
        let name = d.name;
        if items.push(BoxConstant { name, body }).is_err() {
            return Err(PassFault::Memory);
        }
    }
    Ok(BoxConstants::of(items))
}

/// The term of a node, where it is what the term `t` becomes, which is no deeper than `t`. Only `Memory`.
fn made(alloc: Global, fs: &BoxFamilies, t: &BoxTerm, node: BoxNode) -> Result<BoxTerm, PassFault>
    requires is { box_of node ≡ drop_matches fs.now t.now }
    ensures ok { IfOk result (λ u. u ≡ drop_matches fs.now t.now) }
    ensures only_memory { IfErr result (λ e. e ≡ Memory) }
{
    let _within = t.depth();
    match BoxTerm::make(alloc, node) {
        Ok(t) => Ok(t),
        Err(MakeFault::TooDeep) => Err(PassFault::TooDeep),
        Err(MakeFault::Memory) => Err(PassFault::Memory),
    }
}

/// A list of `k` boxes. Only `Memory`.
#[tactic(auto, using(crate::proofs::Dropping::boxes_more, std::proofs::lemmas::Grind::common_steps))]
fn box_list(alloc: Global, k: u32) -> Result<BoxTerms, PassFault>
    ensures ok { IfOk result (λ xs. xs ≡ boxes k) }
    ensures only_memory { IfErr result (λ e. e ≡ Memory) }
{
    let mut items = Vec::new(alloc);
    for _i in 0..k {
        let boxed = match BoxTerm::make(alloc, BoxNode::Boxed) {
            Ok(t) => t,
            Err(_) => return Err(PassFault::Memory),
        };
        if items.push(boxed).is_err() {
            return Err(PassFault::Memory);
        }
    }
    Ok(BoxTerms::of(items))
}

/// The body of a branch with boxes for its `k` names, where it is what the term `t` becomes. Only `Memory`.
fn filled(
    alloc: Global,
    fs: &BoxFamilies,
    t: &BoxTerm,
    body: &BoxTerm,
    k: u32,
) -> Result<BoxTerm, PassFault>
    requires is { substitute (put_all (boxes k) variable) body.now ≡ drop_matches fs.now t.now }
    ensures ok { IfOk result (λ u. u ≡ drop_matches fs.now t.now) }
    ensures only_memory { IfErr result (λ e. e ≡ Memory) }
{
    let _within = t.depth();
    let list = box_list(alloc, k)?;
    match body.subst_list(alloc, &list) {
        Ok(u) => Ok(u),
        Err(MakeFault::TooDeep) => Err(PassFault::TooDeep),
        Err(MakeFault::Memory) => Err(PassFault::Memory),
    }
}

/// Whether a match on the family `f` stays one: the family isn't propositional, or there are no branches.
fn stays(fs: &BoxFamilies, f: FamilyId, bs: &BoxBranches) -> bool
    ensures yes { IsTrue result → (propositional_of (family_of fs.now f) ≡ false) ⊎ (bs.now ≡ []) }
    ensures no { IsFalse result → (propositional_of (family_of fs.now f) ≡ true) × (0 < length bs.now) }
{
    bs.is_empty() || !propositional(fs, f)
}

/// The term without its matches on propositional families. It calls itself for subterms alone. Only `Memory`.
#[cycle(drop)]
#[tactic(auto, using(std::proofs::lemmas::Grind::common_steps))]
fn dropped(alloc: Global, fs: &BoxFamilies, t: &BoxTerm) -> Result<BoxTerm, PassFault>
    ensures ok { IfOk result (λ u. u ≡ drop_matches fs.now t.now) }
    ensures only_memory { IfErr result (λ e. e ≡ Memory) }
{
    match t.view() {
        BoxNode::Boxed => shared(t),
        BoxNode::Rel(_) => shared(t),
        BoxNode::Lambda(b) => {
            let body = dropped(alloc, fs, b)?;
            if body.shares_node(b) {
                return shared(t);
            }
            made(alloc, fs, t, BoxNode::Lambda(body))
        }
        BoxNode::LetIn(v, b) => {
            let value = dropped(alloc, fs, v)?;
            let body = dropped(alloc, fs, b)?;
            if value.shares_node(v) && body.shares_node(b) {
                return shared(t);
            }
            made(alloc, fs, t, BoxNode::LetIn(value, body))
        }
        BoxNode::App(f, a) => {
            let function = dropped(alloc, fs, f)?;
            let argument = dropped(alloc, fs, a)?;
            if function.shares_node(f) && argument.shares_node(a) {
                return shared(t);
            }
            made(alloc, fs, t, BoxNode::App(function, argument))
        }
        BoxNode::Const(_) => shared(t),
        BoxNode::Construct(_, _) => shared(t),
        BoxNode::Case(f, s, bs) => {
            if !stays(fs, *f, bs) {
                let arms = bs.as_slice();
                if arms.len() > 1 {
                    return made(alloc, fs, t, BoxNode::Boxed);
                }
                let arm = &arms[0];
                let body = dropped(alloc, fs, &arm.body)?;
                return filled(alloc, fs, t, &body, arm.binders);
            }
            let scrut = dropped(alloc, fs, s)?;
            let branches = dropped_branches(alloc, fs, bs)?;
            if scrut.shares_node(s) && share_branches(&branches, bs) {
                return shared(t);
            }
            made(alloc, fs, t, BoxNode::Case(*f, scrut, branches))
        }
        BoxNode::Fix(ds, i) => {
            let defs = dropped_defs(alloc, fs, ds)?;
            if share_defs(&defs, ds) {
                return shared(t);
            }
            made(alloc, fs, t, BoxNode::Fix(defs, *i))
        }
    }
}

/// The branches without their matches on propositional families. Only `Memory`.
#[cycle(drop)]
#[tactic(auto, using(std::proofs::lemmas::Grind::common_steps))]
fn dropped_branches(
    alloc: Global,
    fs: &BoxFamilies,
    bs: &BoxBranches,
) -> Result<BoxBranches, PassFault>
    ensures ok { IfOk result (λ xs. xs ≡ map (map_branch (drop_matches fs.now)) bs.now) }
    ensures only_memory { IfErr result (λ e. e ≡ Memory) }
{
    let xs = bs.as_slice();
    let mut items = Vec::new(alloc);
    for i in 0..xs.len() {
        let arm = &xs[i];
        let body = dropped(alloc, fs, &arm.body)?;
        let binders = arm.binders;
        if items.push(BoxBranch { binders, body }).is_err() {
            return Err(PassFault::Memory);
        }
    }
    Ok(BoxBranches::of(items))
}

/// The definitions without their matches on propositional families. Only `Memory`.
#[cycle(drop)]
#[tactic(auto, using(std::proofs::lemmas::Grind::common_steps))]
fn dropped_defs(alloc: Global, fs: &BoxFamilies, ds: &BoxDefs) -> Result<BoxDefs, PassFault>
    ensures ok { IfOk result (λ xs. xs ≡ map (map_def (drop_matches fs.now)) ds.now) }
    ensures only_memory { IfErr result (λ e. e ≡ Memory) }
{
    let xs = ds.as_slice();
    let mut items = Vec::new(alloc);
    for i in 0..xs.len() {
        let def = &xs[i];
        let body = dropped(alloc, fs, &def.body)?;
        let rarg = def.rarg;
        if items.push(BoxDef { body, rarg }).is_err() {
            return Err(PassFault::Memory);
        }
    }
    Ok(BoxDefs::of(items))
}

//! The parameters of constants that aren't used in their bodies.
ghost use Rattle.std.specs.Prelude.{◌≡◌, ◌+◌, ◌<◌, ◌≤◌, ◌^◌, ◌&&◌, ℕ, false, length, nat_eq, reverse, IfOk, IfErr, OnOk};
ghost use Rattle.std.specs.HashMap.{get};
ghost use Rattle.trees.specs.Measures.{depth, depth_limit};
ghost use Rattle.box_terms.specs.BoxLists.{arms_of, bodies_of};
ghost use Rattle.lambda_box.specs.declared.fault.PassFault.TheVariants.{Memory};
ghost use Rattle.shrink_passes.specs.DropParams.{leading, is_unused};
ghost use Rattle.shrink_passes.specs.DeadPlaces.{flag_at, is_place, is_unnamed, are_unnamed, is_spare, is_candidate};

use crate::flags::Flags;
use box_terms::program::BoxProgram;
use box_terms::term::{BoxBranches, BoxDefs, BoxNode, BoxTerm};
use lambda_box::PassFault;
use std::alloc::Global;
use std::collections::HashMap;

/// Notes the variables that a term under `n` binders names, of those outside these, the innermost first.
#[cycle(pass)]
#[tactic(auto, using(std::proofs::lemmas::Grind::common_steps))]
fn pass(spare: &mut Flags, t: &BoxTerm, n: u64)
    ensures passed { (j : ℕ) → flag_at j spare.new ≡ (flag_at j spare.old && is_unnamed (n + j) t.now) }
    ensures len { length spare.new ≡ length spare.old }
{
    if t.loose() <= n {
        return;
    }
    match t.view() {
        BoxNode::Boxed => {}
        BoxNode::Rel(i) => spare.clear((u64::from(*i) - n) as u32),
        BoxNode::Lambda(b) => pass(spare, b, n + 1),
        BoxNode::LetIn(v, b) => {
            pass(spare, v, n);
            pass(spare, b, n + 1);
        }
        BoxNode::App(f, a) => {
            pass(spare, f, n);
            pass(spare, a, n);
        }
        BoxNode::Const(_) => {}
        BoxNode::Construct(_, _) => {}
        BoxNode::Case(_, s, bs) => {
            pass(spare, s, n);
            pass_branches(spare, bs, n);
        }
        BoxNode::Fix(ds, _) => pass_defs(spare, ds, n),
    }
}

/// Notes the variables that branches name.
#[cycle(pass)]
#[tactic(auto, using(std::proofs::lemmas::Grind::common_steps))]
fn pass_branches(spare: &mut Flags, bs: &BoxBranches, n: u64)
    requires small { n < 2 ^ 32 }
    ensures passed { (j : ℕ) → flag_at j spare.new ≡ (flag_at j spare.old && are_unnamed (n + j) (arms_of bs.now)) }
    ensures len { length spare.new ≡ length spare.old }
{
    let xs = bs.as_slice();
    for i in 0..xs.len() {
        let arm = &xs[i];
        pass(spare, &arm.body, n + u64::from(arm.binders));
    }
}

/// Notes the variables that definitions name.
#[cycle(pass)]
#[tactic(auto, using(std::proofs::lemmas::Grind::common_steps))]
fn pass_defs(spare: &mut Flags, ds: &BoxDefs, n: u64)
    requires small { n < 2 ^ 32 }
    ensures passed { (j : ℕ) → flag_at j spare.new ≡ (flag_at j spare.old && are_unnamed (n + j) (bodies_of (length ds.now) ds.now)) }
    ensures len { length spare.new ≡ length spare.old }
{
    let xs = ds.as_slice();
    let inner = n + xs.len() as u64;
    for i in 0..xs.len() {
        let def = &xs[i];
        pass(spare, &def.body, inner);
    }
}

/// For each variable of `n` lambdas round a term and of its own leading lambdas, the innermost first, whether it isn't used. Only `Memory`.
#[cycle(spare_variables)]
fn spare_variables(alloc: Global, t: &BoxTerm, n: u32) -> Result<Flags, PassFault>
    requires room { n + depth t.now ≤ depth_limit + 1 }
    ensures is { IfOk result (λ xs. (j : ℕ) → flag_at j xs ≡ is_spare n t.now j) }
    ensures len { IfOk result (λ xs. length xs ≡ n + leading t.now) }
    ensures only_memory { IfErr result (λ e. e ≡ Memory) }
{
    if let BoxNode::Lambda(b) = t.view() {
        return spare_variables(alloc, b, n + 1);
    }
    let mut spare = Flags::all(alloc, n)?;
    pass(&mut spare, t, 0);
    Ok(spare)
}

/// For each leading lambda of a body, from the outermost, whether its variable isn't used. Only `Memory`.
fn unused_places(alloc: Global, body: &BoxTerm) -> Result<Flags, PassFault>
    ensures is { IfOk result (λ xs. (p : ℕ) → flag_at p xs ≡ is_unused p body.now) }
    ensures only_memory { IfErr result (λ e. e ≡ Memory) }
{
    let _within = body.depth();
    let spare = spare_variables(alloc, body, 0)?;
    Ok(spare.reversed())
}

/// For each constant, by the number of its name, the places of its leading lambdas whose variables aren't used. Only `Memory`.
#[tactic(auto, using(std::proofs::lemmas::Grind::common_steps))]
pub(crate) fn candidates(alloc: Global, p: &BoxProgram) -> Result<HashMap<u32, Flags>, PassFault>
    ensures is { IfOk result (λ m. (k q : ℕ) → is_place (get nat_eq m) k q ≡ is_candidate k q (reverse p.now.constants) false) }
    ensures only_memory { IfErr result (λ e. e ≡ Memory) }
{
    let mut table = HashMap::new(alloc);
    for d in p.constants.as_slice() {
        let spare = unused_places(alloc, &d.body)?;
        if table.insert(d.name.0, spare).is_err() {
            return Err(PassFault::Memory);
        }
    }
    Ok(table)
}

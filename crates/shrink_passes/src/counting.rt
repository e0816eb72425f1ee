//! One walk that notes where each constant is used.
ghost use Rattle.std.specs.Prelude.{◌≡◌, ◌+◌, ◌≤◌, ℕ, IfOk, IfErr, OnOk, nat_eq, if◌then◌else◌, length};
ghost use Rattle.std.specs.HashMap.{get};
ghost use Rattle.trees.specs.Measures.{depth, depth_trees, depth_limit};
ghost use Rattle.box_terms.specs.BoxLists.{arms_of, bodies_of, depth_defs};
ghost use Rattle.lambda_box.specs.declared.fault.PassFault.TheVariants.{Memory};
ghost use Rattle.shrink_passes.specs.Sights.{seen, sight, sight_terms, sight_program};

use box_terms::program::BoxProgram;
use box_terms::term::{BoxBranches, BoxDefs, BoxNode, BoxTerm};
use lambda_box::PassFault;
use pc_terms::leaf::Name;
use std::alloc::Global;
use std::collections::HashMap;

/// What is noted of a constant that has a use.
#[derive(Clone, Copy, Debug, PartialEq, Eq)]
pub(crate) enum Sight {
    /// One use, and how many nodes stand above it.
    Once(u32),
    /// More than one.
    Often,
}

/// Notes one more use of a constant, under `n` nodes. Only `Memory`.
fn see(sights: &mut HashMap<u32, Sight>, name: Name, n: u32) -> Result<(), PassFault>
    ensures seen { OnOk result ((k : ℕ) → get nat_eq sights.new k ≡ (if nat_eq name.0 k then seen n (get nat_eq sights.old k) else get nat_eq sights.old k)) }
    ensures only_memory { IfErr result (λ e. e ≡ Memory) }
{
    let sight = match sights.get(&name.0) {
        None => Sight::Once(n),
        Some(_) => Sight::Often,
    };
    match sights.insert(name.0, sight) {
        Ok(_) => Ok(()),
        Err(_) => Err(PassFault::Memory),
    }
}

/// Notes the uses in a term that stands under `n` nodes. Only `Memory`.
#[cycle(count)]
#[tactic(auto, using(std::proofs::lemmas::Grind::common_steps))]
fn count(sights: &mut HashMap<u32, Sight>, t: &BoxTerm, n: u32) -> Result<(), PassFault>
    requires room { n + depth t.now ≤ depth_limit + 1 }
    ensures counted { OnOk result ((k : ℕ) → get nat_eq sights.new k ≡ sight k n t.now (get nat_eq sights.old k)) }
    ensures only_memory { IfErr result (λ e. e ≡ Memory) }
{
    match t.view() {
        BoxNode::Boxed => Ok(()),
        BoxNode::Rel(_) => Ok(()),
        BoxNode::Lambda(b) => count(sights, b, n + 1),
        BoxNode::LetIn(v, b) => {
            count(sights, v, n + 1)?;
            count(sights, b, n + 1)
        }
        BoxNode::App(f, a) => {
            count(sights, f, n + 1)?;
            count(sights, a, n + 1)
        }
        BoxNode::Const(name) => see(sights, *name, n),
        BoxNode::Construct(_, _) => Ok(()),
        BoxNode::Case(_, s, bs) => {
            count(sights, s, n + 1)?;
            count_branches(sights, bs, n + 1)
        }
        BoxNode::Fix(ds, _) => count_defs(sights, ds, n + 1),
    }
}

/// Notes the uses in branches that stand under `n` nodes. Only `Memory`.
#[cycle(count)]
#[tactic(auto, using(std::proofs::lemmas::Grind::common_steps))]
fn count_branches(
    sights: &mut HashMap<u32, Sight>,
    bs: &BoxBranches,
    n: u32,
) -> Result<(), PassFault>
    requires room { n + depth_trees (arms_of bs.now) ≤ depth_limit + 1 }
    ensures counted { OnOk result ((k : ℕ) → get nat_eq sights.new k ≡ sight_terms k n (arms_of bs.now) (get nat_eq sights.old k)) }
    ensures only_memory { IfErr result (λ e. e ≡ Memory) }
{
    let xs = bs.as_slice();
    for i in 0..xs.len() {
        let arm = &xs[i];
        count(sights, &arm.body, n)?;
    }
    Ok(())
}

/// Notes the uses in definitions that stand under `n` nodes. Only `Memory`.
#[cycle(count)]
#[tactic(auto, using(std::proofs::lemmas::Grind::common_steps))]
fn count_defs(sights: &mut HashMap<u32, Sight>, ds: &BoxDefs, n: u32) -> Result<(), PassFault>
    requires room { n + depth_defs ds.now ≤ depth_limit + 1 }
    ensures counted { OnOk result ((k : ℕ) → get nat_eq sights.new k ≡ sight_terms k n (bodies_of (length ds.now) ds.now) (get nat_eq sights.old k)) }
    ensures only_memory { IfErr result (λ e. e ≡ Memory) }
{
    let xs = ds.as_slice();
    for i in 0..xs.len() {
        let def = &xs[i];
        count(sights, &def.body, n)?;
    }
    Ok(())
}

/// What is noted of each constant of a program, by the number of its name. Only `Memory`.
#[tactic(auto, using(std::proofs::lemmas::Grind::common_steps))]
pub(crate) fn sights_of(alloc: Global, p: &BoxProgram) -> Result<HashMap<u32, Sight>, PassFault>
    ensures is { IfOk result (λ m. (k : ℕ) → get nat_eq m k ≡ sight_program k p.now) }
    ensures only_memory { IfErr result (λ e. e ≡ Memory) }
{
    let mut sights = HashMap::new(alloc);
    for d in p.constants.as_slice() {
        let _within = d.body.depth();
        count(&mut sights, &d.body, 0)?;
    }
    let _within = p.main.depth();
    count(&mut sights, &p.main, 0)?;
    Ok(sights)
}

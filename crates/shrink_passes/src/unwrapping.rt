//! Bodies without some of their leading lambdas.
ghost use Rattle.std.specs.Prelude.{◌≡◌, ◌+◌, ◌-◌, ◌<◌, ◌≤◌, ℕ, true, false, if◌then◌else◌, IsTrue, IfOk, IfErr};
ghost use Rattle.trees.specs.Tree.{Rel as variable};
ghost use Rattle.trees.specs.Parallel.{put_all, substitute};
ghost use Rattle.trees.specs.Measures.{depth, depth_limit, IsWithin};
ghost use Rattle.trees.specs.Closed.{Closed};
ghost use Rattle.box_terms.specs.BoxSyntax.{Box, BLambda};
ghost use Rattle.box_terms.specs.BoxView.{box_of};
ghost use Rattle.lambda_box.specs.declared.fault.PassFault.TheVariants.{Memory};
ghost use Rattle.shrink_passes.specs.DropParams.{leading};
ghost use Rattle.shrink_passes.specs.DeadPlaces.{flag_at};
ghost use Rattle.shrink_passes.specs.Pruned.{kept, variables, wrapped, unwrapped};

use crate::flags::Flags;
use box_terms::lists::BoxTerms;
use box_terms::term::{BoxNode, BoxTerm};
use lambda_box::PassFault;
use pc_terms::term::MakeFault;
use std::alloc::Global;

/// The term of a node that is within the limits of terms. Only `Memory`.
fn made(alloc: Global, node: BoxNode) -> Result<BoxTerm, PassFault>
    requires shallow { depth (box_of node) ≤ depth_limit }
    ensures ok { IfOk result (λ t. t ≡ box_of node) }
    ensures only_memory { IfErr result (λ e. e ≡ Memory) }
{
    match BoxTerm::make(alloc, node) {
        Ok(t) => Ok(t),
        Err(MakeFault::TooDeep) => Err(PassFault::TooDeep),
        Err(MakeFault::Memory) => Err(PassFault::Memory),
    }
}

/// How many places are left after one that is dropped or not.
fn rest_of(left: u32, dropped: bool) -> u32
    requires some { dropped ≡ false → 0 < left }
    ensures is { result ≡ left - (if dropped then 0 else 1) }
{
    if dropped { left } else { left - 1 }
}

/// What stands for the variable of a lambda: box where it is dropped, else the variable of the number `n`. Only `Memory`.
fn new_variable(alloc: Global, dropped: bool, n: u32) -> Result<BoxTerm, PassFault>
    ensures is { IfOk result (λ t. t ≡ (if dropped then Box else variable n)) }
    ensures only_memory { IfErr result (λ e. e ≡ Memory) }
{
    if dropped {
        made(alloc, BoxNode::Boxed)
    } else {
        made(alloc, BoxNode::Rel(n))
    }
}

/// How many places there are with one more that is dropped or not.
fn with_place(count: u32, dropped: bool) -> u32
    requires room { count < depth_limit }
    ensures is { result ≡ count + (if dropped then 0 else 1) }
{
    if dropped { count } else { count + 1 }
}

/// How many of the first `n` places aren't dropped.
fn kept_places(dead: &Flags, n: usize) -> u32
    requires small { n ≤ depth_limit }
    ensures is { result ≡ kept (λ p. flag_at p dead.now) 0 n }
{
    let mut count = 0;
    for p in 0..n {
        count = with_place(count, dead.at(p));
    }
    count
}

/// What stands for the variables of the first `n` lambdas, the last one for the innermost. Only `Memory`.
#[tactic(auto, using(std::proofs::lemmas::Grind::common_steps))]
fn new_variables(alloc: Global, dead: &Flags, n: usize) -> Result<BoxTerms, PassFault>
    requires small { n ≤ depth_limit }
    ensures is { IfOk result (λ xs. xs ≡ variables (λ p. flag_at p dead.now) 0 n) }
    ensures only_memory { IfErr result (λ e. e ≡ Memory) }
{
    let mut left = kept_places(dead, n);
    let mut terms = BoxTerms::new(alloc);
    for p in 0..n {
        let dropped = dead.at(p);
        left = rest_of(left, dropped);
        let term = new_variable(alloc, dropped, left)?;
        if terms.push(term).is_err() {
            return Err(PassFault::Memory);
        }
    }
    Ok(terms)
}

/// The term with the items of the list for its innermost variables, where it is within the limits of terms. Only `Memory`.
fn renumbered(alloc: Global, list: &BoxTerms, t: &BoxTerm) -> Result<BoxTerm, PassFault>
    requires within { IsWithin (substitute (put_all list.now variable) t.now) }
    ensures ok { IfOk result (λ u. u ≡ substitute (put_all list.now variable) t.now) }
    ensures only_memory { IfErr result (λ e. e ≡ Memory) }
{
    match t.subst_list(alloc, list) {
        Ok(t) => Ok(t),
        Err(MakeFault::TooDeep) => Err(PassFault::TooDeep),
        Err(MakeFault::Memory) => Err(PassFault::Memory),
    }
}

/// The term without those of its first `n` leading lambdas that are dropped, of which `p` stand before it, with the items of the list for all variables of these
/// lambdas. It calls itself for the lambdas' bodies alone. Only `Memory`.
#[cycle(unwrap)]
fn unwrap(
    alloc: Global,
    dead: &Flags,
    list: &BoxTerms,
    t: &BoxTerm,
    p: usize,
    n: usize,
) -> Result<BoxTerm, PassFault>
    requires small { p + n ≤ depth_limit }
    requires within { IsWithin (wrapped (λ q. flag_at q dead.now) p n (put_all list.now variable) t.now) }
    ensures ok { IfOk result (λ u. u ≡ wrapped (λ q. flag_at q dead.now) p n (put_all list.now variable) t.now) }
    ensures only_memory { IfErr result (λ e. e ≡ Memory) }
{
    if n == 0 {
        return renumbered(alloc, list, t);
    }
    let BoxNode::Lambda(b) = t.view() else {
        return renumbered(alloc, list, t);
    };
    let body = unwrap(alloc, dead, list, b, p + 1, n - 1)?;
    if dead.at(p) {
        return Ok(body);
    }
    made(alloc, BoxNode::Lambda(body))
}

/// The closed term without the leading lambdas at the places, which it has. Only `Memory`.
pub(crate) fn without_places(alloc: Global, dead: &Flags, t: &BoxTerm) -> Result<BoxTerm, PassFault>
    requires closed { Closed 0 t.now }
    requires leads { (p : ℕ) → flag_at p dead.now ≡ true → p < leading t.now }
    ensures ok { IfOk result (λ u. u ≡ unwrapped (λ p. flag_at p dead.now) 0 variable t.now) }
    ensures only_memory { IfErr result (λ e. e ≡ Memory) }
{
    let _within = t.depth();
    let n = dead.end();
    let list = new_variables(alloc, dead, n)?;
    unwrap(alloc, dead, &list, t, 0, n)
}

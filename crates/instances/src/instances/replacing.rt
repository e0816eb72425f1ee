//! Terms put in for the innermost variables of a term while the variables outside them are raised.
//!
//! A lift before a substitution would pass the limit of variable numbers where its result is within it. So both are done in one walk.
ghost use Rattle.std.specs.Prelude.{◌≡◌, ◌+◌, ◌<◌, ◌≤◌, ◌^◌, IfOk, IfErr, length, map};
ghost use Rattle.trees.specs.Tree.{terms_of, Rel as variable};
ghost use Rattle.trees.specs.Substitution.{walk};
ghost use Rattle.trees.specs.Parallel.{put_all, substitute};
ghost use Rattle.trees.specs.Measures.{IsWithin, IsBeyond, AreBeyond};
ghost use Rattle.pc_terms.specs.Lists.{arms_of, AreBeyondDefs, walk_branch, walk_def, walk_match};
ghost use Rattle.pc_terms.specs.View.{tree_of};
ghost use Rattle.pc_terms.specs.declared.term.Node.TheVariants.{Case};
ghost use Rattle.pc_terms.specs.declared.term.MakeFault.TheVariants.{TooDeep};
ghost use Rattle.instances.specs.Replacing.{replaced_var};

use pc_terms::term::{Branch, Branches, Def, Defs, MakeFault, Match, Node, Term, Terms};
use std::alloc::Global;

/// The term with the items of `list` in the place of its innermost variables, all at once, the last item in the place of variable 0, and
/// the variables outside them lowered by as many and raised by `raise`. `TooDeep` only where that is beyond the limits.
pub fn replace(alloc: Global, t: &Term, raise: u32, list: &Terms) -> Result<Term, MakeFault>
    ensures ok { IfOk result (λ u. u ≡ substitute (put_all list.now (λ i. variable (raise + i))) t.now) }
    ensures within { IfOk result IsWithin }
    ensures too_deep { IfErr result (λ e. e ≡ TooDeep → IsBeyond (substitute (put_all list.now (λ i. variable (raise + i))) t.now)) }
{
    replace_above(alloc, t, 0, raise, list)
}

#[cycle(replace)]
#[tactic(auto, using(pc_terms::specs::Falls::falls, pc_terms::proofs::Parts::part_laws, crate::proofs::Replaced::replaced_laws, std::proofs::lemmas::Grind::common_steps))]
fn terms_above(
    alloc: Global,
    ts: &[Term],
    k: u64,
    raise: u32,
    list: &Terms,
) -> Result<Terms, MakeFault>
    requires small { k < 2 ^ 32 }
    ensures ok { IfOk result (λ out. out ≡ map (walk (replaced_var list.now raise) k) ts.now) }
    ensures too_deep { IfErr result (λ e. e ≡ TooDeep → AreBeyond (terms_of (map (walk (replaced_var list.now raise) k) ts.now))) }
{
    let mut items = Terms::new(alloc);
    for t in ts {
        let t = replace_above(alloc, t, k, raise, list)?;
        items.push(t)?;
    }
    Ok(items)
}

#[cycle(replace)]
#[tactic(auto, using(pc_terms::specs::Falls::falls, pc_terms::proofs::Parts::part_laws, crate::proofs::Replaced::replaced_laws, std::proofs::lemmas::Grind::common_steps))]
fn branches_above(
    alloc: Global,
    bs: &[Branch],
    k: u64,
    raise: u32,
    list: &Terms,
) -> Result<Branches, MakeFault>
    requires small { k < 2 ^ 32 }
    ensures ok { IfOk result (λ out. out ≡ map (walk_branch (replaced_var list.now raise) k) bs.now) }
    ensures too_deep { IfErr result (λ e. e ≡ TooDeep → AreBeyond (arms_of (map (walk_branch (replaced_var list.now raise) k) bs.now))) }
{
    let mut items = Branches::new(alloc);
    for b in bs {
        let binders = b.binders;
        let body = replace_above(alloc, &b.body, k + u64::from(binders), raise, list)?;
        items.push(Branch { binders, body })?;
    }
    Ok(items)
}

#[cycle(replace)]
#[tactic(auto, using(pc_terms::specs::Falls::falls, pc_terms::proofs::Parts::part_laws, crate::proofs::Replaced::replaced_laws, std::proofs::lemmas::Grind::common_steps))]
fn defs_above(
    alloc: Global,
    ds: &[Def],
    k: u64,
    raise: u32,
    list: &Terms,
) -> Result<Defs, MakeFault>
    requires small { k < 2 ^ 32 }
    ensures ok { IfOk result (λ out. out ≡ map (walk_def (replaced_var list.now raise) k (length ds.now)) ds.now) }
    ensures too_deep { IfErr result (λ e. e ≡ TooDeep → AreBeyondDefs (map (walk_def (replaced_var list.now raise) k (length ds.now)) ds.now)) }
{
    let inner = k + ds.len() as u64;
    let mut items = Defs::new(alloc);
    for d in ds {
        let rarg = d.rarg;
        let ty = replace_above(alloc, &d.ty, k, raise, list)?;
        let body = replace_above(alloc, &d.body, inner, raise, list)?;
        items.push(Def { ty, body, rarg })?;
    }
    Ok(items)
}

#[cycle(replace)]
#[tactic(auto, using(pc_terms::specs::Falls::falls, pc_terms::proofs::Parts::part_laws, crate::proofs::Replaced::replaced_laws, std::proofs::lemmas::Grind::common_steps))]
fn match_above(
    alloc: Global,
    m: &Match,
    k: u64,
    raise: u32,
    list: &Terms,
) -> Result<Match, MakeFault>
    requires small { k < 2 ^ 32 }
    ensures ok { IfOk result (λ u. u ≡ walk_match (replaced_var list.now raise) k m.now) }
    ensures too_deep { IfErr result (λ e. e ≡ TooDeep → IsBeyond (tree_of (Case (walk_match (replaced_var list.now raise) k m.now)))) }
{
    let params = terms_above(alloc, m.params.as_slice(), k, raise, list)?;
    let ret = replace_above(alloc, &m.ret, k + u64::from(m.binders), raise, list)?;
    let scrut = replace_above(alloc, &m.scrut, k, raise, list)?;
    let branches = branches_above(alloc, m.branches.as_slice(), k, raise, list)?;
    Ok(Match {
        family: m.family,
        params,
        binders: m.binders,
        ret,
        scrut,
        branches,
    })
}

/// What stands for variable `i`, which is `k` or more.
#[tactic(auto, using(crate::proofs::Replaced::replaced_laws, std::proofs::lemmas::Grind::common_steps))]
fn variable_above(
    alloc: Global,
    i: u32,
    k: u32,
    raise: u32,
    list: &Terms,
) -> Result<Term, MakeFault>
    requires outside { k ≤ i }
    ensures ok { IfOk result (λ t. t ≡ replaced_var list.now raise k i) }
    ensures within { IfOk result IsWithin }
    ensures too_deep { IfErr result (λ e. e ≡ TooDeep → IsBeyond (replaced_var list.now raise k i)) }
{
    let items = list.as_slice();
    let behind = (i - k) as usize;
    if behind < items.len() {
        return items[items.len() - 1 - behind].lift(alloc, k, 0);
    }
    let outer = i - items.len() as u32;
    match outer.checked_add(raise) {
        Some(j) => Term::make(alloc, Node::Rel(j)),
        None => Err(MakeFault::TooDeep),
    }
}

#[cycle(replace)]
#[tactic(auto, using(pc_terms::specs::Falls::falls, pc_terms::proofs::Parts::part_laws, crate::proofs::Replaced::replaced_laws, std::proofs::lemmas::Grind::common_steps))]
fn replace_above(
    alloc: Global,
    t: &Term,
    k: u64,
    raise: u32,
    list: &Terms,
) -> Result<Term, MakeFault>
    ensures ok { IfOk result (λ u. u ≡ walk (replaced_var list.now raise) k t.now) }
    ensures within { IfOk result IsWithin }
    ensures too_deep { IfErr result (λ e. e ≡ TooDeep → IsBeyond (walk (replaced_var list.now raise) k t.now)) }
{
    if t.loose() <= k {
        return t.share();
    }
    match t.view() {
        Node::Rel(i) => variable_above(alloc, *i, k as u32, raise, list),
        Node::Sort(_) => t.share(),
        Node::Prod(domain, codomain) => {
            let domain = replace_above(alloc, domain, k, raise, list)?;
            let codomain = replace_above(alloc, codomain, k + 1, raise, list)?;
            Term::make(alloc, Node::Prod(domain, codomain))
        }
        Node::Lambda(domain, body) => {
            let domain = replace_above(alloc, domain, k, raise, list)?;
            let body = replace_above(alloc, body, k + 1, raise, list)?;
            Term::make(alloc, Node::Lambda(domain, body))
        }
        Node::LetIn(value, ty, body) => {
            let value = replace_above(alloc, value, k, raise, list)?;
            let ty = replace_above(alloc, ty, k, raise, list)?;
            let body = replace_above(alloc, body, k + 1, raise, list)?;
            Term::make(alloc, Node::LetIn(value, ty, body))
        }
        Node::App(function, argument) => {
            let function = replace_above(alloc, function, k, raise, list)?;
            let argument = replace_above(alloc, argument, k, raise, list)?;
            Term::make(alloc, Node::App(function, argument))
        }
        Node::Const(_) => t.share(),
        Node::Ind(_) => t.share(),
        Node::Construct(_, _) => t.share(),
        Node::Case(m) => {
            let m = m.get();
            let m = match_above(alloc, m, k, raise, list)?;
            Term::of_match(alloc, m)
        }
        Node::Fix(ds, i) => {
            let ds = defs_above(alloc, ds.as_slice(), k, raise, list)?;
            Term::make(alloc, Node::Fix(ds, *i))
        }
    }
}

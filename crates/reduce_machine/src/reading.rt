//! What a term under bindings is: read-back. It gives up where 2,048 nodes stand above a place, so that its calls nest no deeper than that.
ghost use Rattle.std.specs.Prelude.{◌≡◌, ◌<◌, ◌≤◌, ◌^◌, IfOk, IfErr, length, map};
ghost use Rattle.trees.specs.Tree.{terms_of};
ghost use Rattle.trees.specs.Substitution.{walk};
ghost use Rattle.trees.specs.Measures.{depth_limit, IsWithin, IsBeyond, AreBeyond};
ghost use Rattle.pc_terms.specs.Syntax.{overs, substitute};
ghost use Rattle.pc_terms.specs.Lists.{arms_of, AreBeyondDefs, walk_branch, walk_def, walk_match};
ghost use Rattle.pc_terms.specs.View.{tree_of};
ghost use Rattle.pc_terms.specs.declared.term.Node.TheVariants.{Case};
ghost use Rattle.pc_terms.specs.declared.term.MakeFault.TheVariants.{TooDeep, Memory};
ghost use Rattle.reduction.specs.Frames.{with_scrutinee};
ghost use Rattle.reduce_machine.specs.Limits.{IsBeyondUnder, AreBeyondUnder, AreDefsBeyondUnder};
ghost use Rattle.reduce_machine.specs.Memos.{IsMemo};
ghost use Rattle.reduce_machine.specs.Reads.{stands, stands_under, read};

use crate::bindings::{Bindings, Found, Lazy};
use crate::memo::Memo;
use pc_terms::term::{
    Branch, Branches, DEPTH_LIMIT, Def, Defs, MakeFault, Match, Node, Term, Terms,
};
use std::alloc::Global;

impl Lazy {
    /// The term that this is.
    #[tactic(auto, using(crate::proofs::Standing::walk_read, crate::proofs::Limited::limit_laws))]
    pub fn read(&self, alloc: Global) -> Result<Term, MakeFault>
        ensures ok { IfOk result (λ t. t ≡ read self.now) }
        ensures within { IfOk result IsWithin }
        ensures too_deep { IfErr result (λ e. e ≡ TooDeep → IsBeyond (read self.now)) }
    {
        read_above(&self.term, alloc, 0, 0, &self.env)
    }
}

/// What a part of a term under bindings is, below `k` variables of its own.
#[tactic(auto, using(crate::proofs::Limited::limit_laws))]
pub fn read_under(t: &Term, alloc: Global, k: u64, env: &Bindings) -> Result<Term, MakeFault>
    ensures ok { IfOk result (λ out. out ≡ walk (stands_under env.now.items) k t.now) }
    ensures within { IfOk result IsWithin }
    ensures too_deep { IfErr result (λ e. e ≡ TooDeep → IsBeyond (walk (stands_under env.now.items) k t.now)) }
{
    read_above(t, alloc, 0, k, env)
}

/// The parts of a match under bindings, but for the scrutinee, around another scrutinee.
#[tactic(auto, using(pc_terms::proofs::Parts::part_laws, crate::proofs::Limited::limit_laws, std::proofs::lemmas::Grind::common_steps))]
fn read_around_above(
    m: &Match,
    alloc: Global,
    env: &Bindings,
    scrut: Term,
) -> Result<Term, MakeFault>
    ensures ok { IfOk result (λ t. t ≡ with_scrutinee (walk (stands_under env.now.items) 0 (tree_of (Case m.now))) scrut) }
    ensures too_deep { IfErr result (λ e. e ≡ TooDeep → IsBeyond (with_scrutinee (walk (stands_under env.now.items) 0 (tree_of (Case m.now))) scrut)) }
{
    let params = read_terms(&m.params, alloc, 0, 0, env)?;
    let ret = read_above(&m.ret, alloc, 0, u64::from(m.binders), env)?;
    let branches = read_branches(&m.branches, alloc, 0, 0, env)?;
    let around = Match {
        family: m.family,
        params,
        binders: m.binders,
        ret,
        scrut,
        branches,
    };
    Term::of_match(alloc, around)
}

/// A match under bindings with another scrutinee.
#[tactic(auto, using(crate::proofs::Standing::walk_read))]
pub(crate) fn read_around(
    m: &Match,
    alloc: Global,
    env: &Bindings,
    scrut: Term,
) -> Result<Term, MakeFault>
    ensures ok { IfOk result (λ t. t ≡ with_scrutinee (substitute (stands env.now.items) (tree_of (Case m.now))) scrut) }
    ensures too_deep { IfErr result (λ e. e ≡ TooDeep → IsBeyond (with_scrutinee (substitute (stands env.now.items) (tree_of (Case m.now))) scrut)) }
{
    read_around_above(m, alloc, env, scrut)
}

/// Each term of a list under bindings, below `k` variables of its own, where `at` nodes stand above it.
#[cycle(reading)]
#[tactic(auto, using(pc_terms::proofs::Parts::part_laws, crate::proofs::Limited::limit_laws, std::proofs::lemmas::Grind::common_steps))]
fn read_terms(
    terms: &Terms,
    alloc: Global,
    at: u32,
    k: u64,
    env: &Bindings,
) -> Result<Terms, MakeFault>
    requires small { k < 2 ^ 32 }
    requires limit { at ≤ depth_limit }
    ensures ok { IfOk result (λ out. out ≡ map (walk (stands_under env.now.items) k) terms.now) }
    ensures too_deep { IfErr result (λ e. e ≡ TooDeep → AreBeyondUnder at (terms_of (map (walk (stands_under env.now.items) k) terms.now))) }
{
    let mut out = Terms::new(alloc);
    for t in terms.as_slice() {
        let t = read_above(t, alloc, at, k, env)?;
        out.push(t)?;
    }
    Ok(out)
}

/// Each branch of a list under bindings, below `k` variables of its own, where `at` nodes stand above it.
#[cycle(reading)]
#[tactic(auto, using(pc_terms::proofs::Parts::part_laws, crate::proofs::Limited::limit_laws, std::proofs::lemmas::Grind::common_steps))]
fn read_branches(
    branches: &Branches,
    alloc: Global,
    at: u32,
    k: u64,
    env: &Bindings,
) -> Result<Branches, MakeFault>
    requires small { k < 2 ^ 32 }
    requires limit { at ≤ depth_limit }
    ensures ok { IfOk result (λ out. out ≡ map (walk_branch (stands_under env.now.items) k) branches.now) }
    ensures too_deep { IfErr result (λ e. e ≡ TooDeep → AreBeyondUnder at (arms_of (map (walk_branch (stands_under env.now.items) k) branches.now))) }
{
    let mut out = Branches::new(alloc);
    for b in branches.as_slice() {
        let binders = b.binders;
        let body = read_above(&b.body, alloc, at, k + u64::from(binders), env)?;
        out.push(Branch { binders, body })?;
    }
    Ok(out)
}

/// Each definition of a list under bindings, below `k` variables of its own, where `at` nodes stand above it.
#[cycle(reading)]
#[tactic(auto, using(pc_terms::proofs::Parts::part_laws, crate::proofs::Limited::limit_laws, std::proofs::lemmas::Grind::common_steps))]
fn read_defs(defs: &Defs, alloc: Global, at: u32, k: u64, env: &Bindings) -> Result<Defs, MakeFault>
    requires small { k < 2 ^ 32 }
    requires limit { at ≤ depth_limit }
    ensures ok { IfOk result (λ out. out ≡ map (walk_def (stands_under env.now.items) k (length defs.now)) defs.now) }
    ensures too_deep { IfErr result (λ e. e ≡ TooDeep → AreDefsBeyondUnder at (map (walk_def (stands_under env.now.items) k (length defs.now)) defs.now)) }
{
    let items = defs.as_slice();
    let under = k + items.len() as u64;
    let mut out = Defs::new(alloc);
    for d in items {
        let rarg = d.rarg;
        let ty = read_above(&d.ty, alloc, at, k, env)?;
        let body = read_above(&d.body, alloc, at, under, env)?;
        out.push(Def { ty, body, rarg })?;
    }
    Ok(out)
}

/// A match under bindings, below `k` variables of its own, where `at` nodes stand above it.
#[cycle(reading)]
#[tactic(auto, using(pc_terms::proofs::Parts::part_laws, crate::proofs::Limited::limit_laws, std::proofs::lemmas::Grind::common_steps))]
fn read_match(m: &Match, alloc: Global, at: u32, k: u64, env: &Bindings) -> Result<Match, MakeFault>
    requires small { k < 2 ^ 32 }
    requires limit { at ≤ depth_limit }
    ensures ok { IfOk result (λ out. out ≡ walk_match (stands_under env.now.items) k m.now) }
    ensures too_deep { IfErr result (λ e. e ≡ TooDeep → IsBeyondUnder at (tree_of (Case (walk_match (stands_under env.now.items) k m.now)))) }
{
    if at == DEPTH_LIMIT {
        return Err(MakeFault::TooDeep);
    }
    let inner = at + 1;
    let params = read_terms(&m.params, alloc, inner, k, env)?;
    let ret = read_above(&m.ret, alloc, inner, k + u64::from(m.binders), env)?;
    let scrut = read_above(&m.scrut, alloc, inner, k, env)?;
    let branches = read_branches(&m.branches, alloc, inner, k, env)?;
    Ok(Match {
        family: m.family,
        params,
        binders: m.binders,
        ret,
        scrut,
        branches,
    })
}

/// What an item is, where `at` nodes stand above it: as it was read before, or else read now and kept in its place.
#[cycle(reading)]
#[tactic(auto, using(crate::proofs::Memos::memo_laws, crate::proofs::Limited::limit_laws))]
fn read_item(item: &Lazy, memo: &Option<Memo>, alloc: Global, at: u32) -> Result<Term, MakeFault>
    requires limit { at ≤ depth_limit }
    requires memo { IsMemo memo.now (read item.now) }
    ensures ok { IfOk result (λ t. t ≡ walk (stands_under item.now.env.items) 0 item.now.term) }
    ensures within { IfOk result IsWithin }
    ensures too_deep { IfErr result (λ e. e ≡ TooDeep → IsBeyondUnder at (walk (stands_under item.now.env.items) 0 item.now.term)) }
{
    let Some(memo) = memo else {
        return read_above(&item.term, alloc, at, 0, &item.env);
    };
    if let Some(term) = memo.term() {
        return term.share();
    }
    let term = read_above(&item.term, alloc, at, 0, &item.env)?;
    memo.keep(&term);
    Ok(term)
}

/// What a variable of number `i` stands for under `k` variables, where `at` nodes stand above it.
#[cycle(reading)]
#[tactic(auto, using(crate::proofs::Limited::limit_laws))]
fn read_variable(i: u32, alloc: Global, at: u32, k: u32, env: &Bindings) -> Result<Term, MakeFault>
    requires limit { at ≤ depth_limit }
    requires above { k ≤ i }
    ensures ok { IfOk result (λ t. t ≡ stands_under env.now.items k i) }
    ensures within { IfOk result IsWithin }
    ensures too_deep { IfErr result (λ e. e ≡ TooDeep → IsBeyondUnder at (stands_under env.now.items k i)) }
{
    match env.find(i - k) {
        Found::Item(item, memo) => {
            // It is within the limits, so that the calls in one another end.
            let _ = item.term.depth();
            let term = read_item(item, memo, alloc, at)?;
            term.lift(alloc, k, 0)
        }
        Found::Past(j) => Term::make(alloc, Node::Rel(k + j)),
    }
}

/// A term under bindings, below `k` variables of its own, where `at` nodes stand above it. Parts that are closed there are shared.
#[cycle(reading)]
#[tactic(auto, using(pc_terms::proofs::Parts::part_laws, crate::proofs::Standing::standing_laws, crate::proofs::Limited::limit_laws, std::proofs::lemmas::Grind::common_steps))]
pub(crate) fn read_above(
    t: &Term,
    alloc: Global,
    at: u32,
    k: u64,
    env: &Bindings,
) -> Result<Term, MakeFault>
    requires limit { at ≤ depth_limit }
    ensures ok { IfOk result (λ out. out ≡ walk (stands_under env.now.items) k t.now) }
    ensures within { IfOk result IsWithin }
    ensures too_deep { IfErr result (λ e. e ≡ TooDeep → IsBeyondUnder at (walk (stands_under env.now.items) k t.now)) }
{
    if t.loose() <= k {
        return t.share();
    }
    if env.is_empty() {
        return t.share();
    }
    if at == DEPTH_LIMIT {
        return Err(MakeFault::TooDeep);
    }
    let inner = at + 1;
    match t.view() {
        Node::Rel(i) => read_variable(*i, alloc, at, k as u32, env),
        Node::Sort(_) => t.share(),
        Node::Prod(domain, codomain) => {
            let domain = read_above(domain, alloc, inner, k, env)?;
            let codomain = read_above(codomain, alloc, inner, k + 1, env)?;
            Term::make(alloc, Node::Prod(domain, codomain))
        }
        Node::Lambda(domain, body) => {
            let domain = read_above(domain, alloc, inner, k, env)?;
            let body = read_above(body, alloc, inner, k + 1, env)?;
            Term::make(alloc, Node::Lambda(domain, body))
        }
        Node::LetIn(value, ty, body) => {
            let value = read_above(value, alloc, inner, k, env)?;
            let ty = read_above(ty, alloc, inner, k, env)?;
            let body = read_above(body, alloc, inner, k + 1, env)?;
            Term::make(alloc, Node::LetIn(value, ty, body))
        }
        Node::App(function, argument) => {
            let function = read_above(function, alloc, inner, k, env)?;
            let argument = read_above(argument, alloc, inner, k, env)?;
            Term::make(alloc, Node::App(function, argument))
        }
        Node::Const(_) => t.share(),
        Node::Ind(_) => t.share(),
        Node::Construct(_, _) => t.share(),
        Node::Case(m) => {
            let m = m.get();
            let m = read_match(m, alloc, at, k, env)?;
            Term::of_match(alloc, m)
        }
        Node::Fix(ds, i) => {
            let ds = read_defs(ds, alloc, inner, k, env)?;
            Term::make(alloc, Node::Fix(ds, *i))
        }
    }
}

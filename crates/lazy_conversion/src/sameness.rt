//! Whether two parts of terms under bindings are the same, without reading either.
//!
//! Both are walked side by side, through at most 2,048 nodes in one another, so that the calls nest no deeper than that. Where both are
//! plain, the terms are compared as they are; where a variable is bound, the walk goes on in what it is bound to. Two items that were found
//! to be the same are joined, and are known to be the same from then on, so that each pair of items is walked once, however often it is met.
ghost use Rattle.std.specs.Prelude.{◌≡◌, ◌<◌, ◌^◌, ◌&&◌, ◌≤◌, IsTrue, ◌↔◌, IfOk, IfErr, length, map};
ghost use Rattle.trees.specs.Measures.{depth_limit, IsBeyond};
ghost use Rattle.trees.specs.Tree.{terms_of};
ghost use Rattle.pc_terms.specs.Lists.{arms_of};
ghost use Rattle.pc_terms.specs.View.{tree_of};
ghost use Rattle.pc_terms.specs.declared.term.Node.TheVariants.{Case};
ghost use Rattle.pc_terms.specs.declared.term.MakeFault.TheVariants.{TooDeep};
ghost use Rattle.pc_terms.specs.Syntax.{Term};
ghost use Rattle.calculus_rules.specs.Same.{same};
ghost use Rattle.reduce_machine.specs.Memos.{IsMemo};
ghost use Rattle.reduce_machine.specs.Reads.{read};
ghost use Rattle.lazy_conversion.specs.Parts.{read_part, read_around};
ghost use Rattle.lazy_conversion.specs.Lifted.{lifted_under, item_seen, seen, seen_below, IsNear};
ghost use Rattle.lazy_conversion.specs.Walked.{node_seen, match_seen, match_around, branch_seen, def_seen};
ghost use Rattle.lazy_conversion.specs.Joined.{AreOne, MayBeOne};
ghost use Rattle.lazy_conversion.specs.Deep.{AreDeep, AreDeepLists, AreDeepDefs, AreDeepDef, AreDeepNodes};

use crate::part::Part;
use crate::places::{Meaning, Place, are_plain, is_variable};
use pc_terms::term::{
    Branch, Branches, DEPTH_LIMIT, Def, Defs, MakeFault, Match, Node, Term, Terms,
};
use reduce_machine::bindings::{Bindings, Lazy};
use reduce_machine::memo::Memo;

/// Whether two parts are the same term. `TooDeep` only where both are beyond the limits of terms.
pub fn same_parts(a: Part<'_>, b: Part<'_>) -> Result<bool, MakeFault>
    ensures ok { IfOk result (λ r. r ≡ same (read_part a.entry) (read_part b.entry)) }
    ensures too_deep { IfErr result (λ e. (e ≡ TooDeep) × (IsBeyond (read_part a.entry) × IsBeyond (read_part b.entry))) }
{
    let _ = a.env.rank();
    let _ = b.env.rank();
    let p = Place {
        under: a.under,
        lifted: 0,
        env: a.env,
    };
    let q = Place {
        under: b.under,
        lifted: 0,
        env: b.env,
    };
    same_at(a.term, &p, b.term, &q, 0)
}

/// Whether two matches under bindings are the same but for their scrutinees. `TooDeep` only where both are beyond the limits of terms.
pub(crate) fn same_around(
    x: &Match,
    xs: &Bindings,
    y: &Match,
    ys: &Bindings,
) -> Result<bool, MakeFault>
    ensures ok { IfOk result (λ r. (t u : Term) → same (read_around x.now xs.now.items t) (read_around y.now ys.now.items u) ≡ (r && same t u)) }
    ensures too_deep { IfErr result (λ e. (e ≡ TooDeep) × ((t u : Term) → IsBeyond (read_around x.now xs.now.items t) × IsBeyond (read_around y.now ys.now.items u))) }
{
    let _ = xs.rank();
    let _ = ys.rank();
    let p = Place {
        under: 0,
        lifted: 0,
        env: xs,
    };
    let q = Place {
        under: 0,
        lifted: 0,
        env: ys,
    };
    same_matches(x, &p, y, &q, 1)
}

/// Whether the terms of two lists are the same, one by one, where `at` nodes stand above them.
#[cycle(sameness)]
#[tactic(auto, using(std::proofs::lemmas::Grind::common_steps))]
fn same_lists(
    a: &Terms,
    p: &Place<'_>,
    b: &Terms,
    q: &Place<'_>,
    at: u32,
) -> Result<bool, MakeFault>
    requires limit { at ≤ depth_limit }
    requires left { IsNear p.now.lifted p.now.env.now.rank }
    requires right { IsNear q.now.lifted q.now.env.now.rank }
    ensures ok { IfOk result (λ r. IsTrue r ↔ (map (seen p.now) a.now ≡ map (seen q.now) b.now)) }
    ensures too_deep { IfErr result (λ e. (e ≡ TooDeep) × AreDeepLists at (terms_of (map (seen p.now) a.now)) (terms_of (map (seen q.now) b.now))) }
{
    let xs = a.as_slice();
    let ys = b.as_slice();
    let n = xs.len();
    if n != ys.len() {
        return Ok(false);
    }
    for i in 0..n {
        let one = same_at(&xs[i], p, &ys[i], q, at)?;
        if !one {
            return Ok(false);
        }
    }
    Ok(true)
}

/// Whether the branches of two lists are the same, one by one, where `at` nodes stand above them.
#[cycle(sameness)]
#[tactic(auto, using(std::proofs::lemmas::Grind::common_steps))]
fn same_branches(
    a: &Branches,
    p: &Place<'_>,
    b: &Branches,
    q: &Place<'_>,
    at: u32,
) -> Result<bool, MakeFault>
    requires limit { at ≤ depth_limit }
    requires left { IsNear p.now.lifted p.now.env.now.rank }
    requires right { IsNear q.now.lifted q.now.env.now.rank }
    ensures ok { IfOk result (λ r. IsTrue r ↔ (map (branch_seen p.now) a.now ≡ map (branch_seen q.now) b.now)) }
    ensures too_deep { IfErr result (λ e. (e ≡ TooDeep) × AreDeepLists at (arms_of (map (branch_seen p.now) a.now)) (arms_of (map (branch_seen q.now) b.now))) }
{
    let xs = a.as_slice();
    let ys = b.as_slice();
    let n = xs.len();
    if n != ys.len() {
        return Ok(false);
    }
    for i in 0..n {
        let one = same_branch(&xs[i], p, &ys[i], q, at)?;
        if !one {
            return Ok(false);
        }
    }
    Ok(true)
}

/// Whether two branches are the same, where `at` nodes stand above them.
#[cycle(sameness)]
#[tactic(auto, using(std::proofs::lemmas::Grind::common_steps))]
fn same_branch(
    a: &Branch,
    p: &Place<'_>,
    b: &Branch,
    q: &Place<'_>,
    at: u32,
) -> Result<bool, MakeFault>
    requires limit { at ≤ depth_limit }
    requires left { IsNear p.now.lifted p.now.env.now.rank }
    requires right { IsNear q.now.lifted q.now.env.now.rank }
    ensures ok { IfOk result (λ r. IsTrue r ↔ (branch_seen p.now a.now ≡ branch_seen q.now b.now)) }
    ensures too_deep { IfErr result (λ e. (e ≡ TooDeep) × AreDeep at (branch_seen p.now a.now).body (branch_seen q.now b.now).body) }
{
    if a.binders != b.binders {
        return Ok(false);
    }
    same_below(&a.body, p, &b.body, q, u64::from(a.binders), at)
}

/// Whether the definitions of two lists are the same, one by one, where `at` nodes stand above them.
#[cycle(sameness)]
#[tactic(auto, using(std::proofs::lemmas::Grind::common_steps))]
fn same_defs(a: &Defs, p: &Place<'_>, b: &Defs, q: &Place<'_>, at: u32) -> Result<bool, MakeFault>
    requires limit { at ≤ depth_limit }
    requires left { IsNear p.now.lifted p.now.env.now.rank }
    requires right { IsNear q.now.lifted q.now.env.now.rank }
    ensures ok { IfOk result (λ r. IsTrue r ↔ (map (def_seen p.now (length a.now)) a.now ≡ map (def_seen q.now (length b.now)) b.now)) }
    ensures too_deep { IfErr result (λ e. (e ≡ TooDeep) × AreDeepDefs at (map (def_seen p.now (length a.now)) a.now) (map (def_seen q.now (length b.now)) b.now)) }
{
    let xs = a.as_slice();
    let ys = b.as_slice();
    let n = xs.len();
    if n != ys.len() {
        return Ok(false);
    }
    for i in 0..n {
        let one = same_def(&xs[i], p, &ys[i], q, n as u64, at)?;
        if !one {
            return Ok(false);
        }
    }
    Ok(true)
}

/// Whether two definitions, of n each, are the same, where `at` nodes stand above them.
#[cycle(sameness)]
#[tactic(auto, using(std::proofs::lemmas::Grind::common_steps))]
fn same_def(
    a: &Def,
    p: &Place<'_>,
    b: &Def,
    q: &Place<'_>,
    n: u64,
    at: u32,
) -> Result<bool, MakeFault>
    requires small { n < 2 ^ 63 }
    requires limit { at ≤ depth_limit }
    requires left { IsNear p.now.lifted p.now.env.now.rank }
    requires right { IsNear q.now.lifted q.now.env.now.rank }
    ensures ok { IfOk result (λ r. IsTrue r ↔ (def_seen p.now n a.now ≡ def_seen q.now n b.now)) }
    ensures too_deep { IfErr result (λ e. (e ≡ TooDeep) × AreDeepDef at (def_seen p.now n a.now) (def_seen q.now n b.now)) }
{
    if a.rarg != b.rarg {
        return Ok(false);
    }
    if !same_at(&a.ty, p, &b.ty, q, at)? {
        return Ok(false);
    }
    same_below(&a.body, p, &b.body, q, n, at)
}

/// Whether two matches are the same but for their scrutinees, where `at` nodes stand above their parts.
#[cycle(sameness)]
#[tactic(auto, using(std::proofs::lemmas::Grind::common_steps))]
fn same_matches(
    a: &Match,
    p: &Place<'_>,
    b: &Match,
    q: &Place<'_>,
    at: u32,
) -> Result<bool, MakeFault>
    requires limit { at ≤ depth_limit }
    requires left { IsNear p.now.lifted p.now.env.now.rank }
    requires right { IsNear q.now.lifted q.now.env.now.rank }
    ensures ok { IfOk result (λ r. IsTrue r ↔ (match_around p.now a.now ≡ match_around q.now b.now)) }
    ensures too_deep { IfErr result (λ e. (e ≡ TooDeep) × AreDeepNodes at (tree_of (Case (match_around p.now a.now))) (tree_of (Case (match_around q.now b.now)))) }
{
    if a.family != b.family || a.binders != b.binders {
        return Ok(false);
    }
    if !same_lists(&a.params, p, &b.params, q, at)? {
        return Ok(false);
    }
    if !same_below(&a.ret, p, &b.ret, q, u64::from(a.binders), at)? {
        return Ok(false);
    }
    same_branches(&a.branches, p, &b.branches, q, at)
}

/// Whether two matches are the same, where `at` nodes stand above their parts.
#[cycle(sameness)]
#[tactic(auto, using(crate::proofs::Deepening::around_deep, std::proofs::lemmas::Grind::common_steps))]
fn same_whole(
    a: &Match,
    p: &Place<'_>,
    b: &Match,
    q: &Place<'_>,
    at: u32,
) -> Result<bool, MakeFault>
    requires limit { at ≤ depth_limit }
    requires left { IsNear p.now.lifted p.now.env.now.rank }
    requires right { IsNear q.now.lifted q.now.env.now.rank }
    ensures ok { IfOk result (λ r. IsTrue r ↔ (match_seen p.now a.now ≡ match_seen q.now b.now)) }
    ensures too_deep { IfErr result (λ e. (e ≡ TooDeep) × AreDeepNodes at (tree_of (Case (match_seen p.now a.now))) (tree_of (Case (match_seen q.now b.now)))) }
{
    let around = same_matches(a, p, b, q, at)?;
    if !around {
        return Ok(false);
    }
    same_at(&a.scrut, p, &b.scrut, q, at)
}

/// Whether two nodes, of which none is a variable, are the same, where `at` nodes stand above their parts.
#[cycle(sameness)]
#[tactic(auto, using(std::proofs::lemmas::Grind::common_steps))]
fn same_nodes(x: &Node, p: &Place<'_>, y: &Node, q: &Place<'_>, at: u32) -> Result<bool, MakeFault>
    requires limit { at ≤ depth_limit }
    requires left { IsNear p.now.lifted p.now.env.now.rank }
    requires right { IsNear q.now.lifted q.now.env.now.rank }
    ensures ok { IfOk result (λ r. IsTrue r ↔ (node_seen p.now x.now ≡ node_seen q.now y.now)) }
    ensures too_deep { IfErr result (λ e. (e ≡ TooDeep) × AreDeepNodes at (tree_of (node_seen p.now x.now)) (tree_of (node_seen q.now y.now))) }
{
    match (x, y) {
        (Node::Rel(i), Node::Rel(j)) => Ok(*i == *j),
        (Node::Sort(s), Node::Sort(t)) => Ok(s.same(t)),
        (Node::Prod(a, b), Node::Prod(c, d)) => {
            if !same_at(a, p, c, q, at)? {
                return Ok(false);
            }
            same_below(b, p, d, q, 1, at)
        }
        (Node::Lambda(a, b), Node::Lambda(c, d)) => {
            if !same_at(a, p, c, q, at)? {
                return Ok(false);
            }
            same_below(b, p, d, q, 1, at)
        }
        (Node::LetIn(u, a, b), Node::LetIn(v, c, d)) => {
            if !same_at(u, p, v, q, at)? {
                return Ok(false);
            }
            if !same_at(a, p, c, q, at)? {
                return Ok(false);
            }
            same_below(b, p, d, q, 1, at)
        }
        (Node::App(f, a), Node::App(g, b)) => {
            if !same_at(f, p, g, q, at)? {
                return Ok(false);
            }
            same_at(a, p, b, q, at)
        }
        (Node::Const(c), Node::Const(d)) => Ok(*c == *d),
        (Node::Ind(f), Node::Ind(g)) => Ok(*f == *g),
        (Node::Construct(f, c), Node::Construct(g, d)) => Ok(*f == *g && *c == *d),
        (Node::Case(m), Node::Case(n)) => same_whole(m.get(), p, n.get(), q, at),
        (Node::Fix(ds, i), Node::Fix(es, j)) => {
            if *i != *j {
                return Ok(false);
            }
            same_defs(ds, p, es, q, at)
        }
        _ => Ok(false),
    }
}

/// Whether two terms are the same where each stands below n variables more, and `at` nodes stand above them.
#[cycle(sameness)]
#[tactic(auto, using(std::proofs::lemmas::Grind::common_steps))]
fn same_below(
    a: &Term,
    p: &Place<'_>,
    b: &Term,
    q: &Place<'_>,
    n: u64,
    at: u32,
) -> Result<bool, MakeFault>
    requires small { n < 2 ^ 63 }
    requires limit { at ≤ depth_limit }
    requires left { IsNear p.now.lifted p.now.env.now.rank }
    requires right { IsNear q.now.lifted q.now.env.now.rank }
    ensures ok { IfOk result (λ r. IsTrue r ↔ (seen_below p.now n a.now ≡ seen_below q.now n b.now)) }
    ensures too_deep { IfErr result (λ e. (e ≡ TooDeep) × AreDeep at (seen_below p.now n a.now) (seen_below q.now n b.now)) }
{
    let left = p.below(a, n);
    let right = q.below(b, n);
    same_at(a, &left, b, &right, at)
}

/// Whether two items are the same, or are known to be, where `at` nodes stand above them.
#[cycle(sameness)]
#[tactic(auto, using(std::proofs::lemmas::Grind::common_steps))]
fn same_items(
    item: &Lazy,
    memo: &Option<Memo>,
    lifted: u64,
    other: &Lazy,
    other_memo: &Option<Memo>,
    other_lifted: u64,
    at: u32,
) -> Result<bool, MakeFault>
    requires limit { at ≤ depth_limit }
    requires left { IsNear lifted item.now.env.rank }
    requires right { IsNear other_lifted other.now.env.rank }
    requires left_memo { IsMemo memo.now (read item.now) }
    requires right_memo { IsMemo other_memo.now (read other.now) }
    ensures ok { IfOk result (λ r. IsTrue r ↔ (item_seen lifted item.now ≡ item_seen other_lifted other.now)) }
    ensures too_deep { IfErr result (λ e. (e ≡ TooDeep) × AreDeep at (item_seen lifted item.now) (item_seen other_lifted other.now)) }
{
    let alike = lifted == other_lifted;
    if alike && are_joined(memo, other_memo) {
        return Ok(true);
    }
    let p = Place {
        under: 0,
        lifted,
        env: &item.env,
    };
    let q = Place {
        under: 0,
        lifted: other_lifted,
        env: &other.env,
    };
    let one = same_at(&item.term, &p, &other.term, &q, at)?;
    if !one {
        return Ok(false);
    }
    if alike {
        join(memo, other_memo);
    }
    Ok(true)
}

/// Whether an item is the same as a term, where `at` nodes stand above them.
#[cycle(sameness)]
#[tactic(auto, using(std::proofs::lemmas::Grind::common_steps))]
fn same_item(
    item: &Lazy,
    memo: &Option<Memo>,
    lifted: u64,
    b: &Term,
    q: &Place<'_>,
    at: u32,
) -> Result<bool, MakeFault>
    requires limit { at ≤ depth_limit }
    requires left { IsNear lifted item.now.env.rank }
    requires right { IsNear q.now.lifted q.now.env.now.rank }
    requires memo { IsMemo memo.now (read item.now) }
    ensures ok { IfOk result (λ r. IsTrue r ↔ (item_seen lifted item.now ≡ seen q.now b.now)) }
    ensures too_deep { IfErr result (λ e. (e ≡ TooDeep) × AreDeep at (item_seen lifted item.now) (seen q.now b.now)) }
{
    let p = Place {
        under: 0,
        lifted,
        env: &item.env,
    };
    let Node::Rel(j) = b.view() else {
        return same_at(&item.term, &p, b, q, at);
    };
    match q.meaning(*j) {
        Meaning::Variable(n) => Ok(is_variable(n, &item.term, &p)),
        Meaning::Item(other, other_memo, other_lifted) => {
            let _ = other.term.depth();
            same_items(item, memo, lifted, other, other_memo, other_lifted, at)
        }
    }
}

/// Whether a variable of number i is the same as a term, where `at` nodes stand above them.
#[cycle(sameness)]
#[tactic(auto, using(std::proofs::lemmas::Grind::common_steps))]
fn same_variable(i: u32, p: &Place<'_>, b: &Term, q: &Place<'_>, at: u32) -> Result<bool, MakeFault>
    requires limit { at ≤ depth_limit }
    requires left { IsNear p.now.lifted p.now.env.now.rank }
    requires right { IsNear q.now.lifted q.now.env.now.rank }
    ensures ok { IfOk result (λ r. IsTrue r ↔ (lifted_under p.now.lifted p.now.env.now.items p.now.under i ≡ seen q.now b.now)) }
    ensures too_deep { IfErr result (λ e. (e ≡ TooDeep) × AreDeep at (lifted_under p.now.lifted p.now.env.now.items p.now.under i) (seen q.now b.now)) }
{
    match p.meaning(i) {
        Meaning::Variable(n) => Ok(is_variable(n, b, q)),
        Meaning::Item(item, memo, lifted) => {
            // It is within the limits, so that the calls in one another end.
            let _ = item.term.depth();
            same_item(item, memo, lifted, b, q, at)
        }
    }
}

/// Whether two terms are the same, each at its place, where `at` nodes stand above them.
#[cycle(sameness)]
#[tactic(auto, using(std::proofs::lemmas::Grind::common_steps))]
fn same_at(a: &Term, p: &Place<'_>, b: &Term, q: &Place<'_>, at: u32) -> Result<bool, MakeFault>
    requires limit { at ≤ depth_limit }
    requires left { IsNear p.now.lifted p.now.env.now.rank }
    requires right { IsNear q.now.lifted q.now.env.now.rank }
    ensures ok { IfOk result (λ r. IsTrue r ↔ (seen p.now a.now ≡ seen q.now b.now)) }
    ensures too_deep { IfErr result (λ e. (e ≡ TooDeep) × AreDeep at (seen p.now a.now) (seen q.now b.now)) }
{
    if are_plain(a, p, b, q) {
        return Ok(are_one_tree(a, b));
    }
    let x = a.view();
    let y = b.view();
    if let Node::Rel(i) = x {
        return same_variable(*i, p, b, q, at);
    }
    if let Node::Rel(j) = y {
        return same_variable(*j, q, a, p, at);
    }
    if at == DEPTH_LIMIT {
        return Err(MakeFault::TooDeep);
    }
    same_nodes(x, p, y, q, at + 1)
}

/// Whether two terms are one tree. It takes no walk where their depths differ.
fn are_one_tree(a: &Term, b: &Term) -> bool
    ensures is { IsTrue result ↔ (a.now ≡ b.now) }
{
    a.depth() == b.depth() && a.same(b)
}

/// Whether two items are known to be the same, by their places.
fn are_joined(a: &Option<Memo>, b: &Option<Memo>) -> bool
    ensures joined { IsTrue result → AreOne a.now b.now }
{
    match (a, b) {
        (Some(a), Some(b)) => a.same(b),
        _ => false,
    }
}

/// Notes at the places of two items that they are the same.
fn join(a: &Option<Memo>, b: &Option<Memo>)
    requires one { MayBeOne a.now b.now }
{
    if let (Some(a), Some(b)) = (a, b) {
        a.join(b);
    }
}

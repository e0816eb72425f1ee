//! Whether a term is another one with arguments put in, which is not made for that.
ghost use Rattle.std.specs.Prelude.{◌≡◌, ◌≤◌, ◌^◌, IsTrue};
ghost use Rattle.pc_terms.specs.Syntax.{Rel, subst_list};
ghost use Rattle.trees.specs.Substitution.{lift, subst_list_var};

use pc_terms::term::{Node, Term};

/// Whether a term is seen to be an argument lifted by `k`: where that is none, or the argument is closed.
#[tactic(auto, using(trees::proofs::Closed::closed_laws))]
fn lifted_stands(argument: &Term, k: u64, found: &Term) -> bool
    ensures is { IsTrue result → found.now ≡ lift k 0 argument.now }
{
    if k == 0 {
        return argument.same(found);
    }
    argument.loose() == 0 && argument.same(found)
}

/// Whether a term is seen to be what variable `i`, of at least `k`, stands for under `k` variables: an argument that is lifted by none or closed, or a
/// variable that is lowered.
#[tactic(auto, using(std::proofs::lemmas::Grind::common_steps))]
fn variable_stands(arguments: &[Term], k: u64, i: u32, found: &Term) -> bool
    requires { k ≤ i }
    ensures is { IsTrue result → found.now ≡ subst_list_var arguments.now k i }
{
    let count = arguments.len() as u64;
    let place = u64::from(i) - k;
    if place < count {
        return lifted_stands(&arguments[(count - 1 - place) as usize], k, found);
    }
    match found.view() {
        Node::Rel(j) => u64::from(*j) + count == u64::from(i),
        _ => false,
    }
}

/// Whether a term is seen to be `t` with the arguments, lifted by `k`, in the place of its variables from `k` on, the last in that of variable `k`. Takes no memory.
#[cycle(stands)]
#[tactic(auto, using(trees::proofs::Closed::closed_laws, std::proofs::lemmas::Grind::common_steps))]
pub(crate) fn stands(arguments: &[Term], k: u64, t: &Term, found: &Term) -> bool
    ensures is { IsTrue result → found.now ≡ subst_list k arguments.now t.now }
{
    if t.loose() <= k {
        return t.same(found);
    }
    match t.view() {
        Node::Rel(i) => variable_stands(arguments, k, *i, found),
        Node::App(f, a) => match found.view() {
            Node::App(g, b) => stands(arguments, k, f, g) && stands(arguments, k, a, b),
            _ => false,
        },
        Node::Prod(a, b) => match found.view() {
            Node::Prod(c, d) => stands(arguments, k, a, c) && stands(arguments, k + 1, b, d),
            _ => false,
        },
        Node::Lambda(a, b) => match found.view() {
            Node::Lambda(c, d) => stands(arguments, k, a, c) && stands(arguments, k + 1, b, d),
            _ => false,
        },
        _ => false,
    }
}

/// Whether a term is seen to be `found` with its variables from `k` on lifted by `n`. Takes no memory.
#[cycle(lifts)]
#[tactic(auto, using(trees::proofs::Closed::closed_laws, std::proofs::lemmas::Grind::common_steps))]
fn lifts(t: &Term, k: u64, n: u64, found: &Term) -> bool
    requires small { n ≤ 2 ^ 32 }
    ensures is { IsTrue result → t.now ≡ lift n k found.now }
{
    if found.loose() <= k {
        return t.same(found);
    }
    match found.view() {
        Node::Rel(i) => match t.view() {
            Node::Rel(j) => u64::from(*j) == u64::from(*i) + n,
            _ => false,
        },
        Node::App(f, a) => match t.view() {
            Node::App(g, b) => lifts(g, k, n, f) && lifts(b, k, n, a),
            _ => false,
        },
        Node::Prod(a, b) => match t.view() {
            Node::Prod(c, d) => lifts(c, k, n, a) && lifts(d, k + 1, n, b),
            _ => false,
        },
        Node::Lambda(a, b) => match t.view() {
            Node::Lambda(c, d) => lifts(c, k, n, a) && lifts(d, k + 1, n, b),
            _ => false,
        },
        _ => false,
    }
}

/// Whether a term is seen to be what variable `i`, of at least `k`, stands for under `k` variables, where both are variables: `m`, of at least `k`, lifted by `n`.
#[tactic(auto, using(std::proofs::lemmas::Grind::common_steps))]
fn variables_meet(arguments: &[Term], k: u64, i: u32, n: u64, m: u32) -> bool
    requires least { (k ≤ i) × (k ≤ m) }
    requires small { n ≤ 2 ^ 32 }
    ensures is { IsTrue result → lift n k (Rel m) ≡ subst_list_var arguments.now k i }
{
    let count = arguments.len() as u64;
    let place = u64::from(i) - k;
    let lifted = u64::from(m) + n;
    if place < count {
        return match arguments[(count - 1 - place) as usize].view() {
            Node::Rel(j) => u64::from(*j) + k == lifted,
            _ => false,
        };
    }
    u64::from(i) == lifted + count
}

/// Whether a term lifted by `n` above `k` is seen to be `t` with the arguments, lifted by `k`, in the place of its variables from `k` on, the last in that
/// of variable `k`. Takes no memory.
#[cycle(stands_lifted)]
#[tactic(auto, using(trees::proofs::Closed::closed_laws, std::proofs::lemmas::Grind::common_steps))]
pub(crate) fn stands_lifted(arguments: &[Term], k: u64, t: &Term, n: u64, found: &Term) -> bool
    requires small { n ≤ 2 ^ 32 }
    ensures is { IsTrue result → lift n k found.now ≡ subst_list k arguments.now t.now }
{
    if found.loose() <= k {
        return stands(arguments, k, t, found);
    }
    if t.loose() <= k {
        return false;
    }
    match t.view() {
        Node::Rel(i) => match found.view() {
            Node::Rel(m) => variables_meet(arguments, k, *i, n, *m),
            _ => k == 0 && argument_lifts(arguments, *i, n, found),
        },
        Node::App(f, a) => match found.view() {
            Node::App(g, b) => stands_lifted(arguments, k, f, n, g)
                && stands_lifted(arguments, k, a, n, b),
            _ => false,
        },
        Node::Prod(a, b) => match found.view() {
            Node::Prod(c, d) => stands_lifted(arguments, k, a, n, c)
                && stands_lifted(arguments, k + 1, b, n, d),
            _ => false,
        },
        Node::Lambda(a, b) => match found.view() {
            Node::Lambda(c, d) => stands_lifted(arguments, k, a, n, c)
                && stands_lifted(arguments, k + 1, b, n, d),
            _ => false,
        },
        _ => false,
    }
}

/// Whether a term lifted by `n` is seen to be an argument.
fn is_lifted(argument: &Term, n: u64, found: &Term) -> bool
    requires small { n ≤ 2 ^ 32 }
    ensures is { IsTrue result → lift n 0 found.now ≡ lift 0 0 argument.now }
{
    lifts(argument, 0, n, found)
}

/// Whether a term lifted by `n` is seen to be the argument that variable `i` stands for.
#[tactic(auto, using(std::proofs::lemmas::Grind::common_steps))]
fn argument_lifts(arguments: &[Term], i: u32, n: u64, found: &Term) -> bool
    requires small { n ≤ 2 ^ 32 }
    ensures is { IsTrue result → lift n 0 found.now ≡ subst_list_var arguments.now 0 i }
{
    let count = arguments.len() as u64;
    let place = u64::from(i);
    if place >= count {
        return false;
    }
    is_lifted(&arguments[(count - 1 - place) as usize], n, found)
}

//! Heads of one kind, with the same numbers.
ghost use Rattle.std.specs.Prelude.{◌≡◌, ◌==◌, ◌&&◌, length};
ghost use Rattle.pc_terms.specs.Formed.{binders_of};
ghost use Rattle.pc_terms.specs.Lists.{arms_of, rargs_of};
ghost use Rattle.calculus_rules.specs.Same.{same_families, same_numbers};
ghost use Rattle.pc_rules.specs.DirectedComparison.{alike};

use pc_terms::leaf::FamilyId;
use pc_terms::term::{Branch, Def, Match, Node, Term, Terms};

/// Whether two numbers of families are the same.
fn same_families(f: FamilyId, g: FamilyId) -> bool
    ensures is { result ≡ same_families f g }
{
    f.block.0 == g.block.0 && f.family == g.family
}

/// Whether there are as many branches, each under as many variables.
fn same_binders(xs: &[Branch], ys: &[Branch]) -> bool
    ensures is { result ≡ same_numbers (binders_of (arms_of xs.now)) (binders_of (arms_of ys.now)) }
{
    if xs.len() != ys.len() {
        return false;
    }
    for i in 0..xs.len() {
        if xs[i].binders != ys[i].binders {
            return false;
        }
    }
    true
}

/// Whether there are as many definitions, each with the same recursive argument.
fn same_recursive_arguments(ds: &[Def], es: &[Def]) -> bool
    ensures is { result ≡ same_numbers (rargs_of ds.now) (rargs_of es.now) }
{
    if ds.len() != es.len() {
        return false;
    }
    for i in 0..ds.len() {
        if ds[i].rarg != es[i].rarg {
            return false;
        }
    }
    true
}

/// Whether two matches are on the same family, with as many parameters, variables of the predicate, branches and variables of each branch.
fn same_counts(x: &Match, y: &Match) -> bool
    ensures is { result
        ≡ (same_families x.now.family y.now.family && ((length x.now.params == length y.now.params) && ((x.now.binders == y.now.binders) && same_numbers (binders_of (arms_of x.now.branches)) (binders_of (arms_of y.now.branches))))) }
{
    same_families(x.family, y.family)
        && x.params.len() == y.params.len()
        && x.binders == y.binders
        && same_binders(x.branches.as_slice(), y.branches.as_slice())
}

/// Whether two heads are of one kind: the same variable, constant, family or constructor; matches on the same family with the same
/// counts; or fixpoints of the same index with the same recursive arguments. Takes no memory.
pub fn alike(a: &Term, b: &Term) -> bool
    ensures is { result ≡ alike a.now b.now }
{
    match (a.view(), b.view()) {
        (Node::Rel(i), Node::Rel(j)) => *i == *j,
        (Node::Const(k), Node::Const(l)) => k.0 == l.0,
        (Node::Ind(f), Node::Ind(g)) => same_families(*f, *g),
        (Node::Construct(f, c), Node::Construct(g, d)) => same_families(*f, *g) && *c == *d,
        (Node::Case(x), Node::Case(y)) => same_counts(x.get(), y.get()),
        (Node::Fix(ds, i), Node::Fix(es, j)) => {
            *i == *j && same_recursive_arguments(ds.as_slice(), es.as_slice())
        }
        _ => false,
    }
}

/// Whether two spines have as many arguments, and heads of one kind. Takes no memory.
pub fn fit(f: &Term, xs: &Terms, g: &Term, ys: &Terms) -> bool
    ensures is { result ≡ ((length xs.now == length ys.now) && alike f.now g.now) }
{
    xs.len() == ys.len() && alike(f, g)
}

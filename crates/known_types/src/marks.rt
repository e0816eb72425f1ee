//! Numbers by which a table finds terms. They say nothing: what is found is compared.
use calculus_rules::entry::Entry;
use pc_rules::context::Ctx;
use pc_terms::leaf::{FamilyId, Name};
use pc_terms::term::{Node, Term};

/// So many nodes of a term are looked at, one below the other.
const LOOKED_AT: u32 = 8;

/// So many nodes further down the main parts a leaf is looked for.
const FURTHER: u32 = 24;

/// A mark with one more number.
pub(crate) fn mixed(mark: u64, item: u64) -> u64 {
    let turned = mark.wrapping_mul(0x9E37_79B9_7F4A_7C15) ^ item;
    turned ^ (turned >> 29)
}

/// The mark of a name.
fn name_mark(kind: u64, name: Name) -> u64 {
    mixed(kind, u64::from(name.0))
}

/// The mark of a family.
fn family_mark(kind: u64, id: FamilyId) -> u64 {
    mixed(name_mark(kind, id.block), u64::from(id.family))
}

/// The mark of a node's former and of the numbers that stand in it.
fn former_mark(node: &Node) -> u64 {
    match node {
        Node::Rel(i) => mixed(1, u64::from(*i)),
        Node::Sort(_) => 2,
        Node::Prod(_, _) => 3,
        Node::Lambda(_, _) => 4,
        Node::LetIn(_, _, _) => 5,
        Node::App(_, _) => 6,
        Node::Const(k) => name_mark(7, *k),
        Node::Ind(f) => family_mark(8, *f),
        Node::Construct(f, c) => mixed(family_mark(9, *f), u64::from(*c)),
        Node::Case(x) => family_mark(10, x.get().family),
        Node::Fix(_, i) => mixed(11, u64::from(*i)),
    }
}

/// The mark of a term by its former, its depth and its loose bound.
fn top_mark(t: &Term) -> u64 {
    let own = former_mark(t.view());
    mixed(mixed(own, u64::from(t.depth())), t.loose())
}

/// The part of a node that is looked at next, and one beside it.
fn parts(node: &Node) -> Option<(&Term, &Term)> {
    match node {
        Node::Prod(a, b) => Some((b, a)),
        Node::Lambda(a, b) => Some((b, a)),
        Node::LetIn(v, _, b) => Some((b, v)),
        Node::App(f, a) => {
            if a.depth() < f.depth() {
                return Some((f, a));
            }
            Some((a, f))
        }
        Node::Case(x) => Some((&x.get().scrut, &x.get().ret)),
        Node::Fix(ds, _) => {
            let first = ds.as_slice().first()?;
            Some((&first.body, &first.ty))
        }
        _ => None,
    }
}

/// The leaf at the end of the main parts of a term, or what stands there so many nodes down.
fn last(t: &Term) -> &Term {
    let mut next = t;
    for _ in 0..FURTHER {
        match parts(next.view()) {
            Some((main, _)) => next = main,
            None => return next,
        }
    }
    next
}

/// The mark of a term, of its first nodes along the main parts and of a last one further down. It takes no walk to the end: each rule of an inference asks for one.
pub(crate) fn term_mark(t: &Term) -> u64 {
    let mut mark = top_mark(t);
    let mut next = t;
    for _ in 0..LOOKED_AT {
        let Some((main, side)) = parts(next.view()) else {
            return mark;
        };
        mark = mixed(mixed(mark, top_mark(main)), top_mark(side));
        next = main;
    }
    mixed(mark, top_mark(last(next)))
}

/// The mark of the innermost entry of a context, by its type.
pub(crate) fn entry_mark(ctx: &Ctx) -> u64 {
    match ctx.entry(0) {
        Some(Entry::Assumed(ty)) => term_mark(ty),
        Some(Entry::Defined { value, ty }) => mixed(term_mark(value), top_mark(ty)),
        None => 0,
    }
}

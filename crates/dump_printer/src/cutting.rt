//! The depth at which a long term is cut.
ghost use Rattle.std.specs.Prelude.{◌≡◌, ◌≤◌, ◌+◌, min, length};
ghost use Rattle.trees.specs.Tree.{terms_of};
ghost use Rattle.pc_terms.specs.View.{tree_of};
ghost use Rattle.pc_terms.specs.Lists.{arms_of, types_of, bodies_of};
ghost use Rattle.dump_printer.specs.Cut.{cut_depth, nodes_within, sum_below, sum_of_terms};

use pc_terms::term::{Branch, Def, Node, Term};

/// The most nodes of a term that are shown.
const MOST_SHOWN: u32 = 200;

/// A count of nodes with those of a term that stand less deep, up to one past the most that are shown.
#[cycle(count)]
fn count(t: &Term, room: u32, nodes: u32) -> u32
    requires few { nodes ≤ 201 }
    ensures is { result ≡ min 201 (nodes + nodes_within room t.now) }
{
    if room == 0 {
        return nodes;
    }
    if nodes > MOST_SHOWN {
        return nodes;
    }
    count_node(t.view(), room - 1, nodes + 1)
}

/// So with the nodes below a node.
#[cycle(count)]
#[tactic(auto, unfolding(crate::specs::Cut::sum_of_places))]
fn count_node(node: &Node, room: u32, nodes: u32) -> u32
    requires few { nodes ≤ 201 }
    ensures is { result ≡ min 201 (nodes + sum_below (nodes_within room) (tree_of node.now)) }
{
    match node {
        Node::Rel(_) | Node::Sort(_) | Node::Const(_) | Node::Ind(_) | Node::Construct(_, _) =>
            nodes,
        Node::Prod(a, b) => count(b, room, count(a, room, nodes)),
        Node::Lambda(a, b) => count(b, room, count(a, room, nodes)),
        Node::App(a, b) => count(b, room, count(a, room, nodes)),
        Node::LetIn(a, b, c) => count(c, room, count(b, room, count(a, room, nodes))),
        Node::Case(m) => {
            let m = m.get();
            let nodes = count_terms(m.params.as_slice(), room, nodes);
            let nodes = count(&m.scrut, room, count(&m.ret, room, nodes));
            count_branches(m.branches.as_slice(), room, nodes)
        }
        Node::Fix(defs, _) => count_definitions(defs.as_slice(), room, nodes),
    }
}

/// So with the nodes of some terms.
#[cycle(count)]
fn count_terms(ts: &[Term], room: u32, mut nodes: u32) -> u32
    requires few { nodes ≤ 201 }
    ensures is { result ≡ min 201 (nodes + sum_of_terms (nodes_within room) (terms_of ts.now)) }
{
    for t in ts {
        nodes = count(t, room, nodes);
    }
    nodes
}

/// So with the nodes of some branches.
#[cycle(count)]
fn count_branches(bs: &[Branch], room: u32, mut nodes: u32) -> u32
    requires few { nodes ≤ 201 }
    ensures is { result ≡ min 201 (nodes + sum_of_terms (nodes_within room) (arms_of bs.now)) }
{
    for b in bs {
        nodes = count(&b.body, room, nodes);
    }
    nodes
}

/// So with the nodes of some definitions, types and bodies.
#[cycle(count)]
fn count_definitions(ds: &[Def], room: u32, mut nodes: u32) -> u32
    requires few { nodes ≤ 201 }
    ensures is { result ≡ min 201 (nodes + (sum_of_terms (nodes_within room) (types_of ds.now) + sum_of_terms (nodes_within room) (bodies_of (length ds.now) ds.now))) }
{
    for d in ds {
        nodes = count(&d.body, room, count(&d.ty, room, nodes));
    }
    nodes
}

/// The depth at which a term is cut so that no more than 200 of its nodes are left. Takes no memory.
pub fn cut_depth(t: &Term) -> u32
    ensures is { result ≡ cut_depth t.now }
{
    let whole = t.depth();
    let mut depth = 0;
    while depth < whole {
        if count(t, depth + 1, 0) > MOST_SHOWN {
            return depth;
        }
        depth += 1;
    }
    depth
}

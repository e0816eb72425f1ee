//! What kind of weak-head normal form a value is.
ghost use Rattle.reduce_machine.specs.Layers.{IsOpen};
ghost use Rattle.reduce_machine.specs.Reads.{read};
ghost use Rattle.reduce_machine.specs.Seen.{seen_term, IsSeen};
ghost use Rattle.lazy_conversion.specs.Shapes.{IsShape};

use crate::part::Part;
use pc_terms::term::Node;
use reduce_machine::bindings::Lazy;
use reduce_machine::seen::Seen;
use reduce_machine::spines::Head;
use universe_levels::sort::Sort;

/// A product or a lambda: its domain, and what stands below its variable.
#[derive(Clone, Copy, Drop)]
pub struct Binder<'a> {
    pub domain: Part<'a>,
    pub body: Part<'a>,
}

/// A value by its former.
#[derive(Clone, Copy, Drop)]
pub enum Shape<'a> {
    Sort(&'a Sort),
    Product(Binder<'a>),
    Lambda(Binder<'a>),
    /// Another head, or a head with arguments.
    Spine,
}

/// The kind of an open head that has no arguments.
fn head_shape(l: &Lazy) -> Shape<'_>
    requires { IsOpen l.now }
    ensures is { IsShape (read l.now) result }
{
    match l.term.view() {
        Node::Sort(s) => Shape::Sort(s),
        Node::Prod(domain, body) => Shape::Product(Binder {
            domain: Part {
                term: domain,
                under: 0,
                env: &l.env,
            },
            body: Part {
                term: body,
                under: 1,
                env: &l.env,
            },
        }),
        Node::Lambda(domain, body) => Shape::Lambda(Binder {
            domain: Part {
                term: domain,
                under: 0,
                env: &l.env,
            },
            body: Part {
                term: body,
                under: 1,
                env: &l.env,
            },
        }),
        _ => Shape::Spine,
    }
}

/// The kind of a value.
pub fn shape_of(x: Seen<'_>) -> Shape<'_>
    requires { IsSeen x }
    ensures is { IsShape (seen_term x.entry) result }
{
    if !x.spine.args.is_empty() {
        return Shape::Spine;
    }
    match &x.spine.head {
        Head::Open(l) => head_shape(l),
        _ => Shape::Spine,
    }
}

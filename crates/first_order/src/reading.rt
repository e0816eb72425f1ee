//! Values that are read as data.
ghost use Rattle.std.specs.Prelude.{◌≡◌, ◌+◌, ◌<◌, ◌≤◌, ◌++◌, ◌∷◌, [], IfOk, IfErr, MatchOption, Some, None, length, drop, reverse, slice_get};
ghost use Rattle.pc_terms.specs.Syntax.{head, args};
ghost use Rattle.first_order.specs.declared.faults.TextFault.TheVariants.{Memory};
ghost use Rattle.first_order.specs.Reading.{fields, node_of, IsTaken, read, ReadsAs, is_family};

use crate::faults::TextFault;
use crate::shapes::{Shape, ShapeCtor, Shapes};
use crate::vectors::{put, take_last};
use data_trees::Data;
use pc_terms::leaf::FamilyId;
use pc_terms::lists::Numbers;
use pc_terms::term::{Node, Term, Terms};
use std::alloc::Global;

/// The most nodes of data that is read.
pub const MOST_NODES: usize = 4_000_000;

/// A value that is to be read, and the place of its type.
#[derive(Drop)]
pub(crate) struct Field {
    pub(crate) place: u32,
    pub(crate) value: Term,
}

/// Puts the fields of a constructor before those that wait, the first first; the last that waits is the next to be read.
fn put_fields(
    waiting: &mut Vec<Field>,
    types: &Numbers,
    values: &Terms,
    before: usize,
) -> Result<(), TextFault>
    requires counted { length values.now ≡ before + length types.now }
    ensures ok { IfOk result (λ _. reverse waiting.new.items ≡ fields types.now (drop before values.now) ++ reverse waiting.old.items) }
    ensures only_memory { IfErr result (λ e. e ≡ Memory) }
{
    let places = types.as_slice();
    let terms = values.as_slice();
    let count = places.len();
    for k in 0..count {
        let i = count - 1 - k;
        let Some(place) = places.get(i) else {
            return Err(TextFault::Memory);
        };
        let Some(term) = terms.get(before + i) else {
            return Err(TextFault::Memory);
        };
        let value = term.share()?;
        let field = Field {
            place: *place,
            value,
        };
        put(waiting, field)?;
    }
    Ok(())
}

/// Whether a type's head is this family.
fn is_of(head: &Term, id: FamilyId) -> bool
    ensures is { result ≡ is_family id head.now }
{
    match head.view() {
        Node::Ind(family) => family.block.0 == id.block.0 && family.family == id.family,
        _ => false,
    }
}

/// Type i.
fn type_at(shapes: &Shapes, i: u32) -> Option<&Shape>
    ensures at { MatchOption result (slice_get shapes.now.types i ≡ None) (λ s. slice_get shapes.now.types i ≡ Some s.now) }
{
    shapes.types.as_slice().get(i as usize)
}

/// Constructor i of a type.
fn constructor_at(shape: &Shape, i: u32) -> Option<&ShapeCtor>
    ensures at { MatchOption result (slice_get shape.now.ctors i ≡ None) (λ s. slice_get shape.now.ctors i ≡ Some s.now) }
{
    shape.ctors.as_slice().get(i as usize)
}

/// The node that a value is at its type, whose fields then wait before the others; none where it is no constructor of that type with its
/// number of arguments.
fn take_node(
    alloc: Global,
    shapes: &Shapes,
    field: &Field,
    waiting: &mut Vec<Field>,
) -> Result<Option<(u32, u32)>, TextFault>
    ensures ok { IfOk result (λ o. MatchOption o (node_of shapes.now.types field.now ≡ None) (λ p. IsTaken (node_of shapes.now.types field.now) p waiting.old.items waiting.new.items)) }
    ensures only_memory { IfErr result (λ e. e ≡ Memory) }
{
    let Some(shape) = type_at(shapes, field.place) else {
        return Ok(None);
    };
    let (head, values) = field.value.spine(alloc)?;
    let Node::Construct(id, number) = head.view() else {
        return Ok(None);
    };
    let (family, parameters) = shape.ty.spine(alloc)?;
    let of_family = is_of(&family, *id);
    if !of_family {
        return Ok(None);
    }
    let Some(ctor) = constructor_at(shape, *number) else {
        return Ok(None);
    };
    let before = parameters.len();
    let wanted = ctor.args.len();
    let given = values.len();
    if given < before {
        return Ok(None);
    }
    let behind = given - before;
    if behind != wanted {
        return Ok(None);
    }
    let Ok(count) = u32::try_from(wanted) else {
        return Err(TextFault::Memory);
    };
    put_fields(waiting, &ctor.args, &values, before)?;
    Ok(Some((*number, count)))
}

/// The data that a value is at the first of the types.
///
/// It looks at the first 4,000,000 nodes alone. `NotOfShape` exactly where the numbered node is the first in preorder that is no constructor
/// of the type that stands there with its number of arguments; `AnswerNodes` exactly where 4,000,000 nodes fit and there are more.
pub fn data_of(alloc: Global, value: &Term, shapes: &Shapes) -> Result<Data, TextFault>
    ensures read { ReadsAs (read shapes.now.types value.now) result }
{
    let first = value.share()?;
    let mut waiting = Vec::new(alloc);
    let field = Field {
        place: 0,
        value: first,
    };
    put(&mut waiting, field)?;
    let mut nodes = Vec::new(alloc);
    'next: while let Some(field) = take_last(&mut waiting) {
        if nodes.len() == MOST_NODES {
            return Err(TextFault::AnswerNodes);
        }
        let taken = take_node(alloc, shapes, &field, &mut waiting)?;
        let Some(node) = taken else {
            return Err(TextFault::NotOfShape {
                node: nodes.len() as u32,
            });
        };
        put(&mut nodes, node)?;
    }
    Ok(Data::of(nodes))
}

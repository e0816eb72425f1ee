//! Texts of data.
ghost use Rattle.std.specs.Prelude.{◌≡◌, ◌++◌, reverse, replicate, IfOk, IfErr, MatchOption, Some, None};
ghost use Rattle.first_order.specs.declared.faults.TextFault.TheVariants.{Memory};
ghost use Rattle.pc_terms.specs.Syntax.{Term as Value};
ghost use Rattle.first_order.specs.Reading.{read, Read};
ghost use Rattle.first_order.specs.Texts.{by_shapes, by_tags, slots, slot_behind, piece, constructor_in, write, WritesAs, HasNames, IsText};

use crate::faults::TextFault;
use crate::shapes::{ShapeCtor, Shapes};
use crate::vectors::{put, take_last};
use data_trees::Data;
use dump_reader::names::Names;
use itoa::Buffer;
use std::alloc::Global;

/// A tree that is to be written: the place of its type, and how many brackets are closed behind it.
#[derive(Drop)]
pub(crate) struct Slot {
    pub(crate) place: u32,
    pub(crate) closes: u32,
}

/// Writes the brackets that are closed behind a tree.
fn close(text: &mut Vec<u8>, closes: u32) -> Result<(), TextFault>
    ensures ok { IfOk result (λ _. text.new.items ≡ text.old.items ++ replicate closes 41) }
    ensures only_memory { IfErr result (λ e. e ≡ Memory) }
{
    for _i in 0..closes {
        text.push(b')')?;
    }
    Ok(())
}

/// Writes a node: a blank where it isn't the first, a bracket where it has arguments, its name, and the brackets that are closed behind it where it
/// has none.
fn write_node(
    text: &mut Vec<u8>,
    number: u32,
    name: &[u8],
    arguments: u32,
    closes: u32,
) -> Result<(), TextFault>
    ensures ok { IfOk result (λ _. text.new.items ≡ text.old.items ++ piece number name.now arguments closes) }
    ensures only_memory { IfErr result (λ e. e ≡ Memory) }
{
    if number > 0 {
        text.push(b' ')?;
    }
    if arguments > 0 {
        text.push(b'(')?;
        text.extend_from_slice(name)?;
        return Ok(());
    }
    text.extend_from_slice(name)?;
    close(text, closes)
}

/// The tree of an argument of which `behind` arguments stand behind it: brackets are closed only behind the last.
fn slot_of(place: u32, behind: usize, closes: u32) -> Slot
    ensures is { result ≡ slot_behind place behind closes }
{
    if behind == 0 {
        return Slot { place, closes };
    }
    Slot { place, closes: 0 }
}

/// Puts the trees of a node's arguments before those that wait, the first first; behind the last the node's bracket is closed, and those that are closed
/// behind the node.
fn put_slots(waiting: &mut Vec<Slot>, places: &[u32], closes: u32) -> Result<(), TextFault>
    ensures ok { IfOk result (λ _. reverse waiting.new.items ≡ slots places.now closes ++ reverse waiting.old.items) }
    ensures only_memory { IfErr result (λ e. e ≡ Memory) }
{
    let Some(last) = closes.checked_add(1) else {
        return Err(TextFault::Memory);
    };
    let count = places.len();
    for k in 0..count {
        let place = places[count - 1 - k];
        let slot = slot_of(place, k, last);
        put(waiting, slot)?;
    }
    Ok(())
}

/// The constructor that a node is at a type: one of the type's, with its number of arguments. None where it is no such constructor. Takes no memory.
fn constructor_of(shapes: &Shapes, place: u32, number: u32, count: u32) -> Option<&ShapeCtor>
    ensures is { MatchOption result (constructor_in shapes.now.types place number count ≡ None) (λ k. constructor_in shapes.now.types place number count ≡ Some k.now) }
{
    let shape = shapes.types.as_slice().get(place as usize)?;
    let ctor = shape.ctors.as_slice().get(number as usize)?;
    if ctor.args.len() != count as usize {
        return None;
    }
    Some(ctor)
}

/// The text of data at the first of the types, by the names of constructors: a constructor's name alone, or in brackets before the texts of its
/// arguments, with one blank between two items.
///
/// Each name number in the types is below the length of the names. `NotOfShape` exactly where the numbered node is the first in preorder that is
/// no constructor of the type that stands there with its number of arguments; so never for data that was read of a value at these types.
pub fn text_of(
    alloc: Global,
    tree: &Data,
    shapes: &Shapes,
    names: &Names,
) -> Result<Vec<u8>, TextFault>
    requires named { HasNames shapes.now.types names.now }
    ensures exact { WritesAs (write (by_shapes shapes.now.types names.now) tree.now) result }
    ensures text { IfOk result (λ v. IsText (by_shapes shapes.now.types names.now) 0 tree.now v.items) }
    ensures whole { (value : Value) → read shapes.now.types value ≡ Read tree.now → IfErr result (λ e. e ≡ Memory) }
{
    let mut text = Vec::new(alloc);
    let mut waiting = Vec::new(alloc);
    put(&mut waiting, slot_of(0, 0, 0))?;
    for i in 0..tree.len() {
        let (number, count) = tree.node(i);
        let Some(slot) = take_last(&mut waiting) else {
            unreachable!();
        };
        let Some(ctor) = constructor_of(shapes, slot.place, number, count) else {
            return Err(TextFault::NotOfShape { node: i });
        };
        let Some(name) = names.text(ctor.name.0) else {
            unreachable!();
        };
        write_node(&mut text, i, name.as_bytes(), count, slot.closes)?;
        put_slots(&mut waiting, ctor.args.as_slice(), slot.closes)?;
    }
    Ok(text)
}

/// The text of data by the numbers of constructors: a constructor's number in decimal alone, or in brackets before the texts of its arguments, with
/// one blank between two items. Only `Memory`.
pub fn tags_of(alloc: Global, tree: &Data) -> Result<Vec<u8>, TextFault>
    ensures exact { WritesAs (write by_tags tree.now) result }
    ensures text { IfOk result (λ v. IsText by_tags 0 tree.now v.items) }
    ensures only_memory { IfErr result (λ e. e ≡ Memory) }
{
    let mut buffer = Buffer::new();
    let mut text = Vec::new(alloc);
    let mut waiting = Vec::new(alloc);
    put(&mut waiting, slot_of(0, 0, 0))?;
    for i in 0..tree.len() {
        let (number, count) = tree.node(i);
        let Some(slot) = take_last(&mut waiting) else {
            unreachable!();
        };
        let tag = buffer.format(number).as_bytes();
        write_node(&mut text, i, tag, count, slot.closes)?;
        let places = vec![in alloc; 0; count as usize]?;
        put_slots(&mut waiting, places.as_slice(), slot.closes)?;
    }
    Ok(text)
}

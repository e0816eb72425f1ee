//! Whether the parts of a module outside its bodies are sound.

ghost use Rattle.std.specs.Prelude.{◌≡◌, ◌↔◌, IfOk, IsTrue};
ghost use Rattle.wasm_core.specs.ModuleTyping.{AreLimits, LimitsAreOrdered, EachIsThere, Elements, Functions, Globals, SegmentIsValid, IsSound, IsThere, Memories, Tables};
ghost use Rattle.wasm_core.specs.ModuleTyping.{type_of as type_of_value};
ghost use Rattle.wasm_validate.specs.Verdicts.{SaysOutside};

use crate::names::names_are_distinct;
use std::alloc::{AllocError, Global};
use wasm_core::{ConstValue, ExportKind, Limits, Module, Segment, ValType};

/// Whether each function's type is there.
fn types_are_there(m: &Module) -> bool
    ensures is { IsTrue result ↔ IsSound Functions m.now }
{
    let count = m.types().as_slice().len();
    let funcs = m.funcs().as_slice();
    for at in 0..funcs.len() {
        if funcs[at] as usize >= count {
            return false;
        }
    }
    true
}

/// Whether a table's greatest size isn't below its least.
fn are_ordered(of: Limits) -> bool
    ensures is { IsTrue result ↔ LimitsAreOrdered of }
{
    match of.max {
        Some(most) => of.min <= most,
        None => true,
    }
}

/// Whether the table's sizes are in order, where there is a table.
fn table_is_sound(m: &Module) -> bool
    ensures is { IsTrue result ↔ IsSound Tables m.now }
{
    match m.table() {
        Some(of) => are_ordered(of),
        None => true,
    }
}

/// Whether a memory's sizes are within 65,536 pages and in order.
fn are_limits(of: Limits) -> bool
    ensures is { IsTrue result ↔ AreLimits of }
{
    let most = match of.max {
        Some(most) => most,
        None => 65_536,
    };
    of.min <= most && most <= 65_536
}

/// Whether the memory's sizes are sound, where there is a memory.
fn memory_is_sound(m: &Module) -> bool
    ensures is { IsTrue result ↔ IsSound Memories m.now }
{
    match m.memory() {
        Some(of) => are_limits(of),
        None => true,
    }
}

/// The type of a value.
fn type_of(of: ConstValue) -> ValType
    ensures is { result ≡ type_of_value of }
{
    match of {
        ConstValue::I32(_) => ValType::I32,
        ConstValue::I64(_) => ValType::I64,
    }
}

/// Whether each global's first value is of its type.
fn globals_are_sound(m: &Module) -> bool
    ensures is { IsTrue result ↔ IsSound Globals m.now }
{
    let globals = m.globals().as_slice();
    for at in 0..globals.len() {
        let global = globals[at];
        if type_of(global.init) != global.ty {
            return false;
        }
    }
    true
}

/// Whether what an export names is there.
fn is_there(m: &Module, kind: ExportKind, index: u32) -> bool
    ensures is { IsTrue result ↔ IsThere m.now kind index }
{
    match kind {
        ExportKind::Func => (index as usize) < m.funcs().as_slice().len(),
        ExportKind::Table => index == 0 && m.table().is_some(),
        ExportKind::Memory => index == 0 && m.memory().is_some(),
        ExportKind::Global => (index as usize) < m.globals().as_slice().len(),
    }
}

/// Whether what each export names is there.
fn exports_are_there(m: &Module) -> bool
    ensures is { IsTrue result ↔ EachIsThere m.now }
{
    let exports = m.exports().as_slice();
    for at in 0..exports.len() {
        let export = &exports[at];
        if !is_there(m, export.kind, export.index) {
            return false;
        }
    }
    true
}

/// Whether there is a table for an element segment, and its functions are there.
fn segment_is_sound(m: &Module, of: &Segment) -> bool
    ensures is { IsTrue result ↔ SegmentIsValid m.now of.now }
{
    if m.table().is_none() {
        return false;
    }
    let count = m.funcs().as_slice().len();
    let funcs = of.funcs.as_slice();
    for at in 0..funcs.len() {
        if funcs[at] as usize >= count {
            return false;
        }
    }
    true
}

/// Whether each element segment is sound.
fn elements_are_sound(m: &Module) -> bool
    ensures is { IsTrue result ↔ IsSound Elements m.now }
{
    let elements = m.elements().as_slice();
    for at in 0..elements.len() {
        if !segment_is_sound(m, &elements[at]) {
            return false;
        }
    }
    true
}

/// The least id of a section outside the bodies that has a fault.
///
/// A module always has as many bodies as functions, so the code section never has one.
pub(crate) fn outside_fault(alloc: Global, m: &Module) -> Result<Option<u32>, AllocError>
    ensures is { IfOk result (λ o. SaysOutside m.now o) }
{
    m.spelled();
    if !types_are_there(m) {
        return Ok(Some(3));
    }
    if !table_is_sound(m) {
        return Ok(Some(4));
    }
    if !memory_is_sound(m) {
        return Ok(Some(5));
    }
    if !globals_are_sound(m) {
        return Ok(Some(6));
    }
    if !names_are_distinct(alloc, m.exports().as_slice())? {
        return Ok(Some(7));
    }
    if !exports_are_there(m) {
        return Ok(Some(7));
    }
    if !elements_are_sound(m) {
        return Ok(Some(9));
    }
    Ok(None)
}

//! What sections other than that of code hold (WebAssembly Core Specification, sections 5.5.4 to 5.5.12).

ghost use Rattle.std.specs.Prelude.{◌≡◌, ℕ, ◌+◌, ◌<◌, ◌≤◌, ◌^◌, List, [], ◌∷◌, length, OnOk, Some, None, Ok, Err, false, true, map, ◌++◌, replicate, reverse};
ghost use Rattle.wasm_decode.specs.Reads.{Reads, Passes, TakesByte, TakesNumber, TakesPart, Finishes};
ghost use Rattle.wasm_core.specs.ModuleGrammar as grammar;

use crate::cursor::Cursor;
use crate::items::{byte, name, s32, s64, take, take_number, u32};
use crate::types::{func_type, limits, table_type, val_type};
use std::alloc::Global;
use wasm_core::{
    Bytes, ConstValue, DecodeFault, Export, ExportKind, FuncType, GlobalDef, Limits, Numbers,
    Segment, ValType,
};

/// The types of functions.
#[tactic(auto, unfolding(wasm_core::specs::ModuleGrammar::func_types), using(crate::proofs::Listing::judged_next, crate::proofs::Listing::judged_over))]
pub fn func_types(alloc: Global, c: &mut Cursor) -> Result<Vec<FuncType>, DecodeFault>
    ensures reads { Reads result c.old c.new grammar.func_types (λ v. v.items) }
{
    let mut left = u32(c)?;
    let mut found = Vec::new(alloc);
    while left > 0 {
        let one = func_type(alloc, c)?;
        found.push(one)?;
        left -= 1;
    }
    found.shrink_to_fit();
    Ok(found)
}

/// Indices with their count, as those of types or functions.
#[tactic(auto, unfolding(wasm_core::specs::ModuleGrammar::indices), using(crate::proofs::Listing::judged_next, crate::proofs::Listing::judged_over))]
pub fn indices(alloc: Global, c: &mut Cursor) -> Result<Vec<u32>, DecodeFault>
    ensures reads { Reads result c.old c.new grammar.indices (λ v. v.items) }
{
    let mut left = u32(c)?;
    let mut found = Vec::new(alloc);
    while left > 0 {
        let one = u32(c)?;
        found.push(one)?;
        left -= 1;
    }
    found.shrink_to_fit();
    Ok(found)
}

/// At most one table.
#[tactic(auto, unfolding(wasm_core::specs::ModuleGrammar::table))]
pub fn table(c: &mut Cursor) -> Result<Option<Limits>, DecodeFault>
    ensures reads { Reads result c.old c.new grammar.table (λ x. x) }
{
    let start = c.at;
    let n = take_number(c, false)?;
    if n == 0 {
        Ok(None)
    } else if n == 1 {
        Ok(Some(table_type(c)?))
    } else {
        Err(DecodeFault::Bad { offset: start })
    }
}

/// At most one memory.
#[tactic(auto, unfolding(wasm_core::specs::ModuleGrammar::memory))]
pub fn memory(c: &mut Cursor) -> Result<Option<Limits>, DecodeFault>
    ensures reads { Reads result c.old c.new grammar.memory (λ x. x) }
{
    let start = c.at;
    let n = take_number(c, false)?;
    if n == 0 {
        Ok(None)
    } else if n == 1 {
        Ok(Some(limits(c)?))
    } else {
        Err(DecodeFault::Bad { offset: start })
    }
}

/// Whether a global is mutable.
#[tactic(auto, unfolding(wasm_core::specs::ModuleGrammar::mutability))]
fn mutability(c: &mut Cursor) -> Result<bool, DecodeFault>
    ensures reads { Reads result c.old c.new grammar.mutability (λ x. x) }
{
    let start = c.at;
    match take(c)? {
        0x00 => Ok(false),
        0x01 => Ok(true),
        _ => Err(DecodeFault::Bad { offset: start }),
    }
}

/// The value of a constant expression: a constant and `end`.
#[tactic(auto, unfolding(wasm_core::specs::ModuleGrammar::constant))]
fn constant(c: &mut Cursor) -> Result<ConstValue, DecodeFault>
    ensures reads { Reads result c.old c.new grammar.constant (λ x. x) }
{
    let start = c.at;
    match take(c)? {
        0x41 => {
            let n = s32(c)?;
            byte(c, 0x0B)?;
            Ok(ConstValue::I32(n))
        }
        0x42 => {
            let n = s64(c)?;
            byte(c, 0x0B)?;
            Ok(ConstValue::I64(n))
        }
        _ => Err(DecodeFault::Bad { offset: start }),
    }
}

/// A global.
#[tactic(auto, unfolding(wasm_core::specs::ModuleGrammar::global))]
fn global(c: &mut Cursor) -> Result<GlobalDef, DecodeFault>
    ensures reads { Reads result c.old c.new grammar.global (λ x. x) }
{
    let ty = val_type(c)?;
    let mutable = mutability(c)?;
    let init = constant(c)?;
    Ok(GlobalDef { mutable, ty, init })
}

/// The globals.
#[tactic(auto, unfolding(wasm_core::specs::ModuleGrammar::globals), using(crate::proofs::Listing::judged_next, crate::proofs::Listing::judged_over))]
pub fn globals(alloc: Global, c: &mut Cursor) -> Result<Vec<GlobalDef>, DecodeFault>
    ensures reads { Reads result c.old c.new grammar.globals (λ v. v.items) }
{
    let mut left = u32(c)?;
    let mut found = Vec::new(alloc);
    while left > 0 {
        let one = global(c)?;
        found.push(one)?;
        left -= 1;
    }
    found.shrink_to_fit();
    Ok(found)
}

/// The kind of an export.
#[tactic(auto, unfolding(wasm_core::specs::ModuleGrammar::export_kind))]
fn export_kind(c: &mut Cursor) -> Result<ExportKind, DecodeFault>
    ensures reads { Reads result c.old c.new grammar.export_kind (λ x. x) }
{
    let start = c.at;
    match take(c)? {
        0x00 => Ok(ExportKind::Func),
        0x01 => Ok(ExportKind::Table),
        0x02 => Ok(ExportKind::Memory),
        0x03 => Ok(ExportKind::Global),
        _ => Err(DecodeFault::Bad { offset: start }),
    }
}

/// An export.
#[tactic(auto, unfolding(wasm_core::specs::ModuleGrammar::exported))]
fn exported(alloc: Global, c: &mut Cursor) -> Result<Export, DecodeFault>
    ensures reads { Reads result c.old c.new grammar.exported (λ x. x) }
{
    let name = name(alloc, c)?;
    let kind = export_kind(c)?;
    let index = u32(c)?;
    Ok(Export {
        name: Bytes::of(name),
        kind,
        index,
    })
}

/// The exports.
#[tactic(auto, unfolding(wasm_core::specs::ModuleGrammar::exports), using(crate::proofs::Listing::judged_next, crate::proofs::Listing::judged_over))]
pub fn exports(alloc: Global, c: &mut Cursor) -> Result<Vec<Export>, DecodeFault>
    ensures reads { Reads result c.old c.new grammar.exports (λ v. v.items) }
{
    let mut left = u32(c)?;
    let mut found = Vec::new(alloc);
    while left > 0 {
        let one = exported(alloc, c)?;
        found.push(one)?;
        left -= 1;
    }
    found.shrink_to_fit();
    Ok(found)
}

/// An element segment for the one table: the flag 0, an `i32.const` and `end`, and the functions.
#[tactic(auto, unfolding(wasm_core::specs::ModuleGrammar::segment))]
fn segment(alloc: Global, c: &mut Cursor) -> Result<Segment, DecodeFault>
    ensures reads { Reads result c.old c.new grammar.segment (λ x. x) }
{
    let start = c.at;
    if take_number(c, false)? != 0 {
        return Err(DecodeFault::Bad { offset: start });
    }
    byte(c, 0x41)?;
    let offset = s32(c)?;
    byte(c, 0x0B)?;
    let funcs = indices(alloc, c)?;
    Ok(Segment {
        offset,
        funcs: Numbers::of(funcs),
    })
}

/// The element segments.
#[tactic(auto, unfolding(wasm_core::specs::ModuleGrammar::segments), using(crate::proofs::Listing::judged_next, crate::proofs::Listing::judged_over))]
pub fn segments(alloc: Global, c: &mut Cursor) -> Result<Vec<Segment>, DecodeFault>
    ensures reads { Reads result c.old c.new grammar.segments (λ v. v.items) }
{
    let mut left = u32(c)?;
    let mut found = Vec::new(alloc);
    while left > 0 {
        let one = segment(alloc, c)?;
        found.push(one)?;
        left -= 1;
    }
    found.shrink_to_fit();
    Ok(found)
}

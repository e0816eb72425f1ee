//! Types of values, functions and tables, and sizes (WebAssembly Core Specification, section 5.3).

ghost use Rattle.std.specs.Prelude.{◌≡◌, ℕ, ◌+◌, ◌<◌, ◌≤◌, ◌^◌, List, [], ◌∷◌, length, OnOk, Some, None, Ok, Err, false, true, map, ◌++◌, replicate, reverse};
ghost use Rattle.wasm_decode.specs.Reads.{Reads, Passes, TakesByte, TakesNumber, TakesPart, Finishes};
ghost use Rattle.wasm_core.specs.ModuleGrammar as grammar;

use crate::cursor::Cursor;
use crate::items::{byte, take, take_number, u32};
use std::alloc::Global;
use wasm_core::{BlockType, DecodeFault, FuncType, Limits, ValType, ValTypes};

/// A type of values.
#[tactic(auto, unfolding(wasm_core::specs::ModuleGrammar::val_type))]
pub fn val_type(c: &mut Cursor) -> Result<ValType, DecodeFault>
    ensures reads { Reads result c.old c.new grammar.val_type (λ x. x) }
{
    let start = c.at;
    match take(c)? {
        0x7F => Ok(ValType::I32),
        0x7E => Ok(ValType::I64),
        _ => Err(DecodeFault::Bad { offset: start }),
    }
}

/// What a block leaves.
#[tactic(auto, unfolding(wasm_core::specs::ModuleGrammar::block_type))]
pub fn block_type(c: &mut Cursor) -> Result<BlockType, DecodeFault>
    ensures reads { Reads result c.old c.new grammar.block_type (λ x. x) }
{
    let start = c.at;
    match take(c)? {
        0x40 => Ok(BlockType::Empty),
        0x7F => Ok(BlockType::Value(ValType::I32)),
        0x7E => Ok(BlockType::Value(ValType::I64)),
        _ => Err(DecodeFault::Bad { offset: start }),
    }
}

/// Types of values with their count, as those of parameters.
#[tactic(auto, unfolding(wasm_core::specs::ModuleGrammar::val_types), using(crate::proofs::Listing::judged_next, crate::proofs::Listing::judged_over))]
fn val_types(alloc: Global, c: &mut Cursor) -> Result<Vec<ValType>, DecodeFault>
    ensures reads { Reads result c.old c.new grammar.val_types (λ v. v.items) }
{
    let mut left = u32(c)?;
    let mut found = Vec::new(alloc);
    while left > 0 {
        let one = val_type(c)?;
        found.push(one)?;
        left -= 1;
    }
    found.shrink_to_fit();
    Ok(found)
}

/// At most one result.
#[tactic(auto, unfolding(wasm_core::specs::ModuleGrammar::func_result))]
fn func_result(c: &mut Cursor) -> Result<Option<ValType>, DecodeFault>
    ensures reads { Reads result c.old c.new grammar.func_result (λ x. x) }
{
    let start = c.at;
    let n = take_number(c, false)?;
    if n == 0 {
        Ok(None)
    } else if n == 1 {
        Ok(Some(val_type(c)?))
    } else {
        Err(DecodeFault::Bad { offset: start })
    }
}

/// A type of functions.
#[tactic(auto, unfolding(wasm_core::specs::ModuleGrammar::func_type))]
pub fn func_type(alloc: Global, c: &mut Cursor) -> Result<FuncType, DecodeFault>
    ensures reads { Reads result c.old c.new grammar.func_type (λ x. x) }
{
    byte(c, 0x60)?;
    let params = val_types(alloc, c)?;
    let result = func_result(c)?;
    Ok(FuncType {
        params: ValTypes::of(params),
        result,
    })
}

/// Whether a maximum comes.
#[tactic(auto, unfolding(wasm_core::specs::ModuleGrammar::limits_flag))]
fn limits_flag(c: &mut Cursor) -> Result<bool, DecodeFault>
    ensures reads { Reads result c.old c.new grammar.limits_flag (λ x. x) }
{
    let start = c.at;
    match take(c)? {
        0x00 => Ok(false),
        0x01 => Ok(true),
        _ => Err(DecodeFault::Bad { offset: start }),
    }
}

/// The least size and, where it is given, the greatest.
#[tactic(auto, unfolding(wasm_core::specs::ModuleGrammar::limits))]
pub fn limits(c: &mut Cursor) -> Result<Limits, DecodeFault>
    ensures reads { Reads result c.old c.new grammar.limits (λ x. x) }
{
    let bounded = limits_flag(c)?;
    let min = u32(c)?;
    if bounded {
        let max = u32(c)?;
        Ok(Limits {
            min,
            max: Some(max),
        })
    } else {
        Ok(Limits { min, max: None })
    }
}

/// The sizes of a table of functions.
#[tactic(auto, unfolding(wasm_core::specs::ModuleGrammar::table_type))]
pub fn table_type(c: &mut Cursor) -> Result<Limits, DecodeFault>
    ensures reads { Reads result c.old c.new grammar.table_type (λ x. x) }
{
    byte(c, 0x70)?;
    limits(c)
}

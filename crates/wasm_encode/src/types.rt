//! Types of values, functions and tables, and sizes (WebAssembly Core Specification, section 5.3).

ghost use Rattle.std.specs.Prelude.{◌≡◌, ℕ, ◌+◌, ◌-◌, ◌*◌, ◌<◌, ◌≤◌, ◌^◌, List, [], ◌∷◌, ◌++◌, length, OnOk, IfOk, reverse, Ok, Err};
ghost use Rattle.wasm_core.specs.ModuleCondition.{All, IsVector, IsFuncType, IsGlobal, IsExport, IsSegment, IsInstr, IsBody, IsModule, IsU32, IsU64};
ghost use Rattle.wasm_core.specs.ShortestBytes as shortest;
ghost use Rattle.wasm_encode.specs.Puts.{Puts, PutsUnless, FirstBelow};

use crate::numbers::{put, put_u32};
use std::alloc::AllocError;
use wasm_core::{BlockType, FuncType, Limits, ValType};

/// Puts a type of values.
pub fn put_val_type(out: &mut Vec<u8>, t: ValType) -> Result<(), AllocError>
    ensures puts { OnOk result (Puts out.old.items out.new.items (shortest.put_val_type t)) }
{
    match t {
        ValType::I32 => put(out, 0x7F),
        ValType::I64 => put(out, 0x7E),
    }
}

/// Puts what a block leaves.
pub fn put_block_type(out: &mut Vec<u8>, t: BlockType) -> Result<(), AllocError>
    ensures puts { OnOk result (Puts out.old.items out.new.items (λ w. shortest.block_type_code t ∷ w)) }
{
    match t {
        BlockType::Empty => put(out, 0x40),
        BlockType::Value(t) => put_val_type(out, t),
    }
}

/// Puts at most one result.
fn put_result(out: &mut Vec<u8>, t: Option<ValType>) -> Result<(), AllocError>
    ensures puts { OnOk result (Puts out.old.items out.new.items (shortest.put_result t)) }
{
    match t {
        None => put(out, 0),
        Some(t) => {
            put(out, 1)?;
            put_val_type(out, t)
        }
    }
}

/// Puts types of values, without their count.
#[tactic(auto, using(crate::proofs::Putting::all_next, crate::proofs::Putting::all_over))]
fn put_val_types(out: &mut Vec<u8>, ts: &[ValType]) -> Result<(), AllocError>
    ensures puts { OnOk result (Puts out.old.items out.new.items (shortest.put_all shortest.put_val_type ts.now)) }
{
    for t in ts {
        put_val_type(out, *t)?;
    }
    Ok(())
}

/// Puts a type of functions.
#[tactic(auto, unfolding(wasm_core::specs::ShortestBytes::put_func_type))]
pub fn put_func_type(out: &mut Vec<u8>, t: &FuncType) -> Result<(), AllocError>
    requires fits { IsFuncType t.now }
    ensures puts { OnOk result (Puts out.old.items out.new.items (shortest.put_func_type t.now)) }
{
    let params = t.params.as_slice();
    put(out, 0x60)?;
    put_u32(out, params.len() as u32)?;
    put_val_types(out, params)?;
    put_result(out, t.result)
}

/// Puts types of functions, without their count.
#[tactic(auto, using(crate::proofs::Putting::all_next, crate::proofs::Putting::all_over, crate::proofs::Putting::all_at))]
pub fn put_func_types(out: &mut Vec<u8>, ts: &[FuncType]) -> Result<(), AllocError>
    requires fits { All IsFuncType ts.now }
    ensures puts { OnOk result (Puts out.old.items out.new.items (shortest.put_all shortest.put_func_type ts.now)) }
{
    for t in ts {
        put_func_type(out, t)?;
    }
    Ok(())
}

/// Puts the least size and, where it is given, the greatest.
#[tactic(auto, unfolding(wasm_core::specs::ShortestBytes::put_limits))]
pub fn put_limits(out: &mut Vec<u8>, l: Limits) -> Result<(), AllocError>
    ensures puts { OnOk result (Puts out.old.items out.new.items (shortest.put_limits l)) }
{
    match l.max {
        None => {
            put(out, 0)?;
            put_u32(out, l.min)
        }
        Some(max) => {
            put(out, 1)?;
            put_u32(out, l.min)?;
            put_u32(out, max)
        }
    }
}

/// Puts the sizes of a table of functions.
#[tactic(auto, unfolding(wasm_core::specs::ShortestBytes::put_table_type))]
pub fn put_table_type(out: &mut Vec<u8>, l: Limits) -> Result<(), AllocError>
    ensures puts { OnOk result (Puts out.old.items out.new.items (shortest.put_table_type l)) }
{
    put(out, 0x70)?;
    put_limits(out, l)
}

//! What sections other than that of code hold (WebAssembly Core Specification, sections 5.5.5 to 5.5.12).

ghost use Rattle.std.specs.Prelude.{◌≡◌, ℕ, ◌+◌, ◌-◌, ◌*◌, ◌<◌, ◌≤◌, ◌^◌, List, [], ◌∷◌, ◌++◌, length, OnOk, IfOk, reverse, Ok, Err};
ghost use Rattle.wasm_core.specs.ModuleCondition.{All, IsVector, IsFuncType, IsGlobal, IsExport, IsSegment, IsInstr, IsBody, IsModule, IsU32, IsU64};
ghost use Rattle.wasm_core.specs.ShortestBytes as shortest;
ghost use Rattle.wasm_encode.specs.Puts.{Puts, PutsUnless, FirstBelow};

use crate::numbers::{put, put_bytes, put_s32, put_s64, put_u32};
use crate::types::put_val_type;
use std::alloc::AllocError;
use wasm_core::{ConstValue, Export, ExportKind, GlobalDef, Segment};

/// Puts indices, without their count.
#[tactic(auto, using(crate::proofs::Putting::all_next, crate::proofs::Putting::all_over))]
pub fn put_indices(out: &mut Vec<u8>, ns: &[u32]) -> Result<(), AllocError>
    ensures puts { OnOk result (Puts out.old.items out.new.items (shortest.put_all shortest.put_u32 ns.now)) }
{
    for n in ns {
        put_u32(out, *n)?;
    }
    Ok(())
}

/// Puts a flag.
fn put_flag(out: &mut Vec<u8>, b: bool) -> Result<(), AllocError>
    ensures puts { OnOk result (Puts out.old.items out.new.items (λ w. shortest.flag b ∷ w)) }
{
    if b { put(out, 1) } else { put(out, 0) }
}

/// Puts a constant and `end`.
fn put_constant(out: &mut Vec<u8>, v: ConstValue) -> Result<(), AllocError>
    ensures puts { OnOk result (Puts out.old.items out.new.items (shortest.put_constant v)) }
{
    match v {
        ConstValue::I32(n) => {
            put(out, 0x41)?;
            put_s32(out, n)?;
            put(out, 0x0B)
        }
        ConstValue::I64(n) => {
            put(out, 0x42)?;
            put_s64(out, n)?;
            put(out, 0x0B)
        }
    }
}

/// Puts a global.
#[tactic(auto, unfolding(wasm_core::specs::ShortestBytes::put_global))]
fn put_global(out: &mut Vec<u8>, g: GlobalDef) -> Result<(), AllocError>
    ensures puts { OnOk result (Puts out.old.items out.new.items (shortest.put_global g)) }
{
    put_val_type(out, g.ty)?;
    put_flag(out, g.mutable)?;
    put_constant(out, g.init)
}

/// Puts globals, without their count.
#[tactic(auto, using(crate::proofs::Putting::all_next, crate::proofs::Putting::all_over))]
pub fn put_globals(out: &mut Vec<u8>, gs: &[GlobalDef]) -> Result<(), AllocError>
    ensures puts { OnOk result (Puts out.old.items out.new.items (shortest.put_all shortest.put_global gs.now)) }
{
    for g in gs {
        put_global(out, *g)?;
    }
    Ok(())
}

/// The byte of an export's kind.
fn kind_code(k: ExportKind) -> u8
    ensures is { result ≡ shortest.kind_code k }
{
    match k {
        ExportKind::Func => 0,
        ExportKind::Table => 1,
        ExportKind::Memory => 2,
        ExportKind::Global => 3,
    }
}

/// Puts an export.
#[tactic(auto, unfolding(wasm_core::specs::ShortestBytes::put_export))]
fn put_export(out: &mut Vec<u8>, e: &Export) -> Result<(), AllocError>
    requires fits { IsExport e.now }
    ensures puts { OnOk result (Puts out.old.items out.new.items (shortest.put_export e.now)) }
{
    let name = e.name.as_slice();
    put_u32(out, name.len() as u32)?;
    put_bytes(out, name)?;
    put(out, kind_code(e.kind))?;
    put_u32(out, e.index)
}

/// Puts exports, without their count.
#[tactic(auto, using(crate::proofs::Putting::all_next, crate::proofs::Putting::all_over, crate::proofs::Putting::all_at))]
pub fn put_exports(out: &mut Vec<u8>, es: &[Export]) -> Result<(), AllocError>
    requires fits { All IsExport es.now }
    ensures puts { OnOk result (Puts out.old.items out.new.items (shortest.put_all shortest.put_export es.now)) }
{
    for e in es {
        put_export(out, e)?;
    }
    Ok(())
}

/// Puts an element segment: the flag 0, an `i32.const` and `end`, and the functions.
#[tactic(auto, unfolding(wasm_core::specs::ShortestBytes::put_segment))]
fn put_segment(out: &mut Vec<u8>, s: &Segment) -> Result<(), AllocError>
    requires fits { IsSegment s.now }
    ensures puts { OnOk result (Puts out.old.items out.new.items (shortest.put_segment s.now)) }
{
    let funcs = s.funcs.as_slice();
    put(out, 0x00)?;
    put(out, 0x41)?;
    put_s32(out, s.offset)?;
    put(out, 0x0B)?;
    put_u32(out, funcs.len() as u32)?;
    put_indices(out, funcs)
}

/// Puts element segments, without their count.
#[tactic(auto, using(crate::proofs::Putting::all_next, crate::proofs::Putting::all_over, crate::proofs::Putting::all_at))]
pub fn put_segments(out: &mut Vec<u8>, ss: &[Segment]) -> Result<(), AllocError>
    requires fits { All IsSegment ss.now }
    ensures puts { OnOk result (Puts out.old.items out.new.items (shortest.put_all shortest.put_segment ss.now)) }
{
    for s in ss {
        put_segment(out, s)?;
    }
    Ok(())
}

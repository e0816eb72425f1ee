//! Instructions and bodies (WebAssembly Core Specification, sections 5.4 and 5.5.13).

ghost use Rattle.std.specs.Prelude.{◌≡◌, ℕ, ◌+◌, ◌-◌, ◌*◌, ◌<◌, ◌≤◌, ◌^◌, List, [], ◌∷◌, ◌++◌, length, OnOk, IfOk, reverse, Ok, Err};
ghost use Rattle.wasm_core.specs.ModuleCondition.{All, IsVector, IsFuncType, IsGlobal, IsExport, IsSegment, IsInstr, IsBody, IsModule, IsU32, IsU64};
ghost use Rattle.wasm_core.specs.ShortestBytes as shortest;
ghost use Rattle.wasm_encode.specs.Puts.{Puts, PutsUnless, FirstBelow};

use crate::declarations::put_indices;
use crate::numbers::{put, put_bytes, put_s32, put_s64, put_u32};
use crate::types::{put_block_type, put_val_type};
use std::alloc::{AllocError, Global};
use wasm_core::{Access, Body, EncodeFault, I32Op, Instr, ValType};

/// The most bytes that a module is written as.
pub const MOST_BYTES: usize = 16_777_216;

/// The opcode of an operation on 32-bit integers.
fn operation_code(op: I32Op) -> u8
    ensures is { result ≡ shortest.operation_code op }
{
    match op {
        I32Op::Eqz => 0x45,
        I32Op::Eq => 0x46,
        I32Op::Ne => 0x47,
        I32Op::LtS => 0x48,
        I32Op::LtU => 0x49,
        I32Op::GtS => 0x4A,
        I32Op::GtU => 0x4B,
        I32Op::LeS => 0x4C,
        I32Op::LeU => 0x4D,
        I32Op::GeS => 0x4E,
        I32Op::GeU => 0x4F,
        I32Op::Add => 0x6A,
        I32Op::Sub => 0x6B,
        I32Op::Mul => 0x6C,
        I32Op::And => 0x71,
        I32Op::Or => 0x72,
        I32Op::Xor => 0x73,
        I32Op::Shl => 0x74,
        I32Op::ShrS => 0x75,
        I32Op::ShrU => 0x76,
    }
}

/// Puts an opcode and an index.
fn put_indexed(out: &mut Vec<u8>, opcode: u8, n: u32) -> Result<(), AllocError>
    ensures puts { OnOk result (Puts out.old.items out.new.items (λ w. opcode ∷ shortest.put_u32 n w)) }
{
    put(out, opcode)?;
    put_u32(out, n)
}

/// Puts an opcode and how it accesses memory.
fn put_accessing(out: &mut Vec<u8>, opcode: u8, a: Access) -> Result<(), AllocError>
    ensures puts { OnOk result (Puts out.old.items out.new.items (λ w. opcode ∷ shortest.put_access a w)) }
{
    put(out, opcode)?;
    put_u32(out, a.align)?;
    put_u32(out, a.offset)
}

/// Puts a `br_table`.
fn put_table(out: &mut Vec<u8>, labels: &[u32], otherwise: u32) -> Result<(), AllocError>
    requires fits { IsVector IsU32 labels.now }
    ensures puts { OnOk result (Puts out.old.items out.new.items (λ w. 14 ∷ shortest.put_list shortest.put_u32 labels.now (shortest.put_u32 otherwise w))) }
{
    put(out, 0x0E)?;
    put_u32(out, labels.len() as u32)?;
    put_indices(out, labels)?;
    put_u32(out, otherwise)
}

/// Puts an instruction.
#[tactic(auto, unfolding(wasm_core::specs::ShortestBytes::put_instr))]
fn put_instr(out: &mut Vec<u8>, i: &Instr) -> Result<(), AllocError>
    requires fits { IsInstr i.now }
    ensures puts { OnOk result (Puts out.old.items out.new.items (shortest.put_instr i.now)) }
{
    match i {
        Instr::Unreachable => put(out, 0x00),
        Instr::Nop => put(out, 0x01),
        Instr::Block(t) => {
            put(out, 0x02)?;
            put_block_type(out, *t)
        }
        Instr::Loop(t) => {
            put(out, 0x03)?;
            put_block_type(out, *t)
        }
        Instr::If(t) => {
            put(out, 0x04)?;
            put_block_type(out, *t)
        }
        Instr::Else => put(out, 0x05),
        Instr::End => put(out, 0x0B),
        Instr::Br(n) => put_indexed(out, 0x0C, *n),
        Instr::BrIf(n) => put_indexed(out, 0x0D, *n),
        Instr::BrTable(otherwise, labels) => put_table(out, labels.as_slice(), *otherwise),
        Instr::Return => put(out, 0x0F),
        Instr::Call(n) => put_indexed(out, 0x10, *n),
        Instr::CallIndirect(ty, table) => {
            put_indexed(out, 0x11, *ty)?;
            put_u32(out, *table)
        }
        Instr::ReturnCall(n) => put_indexed(out, 0x12, *n),
        Instr::ReturnCallIndirect(ty, table) => {
            put_indexed(out, 0x13, *ty)?;
            put_u32(out, *table)
        }
        Instr::Drop => put(out, 0x1A),
        Instr::LocalGet(n) => put_indexed(out, 0x20, *n),
        Instr::LocalSet(n) => put_indexed(out, 0x21, *n),
        Instr::LocalTee(n) => put_indexed(out, 0x22, *n),
        Instr::GlobalGet(n) => put_indexed(out, 0x23, *n),
        Instr::GlobalSet(n) => put_indexed(out, 0x24, *n),
        Instr::I32Load(a) => put_accessing(out, 0x28, *a),
        Instr::I32Load8U(a) => put_accessing(out, 0x2D, *a),
        Instr::I32Store(a) => put_accessing(out, 0x36, *a),
        Instr::I32Store8(a) => put_accessing(out, 0x3A, *a),
        Instr::MemorySize => {
            put(out, 0x3F)?;
            put(out, 0x00)
        }
        Instr::MemoryGrow => {
            put(out, 0x40)?;
            put(out, 0x00)
        }
        Instr::I32Const(n) => {
            put(out, 0x41)?;
            put_s32(out, *n)
        }
        Instr::I64Const(n) => {
            put(out, 0x42)?;
            put_s64(out, *n)
        }
        Instr::I32(op) => put(out, operation_code(*op)),
    }
}

/// Puts instructions.
#[tactic(auto, using(crate::proofs::Putting::all_next, crate::proofs::Putting::all_over, crate::proofs::Putting::all_at))]
fn put_instrs(out: &mut Vec<u8>, is: &[Instr]) -> Result<(), AllocError>
    requires fits { All IsInstr is.now }
    ensures puts { OnOk result (Puts out.old.items out.new.items (shortest.put_all shortest.put_instr is.now)) }
{
    for i in is {
        put_instr(out, i)?;
    }
    Ok(())
}

/// One local more, before the runs that are there. The first run is the last of the list.
#[tactic(auto, using(crate::proofs::Locals::first_run, crate::proofs::Locals::same_run, crate::proofs::Locals::other_run, crate::proofs::Locals::first_below))]
fn add_local(runs: &mut Vec<(u32, ValType)>, t: ValType) -> Result<(), AllocError>
    requires fits { FirstBelow 50000 (reverse runs.old.items) }
    ensures adds { OnOk result (reverse runs.new.items ≡ shortest.add_local t (reverse runs.old.items)) }
{
    match runs.pop() {
        None => {
            runs.push((1, t))?;
        }
        Some((count, of)) => {
            if of == t {
                runs.push((count + 1, t))?;
            } else {
                runs.push((count, of))?;
                runs.push((1, t))?;
            }
        }
    }
    Ok(())
}

/// The runs of equal types, each with its count, the first run last.
#[tactic(auto, using(crate::proofs::Locals::runs_before, crate::proofs::Locals::runs_below, crate::proofs::Locals::runs_none))]
fn runs_of(alloc: Global, ts: &[ValType]) -> Result<Vec<(u32, ValType)>, AllocError>
    requires fits { length ts.now ≤ 50000 }
    ensures runs { IfOk result (λ v. reverse v.items ≡ shortest.runs ts.now) }
{
    let mut runs = Vec::new(alloc);
    let mut left = ts.len();
    while left > 0 {
        left -= 1;
        add_local(&mut runs, ts[left])?;
    }
    Ok(runs)
}

/// Puts runs of locals, the last of the list first, without their count.
#[tactic(auto, using(crate::proofs::Locals::run_next, crate::proofs::Locals::run_over))]
fn put_runs(out: &mut Vec<u8>, runs: Vec<(u32, ValType)>) -> Result<(), AllocError>
    ensures puts { OnOk result (Puts out.old.items out.new.items (shortest.put_all shortest.put_run (reverse runs.items))) }
{
    let mut runs = runs;
    while let Some((count, t)) = runs.pop() {
        put_u32(out, count)?;
        put_val_type(out, t)?;
    }
    Ok(())
}

/// Puts the locals of a body: each run of equal types as one count.
#[tactic(auto, unfolding(wasm_core::specs::ShortestBytes::put_locals), using(crate::proofs::Locals::runs_length))]
fn put_locals(alloc: Global, out: &mut Vec<u8>, ts: &[ValType]) -> Result<(), AllocError>
    requires fits { length ts.now ≤ 50000 }
    ensures puts { OnOk result (Puts out.old.items out.new.items (shortest.put_locals ts.now)) }
{
    let runs = runs_of(alloc, ts)?;
    put_u32(out, runs.len() as u32)?;
    put_runs(out, runs)
}

/// Puts a part: its size and its bytes.
#[tactic(auto, using(crate::proofs::Putting::sized_passes))]
pub fn put_part(out: &mut Vec<u8>, part: &[u8]) -> Result<(), EncodeFault>
    ensures puts { PutsUnless result out.old.items out.new.items (shortest.put_sized part.now) }
{
    if part.len() > MOST_BYTES {
        return Err(EncodeFault::ModuleBytes);
    }
    put_u32(out, part.len() as u32)?;
    put_bytes(out, part)?;
    Ok(())
}

/// Puts the body of a function.
#[tactic(auto, unfolding(wasm_core::specs::ShortestBytes::body_bytes), using(crate::proofs::Putting::from_nothing, crate::proofs::Locals::all_instrs))]
fn put_body(alloc: Global, out: &mut Vec<u8>, b: &Body) -> Result<(), EncodeFault>
    requires fits { IsBody b.now }
    ensures puts { PutsUnless result out.old.items out.new.items (shortest.put_body b.now) }
{
    let mut part = Vec::new(alloc);
    put_locals(alloc, &mut part, b.locals.as_slice())?;
    put_instrs(&mut part, b.code.as_slice())?;
    put_part(out, &part)
}

/// Puts bodies, without their count.
#[tactic(auto, using(crate::proofs::Putting::all_next, crate::proofs::Putting::all_over, crate::proofs::Putting::all_at))]
pub fn put_bodies(alloc: Global, out: &mut Vec<u8>, bs: &[Body]) -> Result<(), EncodeFault>
    requires fits { All IsBody bs.now }
    ensures puts { PutsUnless result out.old.items out.new.items (shortest.put_all shortest.put_body bs.now) }
{
    for b in bs {
        put_body(alloc, out, b)?;
    }
    Ok(())
}

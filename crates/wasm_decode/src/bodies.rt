//! Instructions and bodies (WebAssembly Core Specification, sections 5.4 and 5.5.13).

ghost use Rattle.std.specs.Prelude.{◌≡◌, ℕ, ◌+◌, ◌<◌, ◌≤◌, ◌^◌, List, [], ◌∷◌, length, OnOk, Some, None, Ok, Err, false, true, map, ◌++◌, replicate, reverse};
ghost use Rattle.wasm_core.specs.ModuleCondition.{opens_after};
ghost use Rattle.wasm_core.specs.ModuleGrammar as grammar;
ghost use Rattle.wasm_decode.specs.Reads.{Reads, Passes, TakesByte, TakesNumber, TakesPart, Finishes};
ghost use Rattle.wasm_decode.specs.Reading.{ReadsInstrs};

use crate::cursor::Cursor;
use crate::declarations::indices;
use crate::items::{byte, finish, part, s32, s64, take, take_number, u32};
use crate::types::{block_type, val_type};
use std::alloc::{AllocError, Global};
use wasm_core::{Access, Body, DecodeFault, I32Op, Instr, Instrs, Labels, ValType, ValTypes};

/// How an instruction accesses memory.
#[tactic(auto, unfolding(wasm_core::specs::ModuleGrammar::access))]
fn access(c: &mut Cursor) -> Result<Access, DecodeFault>
    ensures reads { Reads result c.old c.new grammar.access (λ x. x) }
{
    let align = u32(c)?;
    let offset = u32(c)?;
    Ok(Access { align, offset })
}

/// The operation on 32-bit integers that has this opcode.
fn operation(b: u8) -> Option<I32Op>
    ensures is { result ≡ grammar.find b grammar.operations }
{
    match b {
        0x45 => Some(I32Op::Eqz),
        0x46 => Some(I32Op::Eq),
        0x47 => Some(I32Op::Ne),
        0x48 => Some(I32Op::LtS),
        0x49 => Some(I32Op::LtU),
        0x4A => Some(I32Op::GtS),
        0x4B => Some(I32Op::GtU),
        0x4C => Some(I32Op::LeS),
        0x4D => Some(I32Op::LeU),
        0x4E => Some(I32Op::GeS),
        0x4F => Some(I32Op::GeU),
        0x6A => Some(I32Op::Add),
        0x6B => Some(I32Op::Sub),
        0x6C => Some(I32Op::Mul),
        0x71 => Some(I32Op::And),
        0x72 => Some(I32Op::Or),
        0x73 => Some(I32Op::Xor),
        0x74 => Some(I32Op::Shl),
        0x75 => Some(I32Op::ShrS),
        0x76 => Some(I32Op::ShrU),
        _ => None,
    }
}

/// An instruction, in a block where an `else` may come or not.
#[tactic(auto, unfolding(wasm_core::specs::ModuleGrammar::instr, wasm_core::specs::ModuleGrammar::row))]
fn instr(alloc: Global, c: &mut Cursor, may_else: bool) -> Result<Instr, DecodeFault>
    ensures reads { Reads result c.old c.new (grammar.instr may_else) (λ x. x) }
{
    let start = c.at;
    match take(c)? {
        0x00 => Ok(Instr::Unreachable),
        0x01 => Ok(Instr::Nop),
        0x02 => Ok(Instr::Block(block_type(c)?)),
        0x03 => Ok(Instr::Loop(block_type(c)?)),
        0x04 => Ok(Instr::If(block_type(c)?)),
        0x05 if may_else => Ok(Instr::Else),
        0x0B => Ok(Instr::End),
        0x0C => Ok(Instr::Br(u32(c)?)),
        0x0D => Ok(Instr::BrIf(u32(c)?)),
        0x0E => {
            let labels = indices(alloc, c)?;
            let otherwise = u32(c)?;
            Ok(Instr::BrTable(otherwise, Labels::of(alloc, labels)?))
        }
        0x0F => Ok(Instr::Return),
        0x10 => Ok(Instr::Call(u32(c)?)),
        0x11 => {
            let ty = u32(c)?;
            let table = u32(c)?;
            Ok(Instr::CallIndirect(ty, table))
        }
        0x12 => Ok(Instr::ReturnCall(u32(c)?)),
        0x13 => {
            let ty = u32(c)?;
            let table = u32(c)?;
            Ok(Instr::ReturnCallIndirect(ty, table))
        }
        0x1A => Ok(Instr::Drop),
        0x20 => Ok(Instr::LocalGet(u32(c)?)),
        0x21 => Ok(Instr::LocalSet(u32(c)?)),
        0x22 => Ok(Instr::LocalTee(u32(c)?)),
        0x23 => Ok(Instr::GlobalGet(u32(c)?)),
        0x24 => Ok(Instr::GlobalSet(u32(c)?)),
        0x28 => Ok(Instr::I32Load(access(c)?)),
        0x2D => Ok(Instr::I32Load8U(access(c)?)),
        0x36 => Ok(Instr::I32Store(access(c)?)),
        0x3A => Ok(Instr::I32Store8(access(c)?)),
        0x3F => {
            byte(c, 0x00)?;
            Ok(Instr::MemorySize)
        }
        0x40 => {
            byte(c, 0x00)?;
            Ok(Instr::MemoryGrow)
        }
        0x41 => Ok(Instr::I32Const(s32(c)?)),
        0x42 => Ok(Instr::I64Const(s64(c)?)),
        b => match operation(b) {
            Some(op) => Ok(Instr::I32(op)),
            None => Err(DecodeFault::Bad { offset: start }),
        },
    }
}

/// Puts a local's type that many times.
#[tactic(auto, using(crate::proofs::Listing::replicate_push, crate::proofs::Listing::replicate_none))]
fn push_all(found: &mut Vec<ValType>, count: u32, t: ValType) -> Result<(), AllocError>
    ensures pushed { OnOk result (found.new.items ≡ found.old.items ++ replicate count t) }
{
    for _ in 0..count {
        found.push(t)?;
    }
    Ok(())
}

/// The locals of a body, in groups of one type. `Bad` comes at the count with which they would be over 50,000.
#[tactic(auto, unfolding(wasm_core::specs::ModuleGrammar::locals), using(crate::proofs::Listing::group_next, crate::proofs::Listing::group_over, crate::proofs::Listing::fits_few, crate::proofs::Listing::few_more))]
fn locals(alloc: Global, c: &mut Cursor) -> Result<Vec<ValType>, DecodeFault>
    ensures reads { Reads result c.old c.new grammar.locals (λ v. v.items) }
{
    let mut left = u32(c)?;
    let mut found = Vec::new(alloc);
    while left > 0 {
        let start = c.at;
        let count = take_number(c, false)?;
        if count as usize > 50_000 - found.len() {
            return Err(DecodeFault::Bad { offset: start });
        }
        let t = val_type(c)?;
        push_all(&mut found, count, t)?;
        left -= 1;
    }
    found.shrink_to_fit();
    Ok(found)
}

/// Opens and closes blocks as an instruction in the innermost one does, which is taken off already. The innermost block is the last of the list.
#[tactic(auto, using(crate::proofs::Opens::opened, crate::proofs::Opens::opened_twice))]
fn follow(opens: &mut Vec<bool>, may_else: bool, i: &Instr) -> Result<(), AllocError>
    ensures opens { OnOk result (reverse opens.new.items ≡ opens_after i.now (may_else ∷ reverse opens.old.items)) }
{
    match i {
        Instr::Block(_) | Instr::Loop(_) => {
            opens.push(may_else)?;
            opens.push(false)?;
        }
        Instr::If(_) => {
            opens.push(may_else)?;
            opens.push(true)?;
        }
        Instr::Else => {
            opens.push(false)?;
        }
        Instr::End => {}
        _ => {
            opens.push(may_else)?;
        }
    }
    Ok(())
}

/// The instructions up to the `end` of the body. Nesting is kept as a list of the open blocks: of each, whether its `else` may still come.
#[tactic(auto, using(crate::proofs::Opens::instructed, crate::proofs::Opens::begun, crate::proofs::Opens::ended, crate::proofs::Opens::failed))]
fn instrs(alloc: Global, c: &mut Cursor) -> Result<Vec<Instr>, DecodeFault>
    ensures reads { ReadsInstrs result c.old c.new (λ v. v.items) }
{
    let mut opens = Vec::new(alloc);
    opens.push(false)?;
    let mut code = Vec::new(alloc);
    while let Some(may_else) = opens.pop() {
        let i = instr(alloc, c, may_else)?;
        follow(&mut opens, may_else, &i)?;
        code.push(i)?;
    }
    code.shrink_to_fit();
    Ok(code)
}

/// The body of a function: its size, its locals, its instructions.
#[tactic(auto, unfolding(wasm_core::specs::ModuleGrammar::body))]
fn body(alloc: Global, c: &mut Cursor) -> Result<Body, DecodeFault>
    ensures reads { Reads result c.old c.new grammar.body (λ x. x) }
{
    let mut inside = part(c)?;
    let locals = locals(alloc, &mut inside)?;
    let code = instrs(alloc, &mut inside)?;
    finish(&inside)?;
    Ok(Body {
        locals: ValTypes::of(locals),
        code: Instrs::of(code),
    })
}

/// As many bodies as there are functions. `Bad` comes at another count.
#[tactic(auto, unfolding(wasm_core::specs::ModuleGrammar::bodies), using(crate::proofs::Listing::judged_next, crate::proofs::Listing::judged_over))]
pub fn bodies(alloc: Global, c: &mut Cursor, funcs: usize) -> Result<Vec<Body>, DecodeFault>
    ensures reads { Reads result c.old c.new (grammar.bodies funcs) (λ v. v.items) }
{
    let start = c.at;
    let mut left = take_number(c, false)?;
    if left as usize != funcs {
        return Err(DecodeFault::Bad { offset: start });
    }
    let mut found = Vec::new(alloc);
    while left > 0 {
        let one = body(alloc, c)?;
        found.push(one)?;
        left -= 1;
    }
    found.shrink_to_fit();
    Ok(found)
}

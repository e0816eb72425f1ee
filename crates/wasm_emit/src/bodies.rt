//! The bodies of functions: of so many locals, and those of the run time's two functions.
ghost use Rattle.std.specs.Prelude.{◌≡◌, IfOk, IfErr};
ghost use Rattle.wasm_emit.specs.EmittedModule.{room_function, body, box_function};
ghost use Rattle.wasm_emit.specs.declared.fault.EmitFault.TheVariants.{Memory};

use crate::fault::EmitFault;
use std::alloc::Global;
use wasm_core::{BlockType, Body, I32Op, Instr, Instrs, ValType, ValTypes};

/// A body of so many locals, all words.
pub fn body_of(alloc: Global, locals: u32, code: Vec<Instr>) -> Result<Body, EmitFault>
    ensures is { IfOk result (λ b. b ≡ body locals code.items) }
    ensures only_memory { IfErr result (λ e. e ≡ Memory) }
{
    let mut types = Vec::new(alloc);
    for _ in 0..locals {
        types.push(ValType::I32)?;
    }
    Ok(Body {
        locals: ValTypes::of(types),
        code: Instrs::of(code),
    })
}

/// The function that makes memory grow by a page; where that is refused the status is 1 and the run traps.
pub fn room_body(alloc: Global) -> Result<Body, EmitFault>
    ensures is { IfOk result (λ b. b ≡ room_function) }
    ensures only_memory { IfErr result (λ e. e ≡ Memory) }
{
    let code = vec![in alloc;
        Instr::I32Const(1),
        Instr::MemoryGrow,
        Instr::I32Const(u32::MAX),
        Instr::I32(I32Op::Eq),
        Instr::GlobalSet(1),
        Instr::GlobalGet(1),
        Instr::If(BlockType::Empty),
        Instr::Unreachable,
        Instr::End,
        Instr::End,
    ]?;
    body_of(alloc, 0, code)
}

/// The function of box, which answers box.
pub fn box_body(alloc: Global) -> Result<Body, EmitFault>
    ensures is { IfOk result (λ b. b ≡ box_function) }
    ensures only_memory { IfErr result (λ e. e ≡ Memory) }
{
    let code = vec![in alloc; Instr::I32Const(0), Instr::End]?;
    body_of(alloc, 0, code)
}

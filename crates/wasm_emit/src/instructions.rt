//! Instructions in front of what comes after them, and the words of blocks of memory.
ghost use Rattle.std.specs.Prelude.{◌≡◌, ◌∷◌, ◌+◌, ◌*◌, IfOk, IfErr, OnOk};
ghost use Rattle.wasm_core.specs.declared.instrs.I32Op.TheVariants as op32;
ghost use Rattle.wasm_core.specs.declared.instrs.Instr.TheVariants as instr;
ghost use Rattle.wasm_emit.specs.EmittedCode.{Load, StoreWord, ConstWord, IfWord, ensure_room};
ghost use Rattle.wasm_emit.specs.Pushed.{Pushed, ends};
ghost use Rattle.wasm_emit.specs.declared.fault.EmitFault.TheVariants.{Memory};

use crate::fault::EmitFault;
use wasm_core::{Access, BlockType, I32Op, Instr, ValType};

/// One instruction more. Only `Memory`.
pub fn push(out: &mut Vec<Instr>, i: Instr) -> Result<(), EmitFault>
    ensures pushed { OnOk result (Pushed out.old.items out.new.items (λ rest. i ∷ rest)) }
    ensures only_memory { IfErr result (λ e. e ≡ Memory) }
{
    out.push(i)?;
    Ok(())
}

/// The word at the offset behind the address on the operands. Only `Memory`.
pub fn push_load(out: &mut Vec<Instr>, offset: u32) -> Result<(), EmitFault>
    ensures pushed { OnOk result (Pushed out.old.items out.new.items (λ rest. Load offset ∷ rest)) }
    ensures only_memory { IfErr result (λ e. e ≡ Memory) }
{
    push(out, Instr::I32Load(Access { align: 2, offset }))
}

/// Puts the word on the operands at the offset behind the address below it. Only `Memory`.
pub fn push_store(out: &mut Vec<Instr>, offset: u32) -> Result<(), EmitFault>
    ensures pushed { OnOk result (Pushed out.old.items out.new.items (λ rest. StoreWord offset ∷ rest)) }
    ensures only_memory { IfErr result (λ e. e ≡ Memory) }
{
    push(out, Instr::I32Store(Access { align: 2, offset }))
}

/// The word of a constructor without arguments. A word past 32 bits, which no program of the form has, is `Memory`.
pub fn empty_word(c: u32) -> Result<u32, EmitFault>
    ensures is { IfOk result (λ w. w ≡ 2 * c + 1) }
    ensures only_memory { IfErr result (λ e. e ≡ Memory) }
{
    match u32::try_from(2 * (c as u64) + 1) {
        Ok(w) => Ok(w),
        Err(_) => Err(EmitFault::Memory),
    }
}

/// The first word of a constructor's block. A word past 32 bits, which no program of the form has, is `Memory`.
pub fn header_word(c: u32, fields: u32) -> Result<u32, EmitFault>
    ensures is { IfOk result (λ w. w ≡ fields * 65536 + c) }
    ensures only_memory { IfErr result (λ e. e ≡ Memory) }
{
    match u32::try_from((fields as u64) * 65_536 + c as u64) {
        Ok(w) => Ok(w),
        Err(_) => Err(EmitFault::Memory),
    }
}

/// The bytes of so many words. A number past 32 bits, which no program of the form has, is `Memory`.
pub fn bytes_of(words: usize) -> Result<u32, EmitFault>
    ensures is { IfOk result (λ b. b ≡ 4 * words) }
    ensures only_memory { IfErr result (λ e. e ≡ Memory) }
{
    let Some(bytes) = words.checked_mul(4) else {
        return Err(EmitFault::Memory);
    };
    match u32::try_from(bytes) {
        Ok(b) => Ok(b),
        Err(_) => Err(EmitFault::Memory),
    }
}

/// Puts the end of the heap into local d, and moves it on by so many bytes, where memory is or is made. Only `Memory`.
pub fn push_address(d: u32, bytes: u32, out: &mut Vec<Instr>) -> Result<(), EmitFault>
    ensures pushed { OnOk result (Pushed out.old.items out.new.items (λ rest. instr.GlobalGet 2 ∷ instr.LocalTee d ∷ ConstWord bytes ∷ instr.I32 op32.Add ∷ instr.GlobalSet 2 ∷ ensure_room rest)) }
    ensures only_memory { IfErr result (λ e. e ≡ Memory) }
{
    push(out, Instr::GlobalGet(2))?;
    push(out, Instr::LocalTee(d))?;
    push(out, Instr::I32Const(bytes))?;
    push(out, Instr::I32(I32Op::Add))?;
    push(out, Instr::GlobalSet(2))?;
    push_room(out)
}

/// Compares the end of the heap with memory's, and calls function 0 where memory must grow. Only `Memory`.
fn push_room(out: &mut Vec<Instr>) -> Result<(), EmitFault>
    ensures pushed { OnOk result (Pushed out.old.items out.new.items ensure_room) }
    ensures only_memory { IfErr result (λ e. e ≡ Memory) }
{
    push(out, Instr::GlobalGet(2))?;
    push(out, Instr::MemorySize)?;
    push(out, Instr::I32Const(16))?;
    push(out, Instr::I32(I32Op::Shl))?;
    push(out, Instr::I32(I32Op::GtU))?;
    push(out, Instr::If(BlockType::Empty))?;
    push(out, Instr::Call(0))?;
    push(out, Instr::End)
}

/// So many ends. Only `Memory`.
pub fn push_ends(n: usize, out: &mut Vec<Instr>) -> Result<(), EmitFault>
    ensures pushed { OnOk result (Pushed out.old.items out.new.items (ends n)) }
    ensures only_memory { IfErr result (λ e. e ≡ Memory) }
{
    for _ in 0..n {
        push(out, Instr::End)?;
    }
    Ok(())
}

/// Compares the two words on the operands, and begins an arm that leaves a word. Only `Memory`.
pub fn push_test(out: &mut Vec<Instr>) -> Result<(), EmitFault>
    ensures pushed { OnOk result (Pushed out.old.items out.new.items (λ rest. instr.I32 op32.Eq ∷ IfWord ∷ rest)) }
    ensures only_memory { IfErr result (λ e. e ≡ Memory) }
{
    push(out, Instr::I32(I32Op::Eq))?;
    push(out, Instr::If(BlockType::Value(ValType::I32)))
}

//! The parts of a module outside its functions: types, exports, globals, and the table's segment.
ghost use Rattle.std.specs.Prelude.{◌≡◌, ◌+◌, ◌++◌, ◌∷◌, ◌≤◌, [], IfOk, IfErr, OnOk, replicate, length};
ghost use Rattle.closure_lift.specs.LiftedProgram.{lifted_of};
ghost use Rattle.wasm_core.specs.declared.types.ValType.TheVariants as type;
ghost use Rattle.wasm_emit.specs.CallModule.{call_exports, call_globals};
ghost use Rattle.wasm_emit.specs.EmittedModule.{entries, word_global as global_word};
ghost use Rattle.wasm_emit.specs.Emission.{exports_with};
ghost use Rattle.wasm_emit.specs.declared.fault.EmitFault.TheVariants.{Memory};

use crate::fault::EmitFault;
use closure_lift::program::Lifted;
use std::alloc::Global;
use wasm_core::{
    Bytes, ConstValue, Export, ExportKind, Exports, FuncType, GlobalDef, GlobalDefs, Numbers,
    Segment, Segments, ValType, ValTypes,
};

/// A function type of so many words that gives a word or nothing.
pub fn type_of(alloc: Global, params: u32, gives: Option<ValType>) -> Result<FuncType, EmitFault>
    ensures is { IfOk result (λ t. t ≡ record { params = replicate params type.I32; result = gives }) }
    ensures only_memory { IfErr result (λ e. e ≡ Memory) }
{
    let mut types = Vec::new(alloc);
    for _ in 0..params {
        types.push(ValType::I32)?;
    }
    Ok(FuncType {
        params: ValTypes::of(types),
        result: gives,
    })
}

/// So many times the same number, behind those that are there.
pub fn push_times(items: &mut Vec<u32>, n: usize, x: u32) -> Result<(), EmitFault>
    ensures pushed { OnOk result (items.new.items ≡ items.old.items ++ replicate n x) }
    ensures only_memory { IfErr result (λ e. e ≡ Memory) }
{
    for _ in 0..n {
        items.push(x)?;
    }
    Ok(())
}

/// An export.
fn export_of(alloc: Global, name: &[u8], kind: ExportKind, index: u32) -> Result<Export, EmitFault>
    ensures is { IfOk result (λ e. e ≡ record { name = name.now; kind = kind; index = index }) }
    ensures only_memory { IfErr result (λ e. e ≡ Memory) }
{
    let name = Vec::from_slice(alloc, name)?;
    Ok(Export {
        name: Bytes::of(name),
        kind,
        index,
    })
}

/// The exports of every emitted module, with the index of main.
fn first_exports(alloc: Global, main: u32) -> Result<Vec<Export>, EmitFault>
    ensures is { IfOk result (λ es. es.items ≡ exports_with main) }
    ensures only_memory { IfErr result (λ e. e ≡ Memory) }
{
    let main = export_of(alloc, b"main", ExportKind::Func, main)?;
    let memory = export_of(alloc, b"memory", ExportKind::Memory, 0)?;
    let result = export_of(alloc, b"result", ExportKind::Global, 0)?;
    let status = export_of(alloc, b"status", ExportKind::Global, 1)?;
    let items = vec![in alloc; main, memory, result, status]?;
    Ok(items)
}

/// The exports, with the index of main.
pub fn exports_of(alloc: Global, main: u32) -> Result<Exports, EmitFault>
    ensures is { IfOk result (λ es. es ≡ exports_with main) }
    ensures only_memory { IfErr result (λ e. e ≡ Memory) }
{
    let items = first_exports(alloc, main)?;
    Ok(Exports::of(items))
}

/// The exports of a module for calls, with the index of main: the end of the heap and the address of the arguments are given out too.
pub fn call_exports_of(alloc: Global, main: u32) -> Result<Exports, EmitFault>
    ensures is { IfOk result (λ es. es ≡ exports_with main ++ call_exports) }
    ensures only_memory { IfErr result (λ e. e ≡ Memory) }
{
    let mut items = first_exports(alloc, main)?;
    let heap = export_of(alloc, b"heap", ExportKind::Global, 2)?;
    items.push(heap)?;
    let args = export_of(alloc, b"args", ExportKind::Global, 3)?;
    items.push(args)?;
    Ok(Exports::of(items))
}

/// A global that can be set, with its first word.
fn word_global(word: u32) -> GlobalDef
    ensures is { result ≡ global_word word }
{
    GlobalDef {
        mutable: true,
        ty: ValType::I32,
        init: ConstValue::I32(word),
    }
}

/// The table's only segment: from its start on the functions from 1 on, so many.
pub fn elements_of(alloc: Global, n: u32) -> Result<Segments, EmitFault>
    ensures is { IfOk result (λ ss. ss ≡ record { offset = 0; funcs = entries 1 n } ∷ []) }
    ensures only_memory { IfErr result (λ e. e ≡ Memory) }
{
    let mut funcs = Vec::new(alloc);
    for k in 0..n {
        funcs.push(k + 1)?;
    }
    let segment = Segment {
        offset: 0,
        funcs: Numbers::of(funcs),
    };
    let items = vec![in alloc; segment]?;
    Ok(Segments::of(items))
}

/// The globals: the result and the status, which are 0 at first, and the end of the heap, which begins at byte 8.
pub fn globals_of(alloc: Global) -> Result<GlobalDefs, EmitFault>
    ensures is { IfOk result (λ gs. gs ≡ global_word 0 ∷ global_word 0 ∷ global_word 8 ∷ []) }
    ensures only_memory { IfErr result (λ e. e ≡ Memory) }
{
    let items = vec![in alloc; word_global(0), word_global(0), word_global(8)]?;
    Ok(GlobalDefs::of(items))
}

/// The globals of a module for calls: those of every module, and the address of the arguments.
pub fn call_globals_of(alloc: Global) -> Result<GlobalDefs, EmitFault>
    ensures is { IfOk result (λ gs. gs ≡ global_word 0 ∷ global_word 0 ∷ global_word 8 ∷ call_globals) }
    ensures only_memory { IfErr result (λ e. e ≡ Memory) }
{
    let items = vec![in alloc;
        word_global(0),
        word_global(0),
        word_global(8),
        word_global(0),
    ]?;
    Ok(GlobalDefs::of(items))
}

/// The number of the table's entries: one for box, and one for each function of the program.
pub fn entry_count(p: &Lifted) -> u32
    requires few { length ((lifted_of p.now).functions) ≤ 32768 }
    ensures is { result ≡ length ((lifted_of p.now).functions) + 1 }
{
    p.functions.as_slice().len() as u32 + 1
}

//! The module of a lifted program, with workers.
ghost use Rattle.std.specs.Prelude.{◌≡◌, ◌+◌, ◌++◌, ◌∷◌, ◌≤◌, [], if◌then◌else◌, IfOk, IfErr, OnOk, length, max, nat_le, suc};
ghost use Rattle.closure_lift.specs.LiftedProgram.{lifted_of};
ghost use Rattle.wasm_core.specs.ModuleCondition.{IsModule};
ghost use Rattle.wasm_core.specs.ModuleTyping.{IsValid};
ghost use Rattle.wasm_emit.specs.Emission.{Emits};
ghost use Rattle.wasm_emit.specs.EmittedBodies.{FewLocals, MemoryOrNot};
ghost use Rattle.wasm_emit.specs.EmittedModule.{type_main, type_constant, type_function};
ghost use Rattle.wasm_emit.specs.declared.fault.EmitFault.TheVariants.{Memory};
ghost use Rattle.known_calls.specs.KnownCalls.{module_of_call};
ghost use Rattle.known_calls.specs.KnownEmission.{parts_with, worker_types};
ghost use Rattle.known_calls.specs.KnownModule.{module_of, widest_worker as widest, words_types};

use crate::bodies::{all_bodies, all_call_bodies, is_wide};
use closure_lift::program::{Function, Lifted};
use std::alloc::Global;
use wasm_core::{
    Bodies, Body, Exports, FuncType, FuncTypes, GlobalDefs, Limits, Module, Numbers, ValType, Valid,
};
use wasm_emit::EmitFault;
use wasm_emit::functions::function_index;
use wasm_emit::parts::{
    call_exports_of, call_globals_of, elements_of, entry_count, exports_of, globals_of, push_times,
    type_of,
};

/// The types of workers of n numbers of captured words, from 0 on, behind those that are there. Only `Memory`.
fn push_words_types(alloc: Global, types: &mut Vec<FuncType>, n: u32) -> Result<(), EmitFault>
    ensures pushed { OnOk result (types.new.items ≡ types.old.items ++ words_types 0 n) }
    ensures only_memory { IfErr result (λ e. e ≡ Memory) }
{
    for k in 0..n {
        let of = type_of(alloc, k + 1, Some(ValType::I32))?;
        types.push(of)?;
    }
    Ok(())
}

/// How many types workers have: one more than the most captured words of one, 0 where there is none.
fn widest_worker(p: &Lifted) -> u32
    ensures is { result ≡ widest ((lifted_of p.now).functions) }
{
    let mut most = 0;
    for f in p.functions.as_slice() {
        most = wider(f, most);
    }
    most
}

/// So many types, or those up to that of the function's worker where these are more.
fn wider(f: &Function, most: u32) -> u32
    ensures is { result ≡ (if nat_le 8 f.now.captured then most else max (suc f.now.captured) most) }
{
    if is_wide(f) {
        most
    } else {
        (f.captured + 1).max(most)
    }
}

/// The types of main and of the function that makes room, of a constant's function, of the entries, and of the workers by their captured words.
fn types_of(alloc: Global, p: &Lifted) -> Result<FuncTypes, EmitFault>
    ensures is { IfOk result (λ ts. ts ≡ type_main ∷ type_constant ∷ type_function ∷ words_types 0 (widest ((lifted_of p.now).functions))) }
    ensures only_memory { IfErr result (λ e. e ≡ Memory) }
{
    let main = type_of(alloc, 0, None)?;
    let constant = type_of(alloc, 0, Some(ValType::I32))?;
    let function = type_of(alloc, 2, Some(ValType::I32))?;
    let mut items = vec![in alloc; main, constant, function]?;
    push_words_types(alloc, &mut items, widest_worker(p))?;
    Ok(FuncTypes::of(items))
}

/// The number of the type of a function's worker; 0 where it has none.
fn type_of_worker(f: &Function) -> u32
    ensures is { result ≡ (if nat_le 8 f.now.captured then 0 else (f.now.captured + 3)) }
{
    if is_wide(f) { 0 } else { f.captured + 3 }
}

/// The type index of each worker, behind those that are there. Only `Memory`.
fn push_worker_types(p: &Lifted, items: &mut Vec<u32>) -> Result<(), EmitFault>
    ensures pushed { OnOk result (items.new.items ≡ items.old.items ++ worker_types ((lifted_of p.now).functions)) }
    ensures only_memory { IfErr result (λ e. e ≡ Memory) }
{
    for f in p.functions.as_slice() {
        items.push(type_of_worker(f))?;
    }
    Ok(())
}

/// The type index of each function.
fn funcs_of(alloc: Global, p: &Lifted) -> Result<Numbers, EmitFault>
    ensures is { IfOk result (λ ns. ns ≡ ((module_of (lifted_of p.now) 0).funcs)) }
    ensures only_memory { IfErr result (λ e. e ≡ Memory) }
{
    let mut items = vec![in alloc; 0, 2]?;
    push_times(&mut items, p.functions.as_slice().len(), 2)?;
    push_times(&mut items, p.constants.len(), 1)?;
    items.push(0)?;
    push_worker_types(p, &mut items)?;
    Ok(Numbers::of(items))
}

/// The module with these bodies, globals and exports: its types, functions, table, memory and segment are those of every module of the program.
fn assembled(
    alloc: Global,
    p: &Lifted,
    bodies: Vec<Body>,
    globals: GlobalDefs,
    exports: Exports,
    pages: u32,
) -> Result<Module, EmitFault>
    requires few { length ((lifted_of p.now).functions) ≤ 32768 }
    requires module { IsModule (parts_with (lifted_of p.now) bodies.items globals exports pages) }
    ensures is { IfOk result (λ m. m ≡ parts_with (lifted_of p.now) bodies.items globals exports pages) }
    ensures only_memory { IfErr result (λ e. e ≡ Memory) }
{
    let entries = entry_count(p);
    let types = types_of(alloc, p)?;
    let funcs = funcs_of(alloc, p)?;
    let elements = elements_of(alloc, entries)?;
    let table = Limits {
        min: entries,
        max: Some(entries),
    };
    let memory = Limits {
        min: 1,
        max: Some(pages),
    };
    Ok(Module::new(
        types,
        funcs,
        Some(table),
        Some(memory),
        globals,
        exports,
        elements,
        Bodies::of(bodies),
    ))
}

/// The module of a lifted program, which is valid. Its memory has one page of 65,536 bytes at first, and `pages` at most. What its runs answer, and within
/// which bounds, is `known_runs_answer`.
///
/// `Locals` exactly where a function would have over 50,000 locals besides its parameters.
pub fn emit(alloc: Global, p: &Lifted, pages: u32) -> Result<Valid, EmitFault>
    requires form { Emits (lifted_of p.now) }
    requires least { 1 ≤ pages }
    requires greatest { pages ≤ 16384 }
    ensures is { IfOk result (λ v. v ≡ module_of (lifted_of p.now) pages) }
    ensures valid { IfOk result IsValid }
    ensures few { IfOk result (λ _. FewLocals (lifted_of p.now)) }
    ensures refused { IfErr result (λ e. MemoryOrNot e (FewLocals (lifted_of p.now))) }
{
    let bodies = all_bodies(alloc, p)?;
    let main = function_index(p, p.constants.len())?;
    let globals = globals_of(alloc)?;
    let exports = exports_of(alloc, main)?;
    let module = assembled(alloc, p, bodies, globals, exports, pages)?;
    Ok(Valid::of(module))
}

/// The module whose main applies the program's main to `k` arguments, which a host stores before the run; it is valid. It is the module of `emit` with two further
/// globals given out, both i32 and mutable: `heap`, the next free address, which is 8 at first, and `args`, the address of the `k` words of the arguments. What its
/// runs answer, and within which bounds, is `known_calls_of_main_answer`.
///
/// `Locals` exactly where `emit` answers it.
pub fn emit_call(alloc: Global, p: &Lifted, k: u32, pages: u32) -> Result<Valid, EmitFault>
    requires form { Emits (lifted_of p.now) }
    requires some { 1 ≤ k }
    requires most { k ≤ 255 }
    requires least { 1 ≤ pages }
    requires greatest { pages ≤ 16384 }
    ensures is { IfOk result (λ v. v ≡ module_of_call (lifted_of p.now) k pages) }
    ensures valid { IfOk result IsValid }
    ensures few { IfOk result (λ _. FewLocals (lifted_of p.now)) }
    ensures refused { IfErr result (λ e. MemoryOrNot e (FewLocals (lifted_of p.now))) }
{
    let bodies = all_call_bodies(alloc, p, k)?;
    let main = function_index(p, p.constants.len())?;
    let globals = call_globals_of(alloc)?;
    let exports = call_exports_of(alloc, main)?;
    let module = assembled(alloc, p, bodies, globals, exports, pages)?;
    Ok(Valid::of(module))
}

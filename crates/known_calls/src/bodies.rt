//! The bodies of the functions of a module: the run time's, the entries and workers of the program's functions, its constants', and main's.
ghost use Rattle.std.specs.Prelude.{◌≡◌, ◌-◌, ◌++◌, ◌∷◌, ◌≤◌, [], IfOk, IfErr, OnOk, map, nat_le, reverse};
ghost use Rattle.closure_lift.specs.LiftedProgram.{renumber, place_in, lifted_of};
ghost use Rattle.wasm_core.specs.ModuleCondition.{All};
ghost use Rattle.wasm_emit.specs.ConstantNumbers.{AreNumbered};
ghost use Rattle.wasm_emit.specs.EmittedLocals.{top};
ghost use Rattle.wasm_emit.specs.EmittedBodies.{FewInFunction, FewInBlock, FewLocals, MemoryOrNot};
ghost use Rattle.wasm_emit.specs.EmittedModule.{body};
ghost use Rattle.wasm_emit.specs.Pushed.{Pushed, function_in, MemoryOrLocals};
ghost use Rattle.wasm_emit.specs.declared.fault.EmitFault.TheVariants.{Memory};
ghost use Rattle.wasm_core.specs.declared.instrs.Instr.TheVariants.{End, Loop, Unreachable};
ghost use Rattle.wasm_core.specs.declared.instrs.BlockType.TheVariants.{Value};
ghost use Rattle.wasm_core.specs.declared.types.ValType.TheVariants as type;
ghost use Rattle.known_calls.specs.KnownModule.{constant, entry, main_function, numbered, stub_code, wide_body as wide_function, worker, worker_code as code_of_worker};
ghost use Rattle.known_calls.specs.KnownCalls.{call_function};
ghost use Rattle.known_calls.specs.KnownEmission.{bodies_before_main as bodies_before, bodies_with};
ghost use Rattle.known_calls.specs.KnownPushed.{block_code};

use crate::blocks::push_block;
use crate::calls::{push_arguments, worker_index};
use crate::instructions::push_captured;
use crate::marks::marks_of;
use crate::places::{Place, push_field_places, push_params};
use crate::site::{Position, Site};
use crate::words::Word;
use closure_lift::program::{Function, Lifted, LiftedBlock};
use std::alloc::Global;
use std::collections::HashMap;
use wasm_core::{BlockType, Body, Instr, ValType};
use wasm_emit::EmitFault;
use wasm_emit::bodies::{body_of, box_body, room_body};
use wasm_emit::instructions::push;
use wasm_emit::locals::locals_of_block;
use wasm_emit::numbers::numbers_of;

/// The greatest number of locals of a function besides its parameters.
const MOST_LOCALS: u32 = 50_000;

/// A function of more captured words has no worker.
const MOST_CAPTURED: u32 = 7;

/// Puts the value of a block on the operands, which stands under no other one; the places are those of the variables, the innermost last. Only `Memory`.
fn push_whole(
    p: &Lifted,
    numbers: &HashMap<u32, usize>,
    places: &mut Vec<Place>,
    site: Site,
    b: &LiftedBlock,
    out: &mut Vec<Instr>,
) -> Result<(), EmitFault>
    requires numbered { AreNumbered numbers.now p.now.constants }
    ensures pushed { OnOk result (Pushed out.old.items out.new.items (block_code p.now (reverse places.old.items) site.local site.at b.now)) }
    ensures only_memory { IfErr result (λ e. e ≡ Memory) }
{
    let mut marks = marks_of(*places.allocator(), b)?;
    push_block(p, numbers, places, site, b, &mut marks, out)
}

/// Whether a function has too many captured words for a worker.
pub(crate) fn is_wide(f: &Function) -> bool
    ensures is { result ≡ nat_le 8 f.now.captured }
{
    f.captured > MOST_CAPTURED
}

/// The body of a function that has no worker: its closure is in local 0 and its argument in local 1.
fn wide_body(
    alloc: Global,
    p: &Lifted,
    numbers: &HashMap<u32, usize>,
    f: &Function,
) -> Result<Body, EmitFault>
    requires numbered { AreNumbered numbers.now p.now.constants }
    ensures is { IfOk result (λ b. b ≡ wide_function (lifted_of p.now) (function_in p.now f.now)) }
    ensures refused { IfErr result (λ e. MemoryOrLocals e (top 2 f.now.body - 2)) }
{
    let count = locals_of_block(2, MOST_LOCALS + 2, &f.body)?;
    let mut places = Vec::new(alloc);
    push_field_places(&mut places, 0, f.captured)?;
    places.push(Place::At(Word::Local(1)))?;
    let site = Site {
        local: 2,
        at: Position::Final,
    };
    let mut code = Vec::new(alloc);
    push_whole(p, numbers, &mut places, site, &f.body, &mut code)?;
    push(&mut code, Instr::End)?;
    body_of(alloc, count - 2, code)
}

/// The body of an entry that calls the worker of function g, which has so many captured words, in its own place. Only `Memory`.
fn stub_body(alloc: Global, p: &Lifted, g: u32, captured: u32) -> Result<Body, EmitFault>
    ensures is { IfOk result (λ b. b ≡ body 0 (stub_code (lifted_of p.now) g captured)) }
    ensures only_memory { IfErr result (λ e. e ≡ Memory) }
{
    let index = worker_index(p, g)?;
    let mut code = Vec::new(alloc);
    push_captured(captured, &mut code)?;
    push(&mut code, Instr::LocalGet(1))?;
    push(&mut code, Instr::ReturnCall(index))?;
    push(&mut code, Instr::End)?;
    body_of(alloc, 0, code)
}

/// The body of the entry of function g, which calls of closures come to.
fn entry_body(
    alloc: Global,
    p: &Lifted,
    numbers: &HashMap<u32, usize>,
    g: u32,
    f: &Function,
) -> Result<Body, EmitFault>
    requires numbered { AreNumbered numbers.now p.now.constants }
    ensures is { IfOk result (λ b. b ≡ entry (lifted_of p.now) g (function_in p.now f.now)) }
    ensures refused { IfErr result (λ e. MemoryOrLocals e (top 2 f.now.body - 2)) }
{
    if is_wide(f) {
        wide_body(alloc, p, numbers, f)
    } else {
        stub_body(alloc, p, g, f.captured)
    }
}

/// The body that stands where a function without a worker would have one: a trap. Only `Memory`.
fn trap_body(alloc: Global) -> Result<Body, EmitFault>
    ensures is { IfOk result (λ b. b ≡ body 0 (Unreachable ∷ End ∷ [])) }
    ensures only_memory { IfErr result (λ e. e ≡ Memory) }
{
    let code = vec![in alloc; Instr::Unreachable, Instr::End]?;
    body_of(alloc, 0, code)
}

/// The code of the worker of function g: a loop whose round is the function's body. Only `Memory`.
fn worker_code(
    alloc: Global,
    p: &Lifted,
    numbers: &HashMap<u32, usize>,
    g: u32,
    f: &Function,
) -> Result<Vec<Instr>, EmitFault>
    requires numbered { AreNumbered numbers.now p.now.constants }
    ensures is { IfOk result (λ v. v.items ≡ Loop (Value type.I32) ∷ code_of_worker (lifted_of p.now) g (function_in p.now f.now)) }
    ensures only_memory { IfErr result (λ e. e ≡ Memory) }
{
    let Some(params) = f.captured.checked_add(1) else {
        return Err(EmitFault::Memory);
    };
    let mut places = Vec::new(alloc);
    push_params(&mut places, params)?;
    let site = Site {
        local: params,
        at: Position::InTail(g, 0),
    };
    let mut code = Vec::new(alloc);
    push(&mut code, Instr::Loop(BlockType::Value(ValType::I32)))?;
    push_whole(p, numbers, &mut places, site, &f.body, &mut code)?;
    push(&mut code, Instr::End)?;
    push(&mut code, Instr::End)?;
    Ok(code)
}

/// The body of the worker of function g.
fn worker_body(
    alloc: Global,
    p: &Lifted,
    numbers: &HashMap<u32, usize>,
    g: u32,
    f: &Function,
) -> Result<Body, EmitFault>
    requires numbered { AreNumbered numbers.now p.now.constants }
    ensures is { IfOk result (λ b. b ≡ worker (lifted_of p.now) g (function_in p.now f.now)) }
    ensures few { IfOk result (λ _. top 2 f.now.body - 2 ≤ 50000) }
    ensures refused { IfErr result (λ e. MemoryOrLocals e (top 2 f.now.body - 2)) }
{
    let count = locals_of_block(2, MOST_LOCALS + 2, &f.body)?;
    if is_wide(f) {
        return trap_body(alloc);
    }
    let code = worker_code(alloc, p, numbers, g, f)?;
    body_of(alloc, count - 2, code)
}

/// The body of a constant's function.
fn constant_body(
    alloc: Global,
    p: &Lifted,
    numbers: &HashMap<u32, usize>,
    b: &LiftedBlock,
) -> Result<Body, EmitFault>
    requires numbered { AreNumbered numbers.now p.now.constants }
    ensures is { IfOk result (λ x. x ≡ constant (lifted_of p.now) (renumber (place_in p.now.constants) b.now)) }
    ensures few { IfOk result (λ _. top 0 b.now ≤ 50000) }
    ensures refused { IfErr result (λ e. MemoryOrLocals e (top 0 b.now)) }
{
    let count = locals_of_block(0, MOST_LOCALS, b)?;
    let mut code = code_of(alloc, p, numbers, Position::Final, b)?;
    push(&mut code, Instr::End)?;
    body_of(alloc, count, code)
}

/// The code of a block that stands under no variable. Only `Memory`.
fn code_of(
    alloc: Global,
    p: &Lifted,
    numbers: &HashMap<u32, usize>,
    at: Position,
    b: &LiftedBlock,
) -> Result<Vec<Instr>, EmitFault>
    requires numbered { AreNumbered numbers.now p.now.constants }
    ensures is { IfOk result (λ v. Pushed [] v.items (block_code p.now [] 0 at b.now)) }
    ensures only_memory { IfErr result (λ e. e ≡ Memory) }
{
    let mut places = Vec::new(alloc);
    let site = Site { local: 0, at };
    let mut code = Vec::new(alloc);
    push_whole(p, numbers, &mut places, site, b, &mut code)?;
    Ok(code)
}

/// The body of main, which puts its answer into the global `result`.
fn main_body(alloc: Global, p: &Lifted, numbers: &HashMap<u32, usize>) -> Result<Body, EmitFault>
    requires numbered { AreNumbered numbers.now p.now.constants }
    ensures is { IfOk result (λ x. x ≡ main_function (lifted_of p.now)) }
    ensures few { IfOk result (λ _. top 0 p.now.main ≤ 50000) }
    ensures refused { IfErr result (λ e. MemoryOrLocals e (top 0 p.now.main)) }
{
    let count = locals_of_block(0, MOST_LOCALS, &p.main)?;
    let mut code = code_of(alloc, p, numbers, Position::Inside, &p.main)?;
    push(&mut code, Instr::GlobalSet(0))?;
    push(&mut code, Instr::End)?;
    body_of(alloc, count, code)
}

/// The body of a main that applies the program's main to `k` arguments, whose words lie in memory from the address in global 3 on, and puts the answer into the
/// global `result`.
fn call_body(
    alloc: Global,
    p: &Lifted,
    numbers: &HashMap<u32, usize>,
    k: u32,
) -> Result<Body, EmitFault>
    requires numbered { AreNumbered numbers.now p.now.constants }
    ensures is { IfOk result (λ x. x ≡ call_function (lifted_of p.now) k) }
    ensures few { IfOk result (λ _. top 0 p.now.main ≤ 50000) }
    ensures refused { IfErr result (λ e. MemoryOrLocals e (top 0 p.now.main)) }
{
    let count = locals_of_block(0, MOST_LOCALS, &p.main)?;
    let mut code = code_of(alloc, p, numbers, Position::Inside, &p.main)?;
    push_arguments(k, &mut code)?;
    push(&mut code, Instr::GlobalSet(0))?;
    push(&mut code, Instr::End)?;
    let locals = count.max(2);
    body_of(alloc, locals, code)
}

/// A function's number as a word. A number past 32 bits is `Memory`: so many functions have no room.
fn number_of(g: usize) -> Result<u32, EmitFault>
    ensures is { IfOk result (λ n. n ≡ g) }
    ensures only_memory { IfErr result (λ e. e ≡ Memory) }
{
    match u32::try_from(g) {
        Ok(n) => Ok(n),
        Err(_) => Err(EmitFault::Memory),
    }
}

/// Puts the bodies of the entries of the program's functions behind those that are there.
fn push_entries(
    alloc: Global,
    p: &Lifted,
    numbers: &HashMap<u32, usize>,
    bodies: &mut Vec<Body>,
) -> Result<(), EmitFault>
    requires numbered { AreNumbered numbers.now p.now.constants }
    ensures pushed { OnOk result (bodies.new.items ≡ bodies.old.items ++ numbered (entry (lifted_of p.now)) 0 ((lifted_of p.now).functions)) }
    ensures refused { IfErr result (λ e. MemoryOrNot e (All FewInFunction ((lifted_of p.now).functions))) }
{
    let functions = p.functions.as_slice();
    for g in 0..functions.len() {
        let number = number_of(g)?;
        let body = entry_body(alloc, p, numbers, number, &functions[g])?;
        bodies.push(body)?;
    }
    Ok(())
}

/// Puts the bodies of the constants' functions behind those that are there.
fn push_constants(
    alloc: Global,
    p: &Lifted,
    numbers: &HashMap<u32, usize>,
    bodies: &mut Vec<Body>,
) -> Result<(), EmitFault>
    requires numbered { AreNumbered numbers.now p.now.constants }
    ensures pushed { OnOk result (bodies.new.items ≡ bodies.old.items ++ map (constant (lifted_of p.now)) ((lifted_of p.now).constants)) }
    ensures few { OnOk result (All FewInBlock ((lifted_of p.now).constants)) }
    ensures refused { IfErr result (λ e. MemoryOrNot e (All FewInBlock ((lifted_of p.now).constants))) }
{
    let constants = p.constants.as_slice();
    let n = constants.len();
    for k in 0..n {
        let c = &constants[n - 1 - k];
        let body = constant_body(alloc, p, numbers, &c.body)?;
        bodies.push(body)?;
    }
    Ok(())
}

/// Puts the bodies of the workers of the program's functions behind those that are there.
fn push_workers(
    alloc: Global,
    p: &Lifted,
    numbers: &HashMap<u32, usize>,
    bodies: &mut Vec<Body>,
) -> Result<(), EmitFault>
    requires numbered { AreNumbered numbers.now p.now.constants }
    ensures pushed { OnOk result (bodies.new.items ≡ bodies.old.items ++ numbered (worker (lifted_of p.now)) 0 ((lifted_of p.now).functions)) }
    ensures few { OnOk result (All FewInFunction ((lifted_of p.now).functions)) }
    ensures refused { IfErr result (λ e. MemoryOrNot e (All FewInFunction ((lifted_of p.now).functions))) }
{
    let functions = p.functions.as_slice();
    for g in 0..functions.len() {
        let number = number_of(g)?;
        let body = worker_body(alloc, p, numbers, number, &functions[g])?;
        bodies.push(body)?;
    }
    Ok(())
}

/// The bodies of the functions before main, in the order of their indices.
fn bodies_before_main(
    alloc: Global,
    p: &Lifted,
    numbers: &HashMap<u32, usize>,
) -> Result<Vec<Body>, EmitFault>
    requires numbered { AreNumbered numbers.now p.now.constants }
    ensures is { IfOk result (λ v. v.items ≡ bodies_before (lifted_of p.now)) }
    ensures few { IfOk result (λ _. All FewInBlock ((lifted_of p.now).constants)) }
    ensures refused { IfErr result (λ e. MemoryOrNot e (FewLocals (lifted_of p.now))) }
{
    let mut bodies = Vec::new(alloc);
    let first = room_body(alloc)?;
    bodies.push(first)?;
    let second = box_body(alloc)?;
    bodies.push(second)?;
    push_entries(alloc, p, numbers, &mut bodies)?;
    push_constants(alloc, p, numbers, &mut bodies)?;
    Ok(bodies)
}

/// The bodies of all functions, in the order of their indices. `Locals` exactly where a function would have over 50,000 locals.
pub(crate) fn all_bodies(alloc: Global, p: &Lifted) -> Result<Vec<Body>, EmitFault>
    ensures is { IfOk result (λ v. v.items ≡ bodies_with (lifted_of p.now) (main_function (lifted_of p.now))) }
    ensures few { IfOk result (λ _. FewLocals (lifted_of p.now)) }
    ensures refused { IfErr result (λ e. MemoryOrNot e (FewLocals (lifted_of p.now))) }
{
    let numbers = numbers_of(alloc, p)?;
    let mut bodies = bodies_before_main(alloc, p, &numbers)?;
    let main = main_body(alloc, p, &numbers)?;
    bodies.push(main)?;
    push_workers(alloc, p, &numbers, &mut bodies)?;
    Ok(bodies)
}

/// The bodies of all functions of a module for calls with `k` arguments, in the order of their indices. `Locals` exactly where a function of the program's own
/// module would have over 50,000 locals.
pub(crate) fn all_call_bodies(alloc: Global, p: &Lifted, k: u32) -> Result<Vec<Body>, EmitFault>
    ensures is { IfOk result (λ v. v.items ≡ bodies_with (lifted_of p.now) (call_function (lifted_of p.now) k)) }
    ensures few { IfOk result (λ _. FewLocals (lifted_of p.now)) }
    ensures refused { IfErr result (λ e. MemoryOrNot e (FewLocals (lifted_of p.now))) }
{
    let numbers = numbers_of(alloc, p)?;
    let mut bodies = bodies_before_main(alloc, p, &numbers)?;
    let main = call_body(alloc, p, &numbers, k)?;
    bodies.push(main)?;
    push_workers(alloc, p, &numbers, &mut bodies)?;
    Ok(bodies)
}

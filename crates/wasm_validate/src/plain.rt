//! Instructions that take operands off and put their results on, and change no block.

ghost use Rattle.std.specs.Prelude.{◌≡◌, ◌++◌, [], ◌∷◌, reverse, IfOk, MatchBool, MatchOption, Some, None, slice_get, is_some, nat_le, ◌&&◌};
ghost use Rattle.std.specs.Option.{option_to_list, option_map};
ghost use Rattle.wasm_core.specs.declared.types.ValType.TheVariants.{I32 as Word};
ghost use Rattle.wasm_core.specs.declared.instrs.Instr.TheVariants.{Call, CallIndirect, GlobalGet, GlobalSet, MemorySize, MemoryGrow};
ghost use Rattle.wasm_core.specs.Arithmetic.{is_unary as takes_one};
ghost use Rattle.wasm_core.specs.ModuleTyping.{accessing, calling, calling_entry, effect, entry_effect, func_type, getting, keeping, operating, setting};
ghost use Rattle.wasm_core.specs.Pass.{off};
ghost use Rattle.wasm_validate.specs.Applied.{applied};
ghost use Rattle.wasm_validate.specs.Progress.{shows};

use crate::checker::{Checker, Progress};
use std::alloc::AllocError;
use wasm_core::{Access, Body, FuncType, I32Op, Module, ValType};

/// Takes up to two operands off, the first being the topmost, and puts one on, each where there is a type.
pub(crate) fn apply(
    checker: &mut Checker,
    first: Option<ValType>,
    second: Option<ValType>,
    result_type: Option<ValType>,
) -> Result<Progress, AllocError>
    ensures is { IfOk result (λ p. applied (Some (option_to_list first ++ option_to_list second, option_to_list result_type)) checker.old ≡ shows p checker.new) }
{
    if !checker.take_if(first) {
        return Ok(Progress::Stuck);
    }
    if !checker.take_if(second) {
        return Ok(Progress::Stuck);
    }
    checker.put_if(result_type)?;
    Ok(Progress::Goes)
}

/// Takes a call's arguments off, the last one first. In loose code it stops where no operand is known, however many are asked for.
pub(crate) fn take_params(checker: &mut Checker, params: &[ValType]) -> bool
    ensures taken { MatchBool result (off (reverse params.now) checker.old.now ≡ Some checker.new.now) (off (reverse params.now) checker.old.now ≡ None) }
    ensures ctls { checker.new.ctls ≡ checker.old.ctls }
{
    for at in (0..params.len()).rev() {
        if checker.is_empty() {
            return checker.is_loose();
        }
        if !checker.take(params[at]) {
            return false;
        }
    }
    true
}

/// The type of a function, where both are there.
pub(crate) fn type_of_func(m: &Module, func: u32) -> Option<&FuncType>
    ensures is { MatchOption result (func_type m.now func ≡ None) (λ t. func_type m.now func ≡ Some t.now) }
{
    let index = m.funcs().as_slice().get(func as usize)?;
    m.types().as_slice().get(*index as usize)
}

/// The type by which an entry of a table is called, where the type is there and the table is the one that a module has.
pub(crate) fn type_of_entry(m: &Module, index: u32, table: u32) -> Option<&FuncType>
    ensures is { MatchOption result (entry_effect m.now index table ≡ None) (λ t. entry_effect m.now index table ≡ Some (calling_entry t.now)) }
{
    let of = m.types().as_slice().get(index as usize)?;
    if table != 0 || m.table().is_none() {
        return None;
    }
    Some(of)
}

/// A call of a function of this type.
fn check_callee(checker: &mut Checker, of: &FuncType) -> Result<Progress, AllocError>
    ensures is { IfOk result (λ p. applied (Some (calling of.now)) checker.old ≡ shows p checker.new) }
{
    if !take_params(checker, of.params.as_slice()) {
        return Ok(Progress::Stuck);
    }
    checker.put_if(of.result)?;
    Ok(Progress::Goes)
}

/// A call of a table's entry with this type, whose index lies above the arguments.
fn check_entry(checker: &mut Checker, of: &FuncType) -> Result<Progress, AllocError>
    ensures is { IfOk result (λ p. applied (Some (calling_entry of.now)) checker.old ≡ shows p checker.new) }
{
    if !checker.take(ValType::I32) {
        return Ok(Progress::Stuck);
    }
    check_callee(checker, of)
}

/// `call`.
pub(crate) fn check_call(
    m: &Module,
    checker: &mut Checker,
    func: u32,
) -> Result<Progress, AllocError>
    ensures is { IfOk result (λ p. applied (effect m.now [] (Call func)) checker.old ≡ shows p checker.new) }
{
    match type_of_func(m, func) {
        Some(of) => check_callee(checker, of),
        None => Ok(Progress::Stuck),
    }
}

/// `call_indirect`, through the table 0.
pub(crate) fn check_call_indirect(
    m: &Module,
    checker: &mut Checker,
    index: u32,
    table: u32,
) -> Result<Progress, AllocError>
    ensures is { IfOk result (λ p. applied (effect m.now [] (CallIndirect index table)) checker.old ≡ shows p checker.new) }
{
    match type_of_entry(m, index, table) {
        Some(of) => check_entry(checker, of),
        None => Ok(Progress::Stuck),
    }
}

/// The type of a local, the parameters being the first; `None` where there is no such local.
fn local_type(func: &FuncType, body: &Body, index: u32) -> Option<ValType>
    ensures is { result ≡ slice_get (func.now.params ++ body.now.locals) index }
{
    let params = func.params.as_slice();
    let index = index as usize;
    if index < params.len() {
        return Some(params[index]);
    }
    body.locals.as_slice().get(index - params.len()).copied()
}

/// `local.get`.
pub(crate) fn check_local_get(
    func: &FuncType,
    body: &Body,
    checker: &mut Checker,
    index: u32,
) -> Result<Progress, AllocError>
    ensures is { IfOk result (λ p. applied (option_map getting (slice_get (func.now.params ++ body.now.locals) index)) checker.old ≡ shows p checker.new) }
{
    match local_type(func, body, index) {
        Some(of) => apply(checker, None, None, Some(of)),
        None => Ok(Progress::Stuck),
    }
}

/// `local.set`.
pub(crate) fn check_local_set(
    func: &FuncType,
    body: &Body,
    checker: &mut Checker,
    index: u32,
) -> Result<Progress, AllocError>
    ensures is { IfOk result (λ p. applied (option_map setting (slice_get (func.now.params ++ body.now.locals) index)) checker.old ≡ shows p checker.new) }
{
    match local_type(func, body, index) {
        Some(of) => apply(checker, Some(of), None, None),
        None => Ok(Progress::Stuck),
    }
}

/// `local.tee`.
pub(crate) fn check_local_tee(
    func: &FuncType,
    body: &Body,
    checker: &mut Checker,
    index: u32,
) -> Result<Progress, AllocError>
    ensures is { IfOk result (λ p. applied (option_map keeping (slice_get (func.now.params ++ body.now.locals) index)) checker.old ≡ shows p checker.new) }
{
    match local_type(func, body, index) {
        Some(of) => apply(checker, Some(of), None, Some(of)),
        None => Ok(Progress::Stuck),
    }
}

/// `global.get`.
pub(crate) fn check_global_get(
    m: &Module,
    checker: &mut Checker,
    index: u32,
) -> Result<Progress, AllocError>
    ensures is { IfOk result (λ p. applied (effect m.now [] (GlobalGet index)) checker.old ≡ shows p checker.new) }
{
    match m.globals().as_slice().get(index as usize) {
        Some(global) => apply(checker, None, None, Some(global.ty)),
        None => Ok(Progress::Stuck),
    }
}

/// `global.set`, of a global that can be set.
pub(crate) fn check_global_set(
    m: &Module,
    checker: &mut Checker,
    index: u32,
) -> Result<Progress, AllocError>
    ensures is { IfOk result (λ p. applied (effect m.now [] (GlobalSet index)) checker.old ≡ shows p checker.new) }
{
    let Some(global) = m.globals().as_slice().get(index as usize) else {
        return Ok(Progress::Stuck);
    };
    if !global.mutable {
        return Ok(Progress::Stuck);
    }
    apply(checker, Some(global.ty), None, None)
}

/// Whether there is a memory, and the access promises no more than an alignment of 2 to the power of `most`.
fn may_access(m: &Module, most: u32, of: Access) -> bool
    ensures is { result ≡ (is_some m.now.memory && nat_le of.align most) }
{
    m.memory().is_some() && of.align <= most
}

/// A load, whose natural alignment is 2 to the power of `most`.
pub(crate) fn check_load(
    m: &Module,
    checker: &mut Checker,
    most: u32,
    of: Access,
) -> Result<Progress, AllocError>
    ensures is { IfOk result (λ p. applied (accessing m.now most of (Word ∷ [], Word ∷ [])) checker.old ≡ shows p checker.new) }
{
    if !may_access(m, most, of) {
        return Ok(Progress::Stuck);
    }
    apply(checker, Some(ValType::I32), None, Some(ValType::I32))
}

/// A store, whose natural alignment is 2 to the power of `most`.
pub(crate) fn check_store(
    m: &Module,
    checker: &mut Checker,
    most: u32,
    of: Access,
) -> Result<Progress, AllocError>
    ensures is { IfOk result (λ p. applied (accessing m.now most of (Word ∷ Word ∷ [], [])) checker.old ≡ shows p checker.new) }
{
    if !may_access(m, most, of) {
        return Ok(Progress::Stuck);
    }
    apply(checker, Some(ValType::I32), Some(ValType::I32), None)
}

/// `memory.size`.
pub(crate) fn check_memory_size(m: &Module, checker: &mut Checker) -> Result<Progress, AllocError>
    ensures is { IfOk result (λ p. applied (effect m.now [] MemorySize) checker.old ≡ shows p checker.new) }
{
    if m.memory().is_none() {
        return Ok(Progress::Stuck);
    }
    apply(checker, None, None, Some(ValType::I32))
}

/// `memory.grow`.
pub(crate) fn check_memory_grow(m: &Module, checker: &mut Checker) -> Result<Progress, AllocError>
    ensures is { IfOk result (λ p. applied (effect m.now [] MemoryGrow) checker.old ≡ shows p checker.new) }
{
    if m.memory().is_none() {
        return Ok(Progress::Stuck);
    }
    apply(checker, Some(ValType::I32), None, Some(ValType::I32))
}

/// Whether the operation takes one operand.
fn is_unary(of: I32Op) -> bool
    ensures is { result ≡ takes_one of }
{
    match of {
        I32Op::Eqz => true,
        _ => false,
    }
}

/// An operation on 32-bit integers.
pub(crate) fn check_operation(checker: &mut Checker, of: I32Op) -> Result<Progress, AllocError>
    ensures is { IfOk result (λ p. applied (Some (operating (takes_one of))) checker.old ≡ shows p checker.new) }
{
    if is_unary(of) {
        return apply(checker, Some(ValType::I32), None, Some(ValType::I32));
    }
    apply(
        checker,
        Some(ValType::I32),
        Some(ValType::I32),
        Some(ValType::I32),
    )
}

//! Whether a body has a typing, and where it fails.

ghost use Rattle.std.specs.Prelude.{◌≡◌, ◌++◌, [], ◌∷◌, IfOk, false};
ghost use Rattle.wasm_core.specs.ModuleCondition.{IsClosed};
ghost use Rattle.wasm_core.specs.ModuleTyping.{results_of};
ghost use Rattle.wasm_core.specs.Pass.{check, outset};
ghost use Rattle.wasm_validate.specs.BodyPass.{stops};
ghost use Rattle.wasm_validate.specs.Progress.{shows};
ghost use Rattle.wasm_validate.specs.Verdicts.{SaysOfBody};

use crate::branches::{
    check_block, check_br, check_br_if, check_br_table, check_drop, check_if, check_loop,
    check_return, check_unreachable,
};
use crate::checker::{Checker, Progress};
use crate::plain::{
    apply, check_call, check_call_indirect, check_global_get, check_global_set, check_load,
    check_local_get, check_local_set, check_local_tee, check_memory_grow, check_memory_size,
    check_operation, check_store,
};
use crate::tail_calls::{check_return_call, check_return_call_indirect};
use std::alloc::{AllocError, Global};
use wasm_core::{Body, FuncType, Instr, Module, ValType};

/// One instruction of a function of this type and with this body.
fn check_instr(
    alloc: Global,
    m: &Module,
    func: &FuncType,
    body: &Body,
    checker: &mut Checker,
    instr: &Instr,
) -> Result<Progress, AllocError>
    ensures is { IfOk result (λ p. check m.now (func.now.params ++ body.now.locals) (results_of func.now) instr.now checker.old ≡ shows p checker.new) }
{
    match instr {
        Instr::Unreachable => Ok(check_unreachable(checker)),
        Instr::Nop => Ok(Progress::Goes),
        Instr::Block(of) => check_block(alloc, checker, *of),
        Instr::Loop(of) => check_loop(alloc, checker, *of),
        Instr::If(of) => check_if(alloc, checker, *of),
        Instr::Else => checker.second_arm(),
        Instr::End => checker.end(func.result),
        Instr::Br(label) => Ok(check_br(checker, func.result, *label)),
        Instr::BrIf(label) => check_br_if(checker, func.result, *label),
        Instr::BrTable(last, labels) => Ok(check_br_table(
            checker,
            func.result,
            labels.as_slice(),
            *last,
        )),
        Instr::Return => Ok(check_return(checker, func.result)),
        Instr::Call(index) => check_call(m, checker, *index),
        Instr::CallIndirect(index, table) => check_call_indirect(m, checker, *index, *table),
        Instr::ReturnCall(index) => Ok(check_return_call(m, checker, func.result, *index)),
        Instr::ReturnCallIndirect(index, table) => Ok(check_return_call_indirect(
            m,
            checker,
            func.result,
            *index,
            *table,
        )),
        Instr::Drop => Ok(check_drop(checker)),
        Instr::LocalGet(index) => check_local_get(func, body, checker, *index),
        Instr::LocalSet(index) => check_local_set(func, body, checker, *index),
        Instr::LocalTee(index) => check_local_tee(func, body, checker, *index),
        Instr::GlobalGet(index) => check_global_get(m, checker, *index),
        Instr::GlobalSet(index) => check_global_set(m, checker, *index),
        Instr::I32Load(access) => check_load(m, checker, 2, *access),
        Instr::I32Load8U(access) => check_load(m, checker, 0, *access),
        Instr::I32Store(access) => check_store(m, checker, 2, *access),
        Instr::I32Store8(access) => check_store(m, checker, 0, *access),
        Instr::MemorySize => check_memory_size(m, checker),
        Instr::MemoryGrow => check_memory_grow(m, checker),
        Instr::I32Const(_) => apply(checker, None, None, Some(ValType::I32)),
        Instr::I64Const(_) => apply(checker, None, None, Some(ValType::I64)),
        Instr::I32(of) => check_operation(checker, *of),
    }
}

/// The place at which the pass over a body stops before its own end.
fn pass_stop(
    alloc: Global,
    m: &Module,
    func: &FuncType,
    body: &Body,
) -> Result<Option<usize>, AllocError>
    ensures is { IfOk result (λ o. o ≡ stops m.now (func.now.params ++ body.now.locals) (results_of func.now) outset 0 body.now.code) }
{
    let mut checker = Checker::new(alloc);
    let code = body.code.as_slice();
    for at in 0..code.len() {
        match check_instr(alloc, m, func, body, &mut checker, &code[at])? {
            Progress::Goes => {}
            Progress::Stuck => return Ok(Some(at)),
            Progress::Ends => {
                if at + 1 == code.len() {
                    return Ok(None);
                }
                return Ok(Some(at + 1));
            }
        }
    }
    Ok(Some(code.len()))
}

/// The place at which the body of a function of this type fails; `None` where it has a typing.
///
/// A place counts the body's instructions from 0. It is the least one such that no body that begins with the instructions up to
/// and including it has a typing.
pub(crate) fn body_fault(
    alloc: Global,
    m: &Module,
    func: &FuncType,
    body: &Body,
) -> Result<Option<usize>, AllocError>
    requires closed { IsClosed (false ∷ []) body.now.code }
    ensures is { IfOk result (λ o. SaysOfBody m.now func.now body.now o) }
{
    pass_stop(alloc, m, func, body)
}

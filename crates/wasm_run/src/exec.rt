//! One step of a run (WebAssembly Core Specification, section 4.4).

ghost use Rattle.std.specs.Prelude.{◌≡◌, ◌+◌, ◌*◌, ◌≤◌, ◌<◌, ◌++◌, ◌∷◌, length, take, drop, reverse, map, Some, None, IsSome, IfOk, IfSome, OnOk, slice_get, slice_set, true, false, ◌^◌};
ghost use Rattle.wasm_core.specs.declared.instrs.Instr.TheVariants.{End, MemoryGrow, I32Load, I32Load8U, I32Store, I32Store8, GlobalGet, GlobalSet, MemorySize, BrTable, CallIndirect};
ghost use Rattle.wasm_core.specs.declared.types.ConstValue.TheVariants.{I32 as Word};
ghost use Rattle.wasm_core.specs.Instance.{zero_of, func_of, greatest_pages, table_of};
ghost use Rattle.wasm_core.specs.MachineStep.{step, leave, branch, call, at_end, same_type as is_same_type, same_types as are_same_types, same_result as is_same_result, same_func_type as is_same_func_type, At};
ghost use Rattle.wasm_core.specs.Memory.{zeroed};
ghost use Rattle.wasm_core.specs.Runs.{grants};
ghost use Rattle.wasm_run.specs.Programs.{code_of};
ghost use Rattle.wasm_run.specs.Shape.{begun};
ghost use Rattle.wasm_run.specs.TableEntries.{EntryCalls, EntryIsThere};
ghost use Rattle.wasm_run.specs.Threads.{conf_of, state_of, rest_of, acting};
ghost use Rattle.wasm_run.specs.Targets.{IsTarget};
ghost use Rattle.wasm_run.specs.ToldSteps.{class_of as class_is, grow_facts, is_granted as granted_at, is_grow, step_facts};
ghost use Rattle.wasm_run.specs.View.{HasI32};
ghost use Rattle.reports.specs.declared.fact.Fact.TheVariants.{StepDone};

use crate::frame::Frame;
use crate::inside::{pop_i32, run_inside};
use crate::memory::{load, load_byte, store, store_byte};
use crate::program::Program;
use crate::tail_calls::{run_tail_call, run_tail_indirect};
use crate::tally::{StepFacts, class_of};
use crate::thread::Thread;
use std::alloc::{AllocError, Global};
use std::mem;
use wasm_core::{Access, ConstValue, Ended, FuncType, Instr, Labels, Limits, TrapKind, ValType};

/// Leaves the function that runs.
fn run_leave(program: &Program, thread: &mut Thread) -> Result<Option<Ended>, AllocError>
    requires some { IsSome (leave (conf_of program.now thread.old) (conf_of program.now thread.old).current.operands) }
    ensures is { IfOk result (λ e. leave (conf_of program.now thread.old) (conf_of program.now thread.old).current.operands ≡ Some (state_of program.now e thread.new)) }
{
    if thread.current.keeps() {
        let top = thread.current.pop();
        match thread.callers.pop() {
            None => Ok(Some(Ended::Returned)),
            Some(caller) => {
                thread.current = caller;
                thread.current.push(top)?;
                Ok(None)
            }
        }
    } else {
        match thread.callers.pop() {
            None => Ok(Some(Ended::Returned)),
            Some(caller) => {
                thread.current = caller;
                Ok(None)
            }
        }
    }
}

/// Branches to an open block, or out of the function.
fn run_branch(
    program: &Program,
    thread: &mut Thread,
    label: u32,
) -> Result<Option<Ended>, AllocError>
    requires some { IsSome (branch (conf_of program.now thread.old) label (conf_of program.now thread.old).current.operands) }
    ensures is { IfOk result (λ e. branch (conf_of program.now thread.old) label (conf_of program.now thread.old).current.operands ≡ Some (state_of program.now e thread.new)) }
{
    if label as usize == thread.current.depth() {
        return run_leave(program, thread);
    }
    thread.current.branch(label as usize);
    Ok(None)
}

/// Takes the arguments of a call off, and makes the locals of them.
fn take_locals(
    alloc: Global,
    frame: &mut Frame,
    params: usize,
    others: &[ValType],
) -> Result<Vec<ConstValue>, AllocError>
    requires few { params ≤ length frame.old.vals }
    ensures locals { IfOk result (λ v. v.items ≡ reverse (take params frame.old.vals) ++ map zero_of others.now) }
    ensures frame { OnOk result (frame.new ≡ record frame.old { vals = drop params frame.old.vals }) }
{
    let mut locals: Vec<ConstValue> = Vec::new(alloc);
    for _k in 0..params {
        locals.push(frame.pop())?;
    }
    locals.reverse();
    for j in 0..others.len() {
        locals.push(zero(others[j]))?;
    }
    Ok(locals)
}

/// The frame of a function that is called, with this type and these further locals. Its arguments are taken off the frame that runs.
pub fn callee(
    alloc: Global,
    frame: &mut Frame,
    index: usize,
    of: &FuncType,
    others: &[ValType],
) -> Result<Frame, AllocError>
    requires few { length of.now.params ≤ length frame.old.vals }
    ensures is { IfOk result (λ f. f ≡ begun index of.now others.now frame.old.vals) }
    ensures frame { OnOk result (frame.new ≡ record frame.old { vals = drop (length of.now.params) frame.old.vals }) }
{
    let keeps = of.result.is_some();
    let locals = take_locals(alloc, frame, of.params.as_slice().len(), others)?;
    Ok(Frame::new(alloc, index, keeps, locals))
}

/// The first value of a local.
pub fn zero(of: ValType) -> ConstValue
    ensures is { result ≡ zero_of of }
{
    match of {
        ValType::I32 => ConstValue::I32(0),
        ValType::I64 => ConstValue::I64(0),
    }
}

/// Calls a function.
fn run_call(
    alloc: Global,
    program: &Program,
    thread: &mut Thread,
    index: u32,
    next: usize,
) -> Result<Option<Ended>, AllocError>
    requires next { next ≡ thread.old.current.at + 1 }
    requires func { IsSome (func_of program.now index) }
    requires some { IfSome (func_of program.now index) (λ g. IsSome (call (conf_of program.now thread.old) g thread.old.current.vals (rest_of program.now thread.old))) }
    ensures is { IfOk result (λ e. IfSome (func_of program.now index) (λ g. call (conf_of program.now thread.old) g thread.old.current.vals (rest_of program.now thread.old) ≡ Some (state_of program.now e thread.new))) }
{
    let of = program.func_type(index as usize);
    let others = program.locals(index as usize);
    let frame = callee(alloc, &mut thread.current, index as usize, of, others)?;
    thread.current.go(next);
    let caller = mem::replace(&mut thread.current, frame);
    thread.callers.push(caller)?;
    Ok(None)
}

/// Two types are the same.
fn same_type(x: ValType, y: ValType) -> bool
    ensures is { result ≡ is_same_type x y }
{
    match (x, y) {
        (ValType::I32, ValType::I32) => true,
        (ValType::I32, ValType::I64) => false,
        (ValType::I64, ValType::I32) => false,
        (ValType::I64, ValType::I64) => true,
    }
}

/// Two lists of types are the same.
#[tactic(auto, using(crate::proofs::Threads::lengths_differ))]
fn same_types(xs: &[ValType], ys: &[ValType]) -> bool
    ensures is { result ≡ are_same_types xs.now ys.now }
{
    if xs.len() != ys.len() {
        return false;
    }
    for i in 0..xs.len() {
        if !same_type(xs[i], ys[i]) {
            return false;
        }
    }
    true
}

/// Two results are the same: there is none, or their types are the same.
fn same_result(x: Option<ValType>, y: Option<ValType>) -> bool
    ensures is { result ≡ is_same_result x y }
{
    match (x, y) {
        (None, None) => true,
        (Some(s), Some(t)) => same_type(s, t),
        _ => false,
    }
}

/// Two function types are the same.
fn same_func_type(s: &FuncType, t: &FuncType) -> bool
    ensures is { result ≡ is_same_func_type s.now t.now }
{
    same_types(s.params.as_slice(), t.params.as_slice()) && same_result(s.result, t.result)
}

/// The function that an entry of the table holds, where it has this type; or else how a call of it traps.
pub fn entry_of(program: &Program, wanted: &FuncType, place: u32) -> Result<u32, TrapKind>
    requires there { EntryIsThere program.now (slice_get (table_of program.now) place) }
    ensures is { EntryCalls program.now wanted.now (slice_get (table_of program.now) place) result }
{
    match program.entry(place as usize) {
        None => Err(TrapKind::UndefinedElement),
        Some(None) => Err(TrapKind::UninitializedElement),
        Some(Some(func)) => {
            if same_func_type(wanted, program.func_type(func as usize)) {
                Ok(func)
            } else {
                Err(TrapKind::IndirectType)
            }
        }
    }
}

/// Calls an entry of the table.
fn run_indirect(
    alloc: Global,
    program: &Program,
    thread: &mut Thread,
    index: u32,
    table: u32,
    next: usize,
) -> Result<Option<Ended>, AllocError>
    requires next { next ≡ thread.old.current.at + 1 }
    requires some { IsSome (acting program.now true (CallIndirect index table) thread.old) }
    ensures is { IfOk result (λ e. acting program.now true (CallIndirect index table) thread.old ≡ Some (state_of program.now e thread.new)) }
{
    let wanted = &program.module().types().as_slice()[index as usize];
    let place = pop_i32(&mut thread.current);
    match entry_of(program, wanted, place) {
        Ok(func) => run_call(alloc, program, thread, func, next),
        Err(kind) => Ok(Some(Ended::Trapped(kind))),
    }
}

/// An end: of the function, or of the innermost block.
fn run_end(program: &Program, thread: &mut Thread, next: usize) -> Result<Option<Ended>, AllocError>
    requires next { next ≡ thread.old.current.at + 1 }
    requires some { IsSome (acting program.now true End thread.old) }
    ensures is { IfOk result (λ e. acting program.now true End thread.old ≡ Some (state_of program.now e thread.new)) }
{
    if thread.current.depth() == 0 {
        return run_leave(program, thread);
    }
    thread.current.close();
    thread.current.go(next);
    Ok(None)
}

/// A branch to the label that the topmost operand picks.
fn run_table(
    program: &Program,
    thread: &mut Thread,
    labels: &Labels,
    other: u32,
) -> Result<Option<Ended>, AllocError>
    requires some { IsSome (acting program.now true (BrTable other labels.now) thread.old) }
    ensures is { IfOk result (λ e. acting program.now true (BrTable other labels.now) thread.old ≡ Some (state_of program.now e thread.new)) }
{
    let picks = labels.as_slice();
    let place = pop_i32(&mut thread.current) as usize;
    let label = if place < picks.len() {
        picks[place]
    } else {
        other
    };
    run_branch(program, thread, label)
}

/// The most pages that a memory may have.
pub fn most_pages(limits: Option<Limits>) -> u32
    ensures is { result ≡ greatest_pages limits }
{
    match limits {
        None => 0,
        Some(l) => match l.max {
            None => 65_536,
            Some(most) => most,
        },
    }
}

/// More pages of zeros.
#[tactic(auto, unfolding(wasm_core::specs::Memory::zeroed))]
pub fn grow_bytes(memory: &mut Vec<u8>, more: usize) -> Result<(), AllocError>
    requires few { length memory.old.items + 65536 * more < 2 ^ 60 }
    ensures is { OnOk result (memory.new.items ≡ memory.old.items ++ zeroed more) }
{
    let len = memory.len() + 65_536 * more;
    memory.resize(len, 0)
}

/// Memory grows, or doesn't.
fn run_grow(
    program: &Program,
    cap: u32,
    thread: &mut Thread,
    next: usize,
) -> Result<Option<Ended>, AllocError>
    requires next { next ≡ thread.old.current.at + 1 }
    requires sized { length thread.old.memory.items ≡ 65536 * thread.old.pages }
    requires some { IsSome (acting program.now (grants cap (conf_of program.now thread.old)) MemoryGrow thread.old) }
    ensures is { IfOk result (λ e. acting program.now (grants cap (conf_of program.now thread.old)) MemoryGrow thread.old ≡ Some (state_of program.now e thread.new)) }
{
    let more = pop_i32(&mut thread.current);
    let pages = thread.pages as u64 + more as u64;
    let fits = pages <= most_pages(program.module().memory()) as u64;
    if fits && pages <= cap as u64 {
        grow_bytes(&mut thread.memory, more as usize)?;
        thread.current.push(ConstValue::I32(thread.pages))?;
        thread.pages = pages as u32;
    } else {
        thread.refused = true;
        thread.by_choice = fits;
        thread.current.push(ConstValue::I32(u32::MAX))?;
    }
    thread.current.go(next);
    Ok(None)
}

/// A word of memory is read.
fn run_load(
    program: &Program,
    thread: &mut Thread,
    access: Access,
    next: usize,
) -> Result<Option<Ended>, AllocError>
    requires next { next ≡ thread.old.current.at + 1 }
    requires some { IsSome (acting program.now true (I32Load access) thread.old) }
    ensures is { IfOk result (λ e. acting program.now true (I32Load access) thread.old ≡ Some (state_of program.now e thread.new)) }
{
    let at = pop_i32(&mut thread.current) as usize + access.offset as usize;
    if at + 4 > thread.memory.len() {
        return Ok(Some(Ended::Trapped(TrapKind::OutOfBounds)));
    }
    thread
        .current
        .push(ConstValue::I32(load(&thread.memory, at)))?;
    thread.current.go(next);
    Ok(None)
}

/// A byte of memory is read.
fn run_load_byte(
    program: &Program,
    thread: &mut Thread,
    access: Access,
    next: usize,
) -> Result<Option<Ended>, AllocError>
    requires next { next ≡ thread.old.current.at + 1 }
    requires some { IsSome (acting program.now true (I32Load8U access) thread.old) }
    ensures is { IfOk result (λ e. acting program.now true (I32Load8U access) thread.old ≡ Some (state_of program.now e thread.new)) }
{
    let at = pop_i32(&mut thread.current) as usize + access.offset as usize;
    if thread.memory.len() < at + 1 {
        return Ok(Some(Ended::Trapped(TrapKind::OutOfBounds)));
    }
    thread
        .current
        .push(ConstValue::I32(load_byte(&thread.memory, at)))?;
    thread.current.go(next);
    Ok(None)
}

/// A word is put into memory.
fn run_store(program: &Program, thread: &mut Thread, access: Access, next: usize) -> Option<Ended>
    requires next { next ≡ thread.old.current.at + 1 }
    requires some { IsSome (acting program.now true (I32Store access) thread.old) }
    ensures is { acting program.now true (I32Store access) thread.old ≡ Some (state_of program.now result thread.new) }
{
    let n = pop_i32(&mut thread.current);
    let at = pop_i32(&mut thread.current) as usize + access.offset as usize;
    if thread.memory.len() < at + 4 {
        return Some(Ended::Trapped(TrapKind::OutOfBounds));
    }
    store(&mut thread.memory, at, n);
    thread.current.go(next);
    None
}

/// A byte is put into memory.
fn run_store_byte(
    program: &Program,
    thread: &mut Thread,
    access: Access,
    next: usize,
) -> Option<Ended>
    requires next { next ≡ thread.old.current.at + 1 }
    requires some { IsSome (acting program.now true (I32Store8 access) thread.old) }
    ensures is { acting program.now true (I32Store8 access) thread.old ≡ Some (state_of program.now result thread.new) }
{
    let n = pop_i32(&mut thread.current);
    let at = pop_i32(&mut thread.current) as usize + access.offset as usize;
    if thread.memory.len() < at + 1 {
        return Some(Ended::Trapped(TrapKind::OutOfBounds));
    }
    store_byte(&mut thread.memory, at, n);
    thread.current.go(next);
    None
}

/// The value of a global.
fn global_at(globals: &Vec<ConstValue>, index: usize) -> ConstValue
    requires there { index < length globals.now.items }
    ensures is { slice_get globals.now.items index ≡ Some result }
{
    globals[index]
}

/// A global's value is another one.
fn set_global(globals: &mut Vec<ConstValue>, index: usize, value: ConstValue)
    requires there { index < length globals.old.items }
    ensures is { globals.new.items ≡ slice_set globals.old.items index value }
{
    globals[index] = value;
}

/// A global is read.
fn run_global_get(
    program: &Program,
    thread: &mut Thread,
    index: u32,
    next: usize,
) -> Result<Option<Ended>, AllocError>
    requires next { next ≡ thread.old.current.at + 1 }
    requires some { IsSome (acting program.now true (GlobalGet index) thread.old) }
    ensures is { IfOk result (λ e. acting program.now true (GlobalGet index) thread.old ≡ Some (state_of program.now e thread.new)) }
{
    let value = global_at(&thread.globals, index as usize);
    thread.current.push(value)?;
    thread.current.go(next);
    Ok(None)
}

/// A global is set.
fn run_global_set(program: &Program, thread: &mut Thread, index: u32, next: usize)
    requires next { next ≡ thread.old.current.at + 1 }
    requires some { IsSome (acting program.now true (GlobalSet index) thread.old) }
    ensures is { acting program.now true (GlobalSet index) thread.old ≡ Some (At (conf_of program.now thread.new)) }
{
    let value = thread.current.pop();
    set_global(&mut thread.globals, index as usize, value);
    thread.current.go(next);
}

/// Executes the instruction at the place of the function that runs.
fn run_instr(
    alloc: Global,
    program: &Program,
    cap: u32,
    thread: &mut Thread,
    code: &[Instr],
    instr: &Instr,
) -> Result<Option<Ended>, AllocError>
    requires code { code.now ≡ code_of program.now thread.old.current.func }
    requires here { slice_get code.now thread.old.current.at ≡ Some instr.now }
    requires sized { length thread.old.memory.items ≡ 65536 * thread.old.pages }
    requires some { IsSome (acting program.now (grants cap (conf_of program.now thread.old)) instr.now thread.old) }
    ensures is { IfOk result (λ e. acting program.now (grants cap (conf_of program.now thread.old)) instr.now thread.old ≡ Some (state_of program.now e thread.new)) }
{
    let next = thread.current.at() + 1;
    match instr {
        Instr::Unreachable => Ok(Some(Ended::Trapped(TrapKind::Unreachable))),
        Instr::End => run_end(program, thread, next),
        Instr::Br(label) => run_branch(program, thread, *label),
        Instr::BrIf(label) => {
            let test = pop_i32(&mut thread.current);
            if test == 0 {
                thread.current.go(next);
                return Ok(None);
            }
            run_branch(program, thread, *label)
        }
        Instr::BrTable(other, labels) => run_table(program, thread, labels, *other),
        Instr::Return => run_leave(program, thread),
        Instr::Call(index) => run_call(alloc, program, thread, *index, next),
        Instr::CallIndirect(index, table) => {
            run_indirect(alloc, program, thread, *index, *table, next)
        }
        Instr::ReturnCall(index) => run_tail_call(alloc, program, thread, *index),
        Instr::ReturnCallIndirect(index, table) => {
            run_tail_indirect(alloc, program, thread, *index, *table)
        }
        Instr::GlobalGet(index) => run_global_get(program, thread, *index, next),
        Instr::GlobalSet(index) => {
            run_global_set(program, thread, *index, next);
            Ok(None)
        }
        Instr::I32Load(access) => run_load(program, thread, *access, next),
        Instr::I32Load8U(access) => run_load_byte(program, thread, *access, next),
        Instr::I32Store(access) => Ok(run_store(program, thread, *access, next)),
        Instr::I32Store8(access) => Ok(run_store_byte(program, thread, *access, next)),
        Instr::MemorySize => {
            thread.current.push(ConstValue::I32(thread.pages))?;
            thread.current.go(next);
            Ok(None)
        }
        Instr::MemoryGrow => run_grow(program, cap, thread, next),
        _ => {
            let target = program.target(thread.current.func(), thread.current.at());
            run_inside(code, target, &mut thread.current, instr)?;
            Ok(None)
        }
    }
}

/// The instruction at the place of the function that runs.
fn instr_at<'c>(program: &Program, code: &'c [Instr], thread: &Thread, cap: u32) -> &'c Instr
    requires code { code.now ≡ code_of program.now thread.now.current.func }
    requires some { IsSome (step program.now (grants cap (conf_of program.now thread.now)) (conf_of program.now thread.now)) }
    ensures is { slice_get (code_of program.now thread.now.current.func) thread.now.current.at ≡ Some result.now }
{
    let at = thread.current.at();
    &code[at]
}

/// One step, where memory may grow up to `cap` pages.
pub fn run_step(
    alloc: Global,
    program: &Program,
    cap: u32,
    thread: &mut Thread,
) -> Result<Option<Ended>, AllocError>
    requires sized { length thread.old.memory.items ≡ 65536 * thread.old.pages }
    requires some { IsSome (step program.now (grants cap (conf_of program.now thread.old)) (conf_of program.now thread.old)) }
    ensures is { IfOk result (λ e. step program.now (grants cap (conf_of program.now thread.old)) (conf_of program.now thread.old) ≡ Some (state_of program.now e thread.new)) }
{
    let code = program.code(thread.current.func());
    let instr = instr_at(program, code, thread, cap);
    run_instr(alloc, program, cap, thread, code, instr)
}

/// Whether a grow of memory at this place isn't refused.
fn is_granted(program: &Program, cap: u32, thread: &Thread) -> bool
    requires some { HasI32 thread.now.current.vals }
    ensures is { result ≡ granted_at program.now cap (conf_of program.now thread.now) }
{
    let more = match thread.current.top() {
        ConstValue::I32(n) => n,
        ConstValue::I64(_) => unreachable!(),
    };
    let pages = thread.pages as u64 + more as u64;
    pages <= cap as u64 && pages <= most_pages(program.module().memory()) as u64
}

/// What the execution of an instruction tells.
fn instr_facts(program: &Program, cap: u32, thread: &Thread, instr: &Instr) -> StepFacts
    requires some { IsSome (acting program.now (grants cap (conf_of program.now thread.now)) instr.now thread.now) }
    ensures class { result.class ≡ class_is instr.now }
    ensures range { (1 ≤ result.class) × (result.class ≤ 6) }
    ensures grows { result.grows ≡ is_grow program.now cap instr.now (conf_of program.now thread.now) }
{
    let class = class_of(instr);
    let grows = match instr {
        Instr::MemoryGrow => is_granted(program, cap, thread),
        _ => false,
    };
    StepFacts { class, grows }
}

/// What the step tells that comes next.
pub fn next_facts(program: &Program, cap: u32, thread: &Thread) -> StepFacts
    requires some { IsSome (step program.now (grants cap (conf_of program.now thread.now)) (conf_of program.now thread.now)) }
    ensures range { (1 ≤ result.class) × (result.class ≤ 6) }
    ensures is { step_facts program.now cap (At (conf_of program.now thread.now)) ≡ StepDone result.class ∷ grow_facts result.grows }
{
    let code = program.code(thread.current.func());
    let instr = instr_at(program, code, thread, cap);
    instr_facts(program, cap, thread, instr)
}

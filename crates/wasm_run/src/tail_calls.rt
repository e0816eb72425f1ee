//! Tail calls (WebAssembly Core Specification, section 4.4): the callee's frame takes the place of the one that runs.

ghost use Rattle.std.specs.Prelude.{◌≡◌, Some, IsSome, IfOk, IfSome, true};
ghost use Rattle.wasm_core.specs.declared.instrs.Instr.TheVariants.{ReturnCallIndirect};
ghost use Rattle.wasm_core.specs.Instance.{func_of};
ghost use Rattle.wasm_core.specs.MachineStep.{tail_call};
ghost use Rattle.wasm_run.specs.Threads.{conf_of, state_of, acting};

use crate::exec::{callee, entry_of};
use crate::inside::pop_i32;
use crate::program::Program;
use crate::thread::Thread;
use std::alloc::{AllocError, Global};
use wasm_core::Ended;

/// Calls a function in place of the one that runs.
pub fn run_tail_call(
    alloc: Global,
    program: &Program,
    thread: &mut Thread,
    index: u32,
) -> Result<Option<Ended>, AllocError>
    requires func { IsSome (func_of program.now index) }
    requires some { IfSome (func_of program.now index) (λ g. IsSome (tail_call (conf_of program.now thread.old) g thread.old.current.vals)) }
    ensures is { IfOk result (λ e. IfSome (func_of program.now index) (λ g. tail_call (conf_of program.now thread.old) g thread.old.current.vals ≡ Some (state_of program.now e thread.new))) }
{
    let of = program.func_type(index as usize);
    let others = program.locals(index as usize);
    let frame = callee(alloc, &mut thread.current, index as usize, of, others)?;
    thread.current = frame;
    Ok(None)
}

/// Calls an entry of the table in place of the function that runs.
pub fn run_tail_indirect(
    alloc: Global,
    program: &Program,
    thread: &mut Thread,
    index: u32,
    table: u32,
) -> Result<Option<Ended>, AllocError>
    requires some { IsSome (acting program.now true (ReturnCallIndirect index table) thread.old) }
    ensures is { IfOk result (λ e. acting program.now true (ReturnCallIndirect index table) thread.old ≡ Some (state_of program.now e thread.new)) }
{
    let wanted = &program.module().types().as_slice()[index as usize];
    let place = pop_i32(&mut thread.current);
    match entry_of(program, wanted, place) {
        Ok(func) => run_tail_call(alloc, program, thread, func),
        Err(kind) => Ok(Some(Ended::Trapped(kind))),
    }
}

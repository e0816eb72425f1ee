//! The layer of modules: `compile`, of what the row's environment is erased to, and a run of the module.
ghost use Rattle.lambda_box.specs.BoxForm.{IsBoxProgram};

use crate::calls::run_calls;
use crate::erasing::program_of;
use box_terms::program::BoxProgram;
use compile::{CompileFault, compile};
use mem_value::{AnswerFault, answer_tree};
use row_files::{Case, Fault, put_bytes};
use row_terms::read;
use std::alloc::{AllocError, Global};
use wasm_core::{EncodeFault, Ended, RunFault, Valid};
use wasm_encode::encode;
use wasm_run::Machine;

/// How many of an answer's first nodes are printed.
const FIRST: u32 = 28;

/// Runs a row of the layer.
pub fn run(case: &Case, out: &mut String) -> Result<(), Fault> {
    let raw = read(case)?;
    let program = program_of(case.alloc, &raw)?;
    run_erased(case, &program, out)
}

/// Compiles an erased program, and runs its module.
fn run_erased(case: &Case, program: &BoxProgram, out: &mut String) -> Result<(), Fault>
    requires form { IsBoxProgram program.now }
{
    let pages = case.row.index("pages")?;
    if pages < 1 || pages > 16_384 {
        return Err(Fault::Faulty("no number of pages"));
    }
    if case.row.given("call")? == "calls" {
        return run_calls(case, program, pages, out);
    }
    match compile(case.alloc, program, pages) {
        Ok(module) => run_compiled(case, &module, pages, out),
        Err(fault) => Ok(put_fault(out, fault)?),
    }
}

/// Prints a module's bytes, or its size and a run of it, as the row asks.
fn run_compiled(case: &Case, module: &Valid, pages: u32, out: &mut String) -> Result<(), Fault> {
    match case.row.given("call")? {
        "bytes" => put_module(case.alloc, module, out),
        _ => run_module(case, module, pages, out),
    }
}

/// The fewest bytes that spell a module.
fn put_module(alloc: Global, module: &Valid, out: &mut String) -> Result<(), Fault> {
    match encode(alloc, module) {
        Ok(bytes) => Ok(put_bytes(out, bytes.as_slice())?),
        Err(EncodeFault::ModuleBytes) => Ok(out.push_str("limit ModuleBytes")?),
        Err(EncodeFault::Memory) => Err(Fault::Memory),
    }
}

/// Why there is no module.
pub fn put_fault(out: &mut String, fault: CompileFault) -> Result<(), AllocError> {
    out.push_str(match fault {
        CompileFault::Depth => "depth",
        CompileFault::Captured => "captured",
        CompileFault::Functions => "functions",
        CompileFault::Locals => "locals",
        CompileFault::Memory => "out of memory",
    })
}

/// Prints the size of a module, and runs it.
fn run_module(case: &Case, module: &Valid, pages: u32, out: &mut String) -> Result<(), Fault> {
    let steps = case.row.number("steps", 1_000_000)?;
    put_size(case.alloc, module, out)?;
    match Machine::new(case.alloc, module, pages) {
        Ok(mut machine) => Ok(put_run(case.alloc, &mut machine, steps, out)?),
        Err(_) => Err(Fault::Faulty("no machine")),
    }
}

/// How many bytes spell a module, which are the fewest.
fn put_size(alloc: Global, module: &Valid, out: &mut String) -> Result<(), Fault> {
    match encode(alloc, module) {
        Ok(bytes) => Ok(put_number(out, bytes.len() as u64, " bytes; ")?),
        Err(EncodeFault::ModuleBytes) => Ok(out.push_str("limit ModuleBytes; ")?),
        Err(EncodeFault::Memory) => Err(Fault::Memory),
    }
}

/// Prints a number, and what is counted.
fn put_number(out: &mut String, number: u64, what: &str) -> Result<(), AllocError> {
    write!(out, "{number}{what}")
}

/// Makes a run of at most so many steps, and prints how it ends, what the machine then shows, with the most frames that stood at once, and what it
/// answers.
fn put_run(
    alloc: Global,
    machine: &mut Machine,
    steps: u64,
    out: &mut String,
) -> Result<(), AllocError> {
    let end = machine.run(steps);
    put_end(out, end)?;
    put_number(out, machine.steps(), " steps, ")?;
    put_number(out, machine.pages() as u64, " pages, ")?;
    put_number(out, machine.peak(), " frames, status ")?;
    put_number(out, machine.status() as u64, "")?;
    if end == Ok(Ended::Returned) {
        put_answer(alloc, machine, out)?;
    }
    Ok(())
}

/// How a run ended.
fn put_end(out: &mut String, end: Result<Ended, RunFault>) -> Result<(), AllocError> {
    out.push_str(match end {
        Ok(Ended::Returned) => "returned after ",
        Ok(Ended::Trapped(_)) => "trapped after ",
        Err(RunFault::StepsSpent) => "steps spent after ",
        Err(RunFault::Failed) => "failed after ",
        Err(RunFault::Memory) => "out of memory after ",
    })
}

/// Prints the data that a machine answers, in a line of its own: how many nodes it has, and the first in preorder, each as its constructor's number and
/// its number of arguments.
pub fn put_answer(alloc: Global, machine: &Machine, out: &mut String) -> Result<(), AllocError> {
    match answer_tree(alloc, machine) {
        Ok(data) => {
            let count = data.len();
            write!(out, "\n  data of {count} nodes:")?;
            for place in 0..count.min(FIRST) {
                let (number, arguments) = data.node(place);
                write!(out, " {number}/{arguments}")?;
            }
            Ok(())
        }
        Err(AnswerFault::NotAValue { word }) => write!(out, "\n  no data: {word}"),
        Err(AnswerFault::AnswerNodes) => out.push_str("\n  limit AnswerNodes"),
        Err(AnswerFault::Memory) => out.push_str("\n  out of memory"),
    }
}

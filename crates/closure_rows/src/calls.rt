//! The module of a main that takes arguments: it is made once, and run in a new machine for each line of arguments.
ghost use Rattle.std.specs.Prelude.{◌≡◌, ◌≤◌, IfOk, false, true};
ghost use Rattle.lambda_box.specs.BoxForm.{IsBoxProgram};
ghost use Rattle.wasm_core.specs.HostStore.{IsForCall};
ghost use Rattle.wasm_core.specs.ModuleCondition.{All as Each};
ghost use Rattle.wasm_core.specs.Runs.{store_of};
ghost use Rattle.mem_value.specs.Storing.{HasHeap, IsSmallData};

use crate::modules::{put_answer, put_fault};
use box_terms::program::BoxProgram;
use compile::compile_call;
use data_trees::Data;
use mem_value::{StoreFault, store_values};
use row_files::{Case, Fault};
use std::alloc::{AllocError, Global};
use wasm_core::{Ended, Valid};
use wasm_run::Machine;

/// The most steps of a run.
const STEPS: u64 = 1_000_000;

/// The data of a natural number: so many constructors 1 with one argument, and constructor 0.
#[tactic(auto, using(crate::proofs::Numbers::is_tree, crate::proofs::Numbers::is_small, crate::proofs::Numbers::is_few, crate::proofs::Numbers::one_more))]
fn number_data(alloc: Global, number: u32) -> Result<Data, AllocError>
    requires few { number ≤ 1000 }
    ensures small { IfOk result (λ d. IsSmallData d) }
{
    let mut nodes: Vec<(u32, u32)> = Vec::new(alloc);
    for _made in 0..number {
        nodes.push((1, 1))?;
    }
    nodes.push((0, 0))?;
    Ok(Data::of(nodes))
}

/// The natural number that decimal digits spell, at most 1,000.
fn number_of(digits: &str) -> Result<u32, Fault>
    ensures few { IfOk result (λ n. n ≤ 1000) }
{
    match digits.parse::<u32>() {
        Ok(number) if number <= 1_000 => Ok(number),
        _ => Err(Fault::Faulty("no number")),
    }
}

/// The arguments of a line: natural numbers.
fn arguments_of(alloc: Global, text: &str) -> Result<Vec<Data>, Fault>
    ensures small { IfOk result (λ v. Each IsSmallData v.items) }
{
    let mut arguments: Vec<Data> = Vec::new(alloc);
    for word in text.split_whitespace() {
        arguments.push(number_data(alloc, number_of(word)?)?)?;
    }
    Ok(arguments)
}

/// Whether blocks may begin at `heap`: it is a multiple of 4 other than 0, at most the memory's size.
#[tactic(auto, using(mem_value::proofs::Heaps::heap_is))]
fn may_begin(machine: &Machine) -> bool
    requires for_call { IsForCall machine.now.program }
    ensures heap { result ≡ true → machine.now.failed ≡ false → HasHeap machine.now.program (store_of machine.now.state) }
{
    let heap = machine.heap();
    if heap == 0 || heap % 4 != 0 {
        return false;
    }
    heap as usize <= machine.memory().len()
}

/// Stores arguments in a fresh machine, runs it, and prints the data that it answers.
fn run_stored(
    alloc: Global,
    machine: &mut Machine,
    arguments: &[Data],
    out: &mut String,
) -> Result<(), Fault>
    requires unmade { machine.old.made ≡ 0 }
    requires for_call { IsForCall machine.old.program }
    requires small { Each IsSmallData arguments.now }
{
    if !may_begin(machine) {
        return Err(Fault::Faulty("no heap"));
    }
    match store_values(alloc, machine, arguments) {
        Ok(()) => {}
        Err(StoreFault::Memory) => return Err(Fault::Memory),
        Err(_) => return Err(Fault::Faulty("no room")),
    }
    match machine.run(STEPS) {
        Ok(Ended::Returned) => Ok(put_answer(alloc, machine, out)?),
        _ => Err(Fault::Faulty("no return")),
    }
}

/// Runs a module on the arguments of a line, in a new machine.
fn run_line(
    case: &Case,
    module: &Valid,
    pages: u32,
    text: &str,
    out: &mut String,
) -> Result<(), Fault> {
    let arguments = arguments_of(case.alloc, text)?;
    match Machine::new_call(case.alloc, module, pages) {
        Ok(mut machine) => run_stored(case.alloc, &mut machine, arguments.as_slice(), out),
        Err(_) => Err(Fault::Faulty("no machine")),
    }
}

/// Runs a module on the arguments of each line `arguments:`.
fn run_lines(case: &Case, module: &Valid, pages: u32, out: &mut String) -> Result<(), Fault> {
    out.push_str("a module")?;
    for field in case.row.fields() {
        if field.key == "arguments" {
            run_line(case, module, pages, field.value, out)?;
        }
    }
    Ok(())
}

/// Compiles an erased program whose main is a function of `count:` arguments, and runs its module on the arguments of each line.
pub fn run_calls(
    case: &Case,
    program: &BoxProgram,
    pages: u32,
    out: &mut String,
) -> Result<(), Fault>
    requires form { IsBoxProgram program.now }
    requires least { 1 ≤ pages }
    requires greatest { pages ≤ 16384 }
{
    let count = case.row.index("count")?;
    if count < 1 || count > 255 {
        return Err(Fault::Faulty("no count of arguments"));
    }
    match compile_call(case.alloc, program, count, pages) {
        Ok(module) => run_lines(case, &module, pages, out),
        Err(fault) => Ok(put_fault(out, fault)?),
    }
}

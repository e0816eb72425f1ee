//! Runs of a module on arguments that are stored before.
ghost use Rattle.std.specs.Prelude.{◌≡◌, false, true};
ghost use Rattle.wasm_core.specs.HostStore.{IsForCall};
ghost use Rattle.wasm_core.specs.ModuleCondition.{All as Each};
ghost use Rattle.wasm_core.specs.Runs.{store_of};
ghost use Rattle.mem_value.specs.Storing.{HasHeap, IsSmallData};

use crate::arguments::arguments_of;
use crate::running::{put_number, put_refusal, put_run};
use data_trees::Data;
use mem_value::{StoreFault, store_values};
use row_files::{Fault, Row};
use std::alloc::Global;
use wasm_core::Valid;
use wasm_run::Machine;

/// Whether blocks may begin at `heap`: it is a multiple of 4 other than 0, at most the memory's size.
#[tactic(auto, using(mem_value::proofs::Heaps::heap_is))]
fn may_begin(machine: &Machine) -> bool
    requires for_call { IsForCall machine.now.program }
    ensures heap { result ≡ true → machine.now.failed ≡ false → HasHeap machine.now.program (store_of machine.now.state) }
{
    let heap = machine.heap();
    if heap == 0 || heap % 4 != 0 {
        return false;
    }
    heap as usize <= machine.memory().len()
}

/// Stores arguments in a machine; false where there is no room, which is told.
fn store(
    alloc: Global,
    machine: &mut Machine,
    arguments: &[Data],
    out: &mut String,
) -> Result<bool, Fault>
    requires unmade { machine.old.made ≡ 0 }
    requires for_call { IsForCall machine.old.program }
    requires small { Each IsSmallData arguments.now }
    ensures kept { machine.new.program ≡ machine.old.program }
{
    if !may_begin(machine) {
        return Err(Fault::Faulty("no heap"));
    }
    match store_values(alloc, machine, arguments) {
        Ok(()) => Ok(true),
        Err(StoreFault::Exhausted) => {
            put_number(out, "no room: heap ", machine.heap() as u64)?;
            Ok(false)
        }
        Err(StoreFault::Failed) => Err(Fault::Faulty("failed")),
        Err(StoreFault::Memory) => Err(Fault::Memory),
    }
}

/// Stores arguments in two fresh machines, and makes a run of them with one, and again step by step with the other one.
fn run_stored(
    alloc: Global,
    machine: &mut Machine,
    cut: &mut Machine,
    arguments: &[Data],
    steps: u64,
    out: &mut String,
) -> Result<(), Fault>
    requires unmade { machine.old.made ≡ 0 }
    requires for_call { IsForCall machine.old.program }
    requires cut_unmade { cut.old.made ≡ 0 }
    requires cut_for_call { IsForCall cut.old.program }
    requires small { Each IsSmallData arguments.now }
{
    if !store(alloc, machine, arguments, out)? || !store(alloc, cut, arguments, out)? {
        return Ok(());
    }
    put_number(out, "heap ", machine.heap() as u64)?;
    out.push_str(", ")?;
    put_run(alloc, machine, cut, steps, out)
}

/// Runs `main` of a module on the row's arguments, with at most `cap` pages and at most `steps` steps, whole and cut into steps.
pub fn call(alloc: Global, valid: &Valid, row: &Row, out: &mut String) -> Result<(), Fault> {
    let cap = row.index("cap")?;
    let steps = row.number("steps", 1_000_000)?;
    let arguments = arguments_of(alloc, row)?;
    let mut machine = match Machine::new_call(alloc, valid, cap) {
        Ok(machine) => machine,
        Err(fault) => return Ok(put_refusal(out, fault)?),
    };
    let mut cut = match Machine::new_call(alloc, valid, cap) {
        Ok(machine) => machine,
        Err(fault) => return Ok(put_refusal(out, fault)?),
    };
    run_stored(
        alloc,
        &mut machine,
        &mut cut,
        arguments.as_slice(),
        steps,
        out,
    )
}

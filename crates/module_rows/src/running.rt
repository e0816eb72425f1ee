//! Runs of a module, whole and cut into runs of one step.
use crate::answers::put_answer;
use row_files::{Fault, Row};
use std::alloc::{AllocError, Global};
use wasm_core::{Ended, Entry, NewFault, RunFault, TrapKind, Valid};
use wasm_run::Machine;

/// The name of an entry.
fn entry_name(entry: Entry) -> &'static str {
    match entry {
        Entry::Main => "main",
        Entry::Memory => "memory",
        Entry::Result => "result",
        Entry::Status => "status",
        Entry::Heap => "heap",
        Entry::Args => "args",
    }
}

/// The name of a trap.
fn trap_name(kind: TrapKind) -> &'static str {
    match kind {
        TrapKind::Unreachable => "unreachable",
        TrapKind::OutOfBounds => "out of bounds",
        TrapKind::UndefinedElement => "undefined element",
        TrapKind::UninitializedElement => "uninitialized element",
        TrapKind::IndirectType => "indirect type",
    }
}

/// Why no machine is made.
pub fn put_refusal(out: &mut String, fault: NewFault) -> Result<(), AllocError> {
    match fault {
        NewFault::NoEntry(entry) => write!(out, "no entry {}", entry_name(entry)),
        NewFault::ElementPastTable { segment } => write!(out, "element {segment} past table"),
        NewFault::Pages => out.push_str("limit Pages"),
        NewFault::Table => out.push_str("limit Table"),
        NewFault::Memory => out.push_str("out of memory"),
    }
}

/// What a call of `run` answered.
fn put_end(out: &mut String, end: Result<Ended, RunFault>) -> Result<(), AllocError> {
    match end {
        Ok(Ended::Returned) => out.push_str("returned"),
        Ok(Ended::Trapped(kind)) => write!(out, "trapped: {}", trap_name(kind)),
        Err(RunFault::StepsSpent) => out.push_str("steps spent"),
        Err(RunFault::Failed) => out.push_str("failed"),
        Err(RunFault::Memory) => out.push_str("out of memory"),
    }
}

/// Prints a number behind some words.
pub fn put_number(out: &mut String, words: &str, number: u64) -> Result<(), AllocError> {
    write!(out, "{words}{number}")
}

/// What a machine shows.
fn put_machine(out: &mut String, machine: &Machine) -> Result<(), AllocError> {
    put_number(out, " after ", machine.steps())?;
    put_number(out, " steps, ", machine.pages() as u64)?;
    put_number(out, " pages, result ", machine.result() as u64)?;
    put_number(out, ", status ", machine.status() as u64)
}

/// Runs a machine step by step, as long as `steps` calls of one step don't end the run.
fn run_in_steps(machine: &mut Machine, steps: u64) -> Result<Ended, RunFault> {
    let mut last = machine.run(0);
    for _made in 0..steps {
        if last != Err(RunFault::StepsSpent) {
            return last;
        }
        last = machine.run(1);
    }
    last
}

/// Whether two machines show the same.
fn show_the_same(left: &Machine, right: &Machine) -> bool {
    left.steps() == right.steps()
        && left.pages() == right.pages()
        && left.result() == right.result()
        && left.status() == right.status()
        && left.memory() == right.memory()
}

/// Runs a fresh machine step by step, and prints what it shows where this isn't what the whole run ended with and shows.
fn compare_in_steps(
    out: &mut String,
    cut: &mut Machine,
    steps: u64,
    whole: &Machine,
    end: Result<Ended, RunFault>,
) -> Result<(), AllocError> {
    if run_in_steps(cut, steps) == end && show_the_same(whole, cut) {
        return Ok(());
    }
    out.push_str(", but cut into steps")?;
    put_machine(out, cut)
}

/// Makes a run with one of two fresh machines, and that run again step by step with the other one.
pub fn put_run(
    alloc: Global,
    machine: &mut Machine,
    cut: &mut Machine,
    steps: u64,
    out: &mut String,
) -> Result<(), Fault> {
    let end = machine.run(steps);
    put_end(out, end)?;
    put_machine(out, machine)?;
    compare_in_steps(out, cut, steps, machine, end)?;
    if end == Ok(Ended::Returned) {
        put_answer(alloc, machine, out)?;
    }
    Ok(())
}

/// Makes a run with a fresh machine, and again with another one.
fn put_runs(
    alloc: Global,
    valid: &Valid,
    machine: &mut Machine,
    cap: u32,
    steps: u64,
    out: &mut String,
) -> Result<(), Fault> {
    match Machine::new(alloc, valid, cap) {
        Ok(mut cut) => put_run(alloc, machine, &mut cut, steps, out),
        Err(fault) => Ok(put_refusal(out, fault)?),
    }
}

/// Makes a run with a fresh machine, and prints how many frames stand then, and the most that stood at once.
fn put_frames(machine: &mut Machine, steps: u64, out: &mut String) -> Result<(), Fault> {
    let end = machine.run(steps);
    put_end(out, end)?;
    put_number(out, " with frames: ", machine.frames())?;
    Ok(put_number(out, ", at most ", machine.peak())?)
}

/// Runs `main` of a module with at most `cap` pages and at most `steps` steps, and tells of its frames.
pub fn frames(alloc: Global, valid: &Valid, row: &Row, out: &mut String) -> Result<(), Fault> {
    let cap = row.index("cap")?;
    let steps = row.number("steps", 1_000_000)?;
    match Machine::new(alloc, valid, cap) {
        Ok(mut machine) => put_frames(&mut machine, steps, out),
        Err(fault) => Ok(put_refusal(out, fault)?),
    }
}

/// Runs `main` of a module with at most `cap` pages and at most `steps` steps, whole and cut into steps, which must show the same.
pub fn run(alloc: Global, valid: &Valid, row: &Row, out: &mut String) -> Result<(), Fault> {
    let cap = row.index("cap")?;
    let steps = row.number("steps", 1_000_000)?;
    match Machine::new(alloc, valid, cap) {
        Ok(mut machine) => put_runs(alloc, valid, &mut machine, cap, steps, out),
        Err(fault) => Ok(put_refusal(out, fault)?),
    }
}

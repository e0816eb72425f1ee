//! Writing, reading, checking and running of a module, and its answer.
ghost use Rattle.std.specs.Prelude.{◌≡◌, ℕ, length, Option, None, IfOk, IfErr, OnOk};
ghost use Rattle.wasm_core.specs.Parts.{Parts};
ghost use Rattle.wasm_core.specs.ModuleGrammar.{SpellsModule};
ghost use Rattle.wasm_core.specs.ModuleTyping.{IsValid};
ghost use Rattle.wasm_core.specs.ShortestBytes.{module_bytes};
ghost use Rattle.wasm_core.specs.MachineRun.{IsFreshMachine, refusal};
ghost use Rattle.wasm_core.specs.MachineStep.{State};
ghost use Rattle.module_run.specs.Ends.{AnswerSays, IsSmall, RunSaysFrom, StartsAt, WriteSays};
ghost use Rattle.module_run.specs.Figures.{FigureSays};
ghost use Rattle.module_run.specs.RunFacts.{RunIsTold, RunIsToldFrom};
ghost use Rattle.module_run.specs.declared.refusal.RunRefusal.TheVariants.{Memory};

use crate::answer::{Answer, Measured};
use crate::refusal::RunRefusal;
use mem_value::{AnswerFault, answer_tree};
use reports::Report;
use std::alloc::Global;
use wasm_core::{DecodeFault, EncodeFault, Ended, Module, NewFault, RunFault, Valid};
use wasm_decode::decode;
use wasm_encode::encode;
use wasm_run::Machine;
use wasm_validate::{Why, validate};

/// The module's shortest bytes.
pub(crate) fn written(alloc: Global, m: &Valid) -> Result<Vec<u8>, RunRefusal>
    ensures says { WriteSays (λ v. v.items) m.now result }
{
    match encode(alloc, m) {
        Ok(bytes) => Ok(bytes),
        Err(EncodeFault::Memory) => Err(RunRefusal::Memory),
        Err(EncodeFault::ModuleBytes) => Err(RunRefusal::ModuleBytes),
    }
}

/// The module that the bytes spell.
fn read(alloc: Global, bytes: &[u8]) -> Result<Module, RunRefusal>
    requires spelled { (m : Parts) × SpellsModule bytes.now m }
    ensures program { (m : Parts) → SpellsModule bytes.now m → IfOk result (λ d. d ≡ m) }
    ensures only_memory { IfErr result (λ e. e ≡ Memory) }
{
    match decode(alloc, bytes) {
        Ok(program) => Ok(program),
        Err(DecodeFault::Memory) => Err(RunRefusal::Memory),
        Err(DecodeFault::Bad { .. }) => unreachable!(),
    }
}

/// The module, which has a typing.
fn checked(alloc: Global, program: Module) -> Result<Valid, RunRefusal>
    requires valid { IsValid program }
    ensures same { IfOk result (λ v. v ≡ program) }
    ensures only_memory { IfErr result (λ e. e ≡ Memory) }
{
    match validate(alloc, program) {
        Ok(valid) => Ok(valid),
        Err(refused) => match refused.why {
            Why::Memory => Err(RunRefusal::Memory),
            Why::Invalid { .. } => unreachable!(),
        },
    }
}

/// The valid module that the bytes spell.
pub(crate) fn loaded(alloc: Global, bytes: &[u8]) -> Result<Valid, RunRefusal>
    requires spelled { (m : Parts) × SpellsModule bytes.now m × IsValid m }
    ensures program { (m : Parts) → SpellsModule bytes.now m → IfOk result (λ v. v ≡ m) }
    ensures only_memory { IfErr result (λ e. e ≡ Memory) }
{
    let program = read(alloc, bytes)?;
    checked(alloc, program)
}

/// A machine at the start of a run of `main`.
fn started<'m>(alloc: Global, program: &'m Valid, cap: u32) -> Result<Machine<'m>, RunRefusal>
    requires starts { refusal program.now cap ≡ None }
    ensures fresh { IfOk result (λ a. IsFreshMachine program.now cap a) }
    ensures only_memory { IfErr result (λ e. e ≡ Memory) }
{
    match Machine::new(alloc, program, cap) {
        Ok(machine) => Ok(machine),
        Err(NewFault::Memory) => Err(RunRefusal::Memory),
        Err(NewFault::NoEntry(_)) => unreachable!(),
        Err(NewFault::Pages) => unreachable!(),
        Err(NewFault::Table) => unreachable!(),
        Err(NewFault::ElementPastTable { .. }) => unreachable!(),
    }
}

/// The run of a machine that has made no step yet, up to its return, in at most so many steps: from the state in which a run of `main` starts, or in which a host has made it ready.
///
/// `StepsSpent` exactly where it hadn't ended after so many; `Exhausted` exactly where it trapped with the status 1, and `Trapped` exactly where it trapped with
/// another. No other refusal but `Memory`. Each report is told the facts of the steps that were made, as `Machine::run_told` says.
pub fn returned<R: Report>(
    machine: &mut Machine,
    steps: u64,
    reports: &mut Vec<R>,
) -> Result<(), RunRefusal>
    requires start { (o : Option State) × (m : Parts) × (cap : ℕ) × StartsAt o m cap machine.old }
    ensures says { (o : Option State) (m : Parts) (cap : ℕ) → StartsAt o m cap machine.old → RunSaysFrom o m cap steps machine.new result }
    ensures told { (o : Option State) (m : Parts) (cap : ℕ) → StartsAt o m cap machine.old → OnOk result (RunIsToldFrom R.shown o m cap steps reports.old.items reports.new.items) }
{
    match machine.run_told(steps, reports) {
        Ok(Ended::Returned) => Ok(()),
        Ok(Ended::Trapped(kind)) => {
            if machine.status() == 1 {
                return Err(RunRefusal::Exhausted);
            }
            Err(RunRefusal::Trapped { kind })
        }
        Err(RunFault::Memory) => Err(RunRefusal::Memory),
        Err(RunFault::StepsSpent) => Err(RunRefusal::StepsSpent),
        Err(RunFault::Failed) => unreachable!(),
    }
}

/// The word that a machine answers, with the data that it stands for.
///
/// `NoValue` exactly where it stands for none, with that word; `AnswerNodes` exactly where the data has over 4,000,000 nodes. No other refusal but `Memory`.
pub fn answered(alloc: Global, machine: &Machine) -> Result<Answer, RunRefusal>
    ensures says { AnswerSays machine.now result }
{
    let word = machine.result();
    match answer_tree(alloc, machine) {
        Ok(tree) => Ok(Answer { word, tree }),
        Err(AnswerFault::Memory) => Err(RunRefusal::Memory),
        Err(AnswerFault::NotAValue { word }) => Err(RunRefusal::NoValue { word }),
        Err(AnswerFault::AnswerNodes) => Err(RunRefusal::AnswerNodes),
    }
}

/// The word and the data that a run of the module answers, in at most so many steps, with the run's figures. Its shortest bytes are so many. Where there is an answer, each report is
/// told the facts of the run.
fn run<R: Report>(
    alloc: Global,
    program: &Valid,
    bytes: usize,
    cap: u32,
    steps: u64,
    reports: &mut Vec<R>,
) -> Result<Measured, RunRefusal>
    requires starts { refusal program.now cap ≡ None }
    requires small { IsSmall program.now }
    requires length { bytes ≡ length (module_bytes program.now) }
    ensures says { FigureSays program.now cap steps result }
    ensures told { OnOk result (RunIsTold R.shown program.now cap steps reports.old.items reports.new.items) }
{
    let mut machine = started(alloc, program, cap)?;
    returned(&mut machine, steps, reports)?;
    let answer = answered(alloc, &machine)?;
    Ok(Measured {
        answer,
        bytes: bytes as u64,
        steps: machine.steps(),
        pages: machine.pages(),
    })
}

/// What a module's run of `main` answers, the word in `result` and the data that it stands for, with the run's figures: the module is written as its shortest bytes, these are read and checked again, and that module is run by a machine whose memory grows to at most `cap` pages of 65,536 bytes, in at most
/// `steps` steps. Where there is an answer, each report is told the facts of that run: each step with its class, and each grow of memory that wasn't refused.
///
/// `ModuleBytes` exactly where the bytes pass 16 MiB; `StepsSpent` exactly where the run hadn't ended after so many steps; `Exhausted` exactly where it trapped with
/// the status 1, and `Trapped` exactly where it trapped with another; `NoValue` exactly where it returned and the word in `result` stands for no data, with that
/// word; `AnswerNodes` exactly where the data has over 4,000,000 nodes.
pub fn answer_of<R: Report>(
    alloc: Global,
    m: &Valid,
    cap: u32,
    steps: u64,
    reports: &mut Vec<R>,
) -> Result<Measured, RunRefusal>
    requires starts { refusal m.now cap ≡ None }
    ensures says { FigureSays m.now cap steps result }
    ensures told { OnOk result (RunIsTold R.shown m.now cap steps reports.old.items reports.new.items) }
    ensures spelled { IfOk result (λ _. SpellsModule (module_bytes m.now) m.now) }
{
    let _module = m.module();
    let bytes = written(alloc, m)?;
    let program = loaded(alloc, bytes.as_slice())?;
    run(alloc, &program, bytes.len(), cap, steps, reports)
}

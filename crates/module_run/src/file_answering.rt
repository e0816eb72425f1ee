//! The stages from a module's bytes to its answer.
ghost use Rattle.std.specs.Prelude.{◌≡◌, ◌≢◌, ℕ, OnOk};
ghost use Rattle.wasm_core.specs.Parts.{Parts};
ghost use Rattle.wasm_core.specs.MachineRun.{IsFreshMachine};
ghost use Rattle.module_run.specs.declared.refusal.RunRefusal.TheVariants.{ModuleBytes};
ghost use Rattle.module_run.specs.FileEnds.{ValidateSays, FileEnds, ProgramEnds, DecodeSays, RunEnds, StartSays, of_run};
ghost use Rattle.module_run.specs.RunFacts.{FileIsTold, RunIsTold};

use crate::answering::{answered, returned};
use crate::file_refusal::FileRefusal;
use crate::refusal::RunRefusal;
use data_trees::Data;
use reports::Report;
use std::alloc::Global;
use wasm_core::{DecodeFault, Module, NewFault, Valid};
use wasm_decode::decode;
use wasm_run::Machine;
use wasm_validate::{Why, validate};

/// The module that the bytes spell.
fn read(alloc: Global, bytes: &[u8]) -> Result<Module, FileRefusal>
    ensures says { DecodeSays result bytes.now }
{
    match decode(alloc, bytes) {
        Ok(module) => Ok(module),
        Err(DecodeFault::Bad { offset }) => Err(FileRefusal::Bad { offset }),
        Err(DecodeFault::Memory) => Err(FileRefusal::Memory),
    }
}

/// The module, where it has a typing.
fn checked(alloc: Global, decoded: Module) -> Result<Valid, FileRefusal>
    ensures says { ValidateSays result decoded }
{
    match validate(alloc, decoded) {
        Ok(valid) => Ok(valid),
        Err(refused) => match refused.why {
            Why::Invalid { func, place } => Err(FileRefusal::Invalid { func, place }),
            Why::Memory => Err(FileRefusal::Memory),
        },
    }
}

/// A machine at the start of a run of `main`, whose memory grows to at most `cap` pages.
fn started<'m>(alloc: Global, program: &'m Valid, cap: u32) -> Result<Machine<'m>, FileRefusal>
    ensures says { StartSays program.now cap result }
{
    match Machine::new(alloc, program, cap) {
        Ok(machine) => Ok(machine),
        Err(NewFault::NoEntry(entry)) => Err(FileRefusal::NoEntry { entry }),
        Err(NewFault::Pages) => Err(FileRefusal::Pages),
        Err(NewFault::Table) => Err(FileRefusal::Table),
        Err(NewFault::ElementPastTable { .. }) => Err(FileRefusal::ElementPastTable),
        Err(NewFault::Memory) => Err(FileRefusal::Memory),
    }
}

/// The refusal of a run, which writes no bytes.
fn refused(why: RunRefusal) -> FileRefusal
    requires no_bytes { why ≢ ModuleBytes }
    ensures is { result ≡ of_run why }
{
    match why {
        RunRefusal::ModuleBytes => unreachable!(),
        RunRefusal::Exhausted => FileRefusal::Exhausted,
        RunRefusal::StepsSpent => FileRefusal::StepsSpent,
        RunRefusal::Trapped { kind } => FileRefusal::Trapped { kind },
        RunRefusal::NoValue { word } => FileRefusal::NoValue { word },
        RunRefusal::AnswerNodes => FileRefusal::AnswerNodes,
        RunRefusal::Memory => FileRefusal::Memory,
    }
}

/// The data that a machine's run answers, in at most so many steps. Where there is some, each report is told the facts of the run.
fn finished<R: Report>(
    alloc: Global,
    machine: &mut Machine,
    steps: u64,
    reports: &mut Vec<R>,
) -> Result<Data, FileRefusal>
    requires fresh { (m : Parts) × (cap : ℕ) × IsFreshMachine m cap machine.old }
    ensures says { (m : Parts) (cap : ℕ) → IsFreshMachine m cap machine.old → RunEnds m cap steps result }
    ensures told { (m : Parts) (cap : ℕ) → IsFreshMachine m cap machine.old → OnOk result (RunIsTold R.shown m cap steps reports.old.items reports.new.items) }
{
    match returned(machine, steps, reports) {
        Ok(()) => match answered(alloc, machine) {
            Ok(answer) => Ok(answer.tree),
            Err(why) => Err(refused(why)),
        },
        Err(why) => Err(refused(why)),
    }
}

/// The data that a module's run answers.
fn run<R: Report>(
    alloc: Global,
    program: &Valid,
    cap: u32,
    steps: u64,
    reports: &mut Vec<R>,
) -> Result<Data, FileRefusal>
    ensures says { ProgramEnds program.now cap steps result }
    ensures told { OnOk result (RunIsTold R.shown program.now cap steps reports.old.items reports.new.items) }
{
    let mut machine = started(alloc, program, cap)?;
    finished(alloc, &mut machine, steps, reports)
}

/// What the run of `main` of a module answers that is given as bytes: the data that the word in `result` stands for. Its memory grows to at most `cap` pages of 65,536 bytes,
/// and the run makes at most `steps` steps.
///
/// The first stage that refuses decides, in the order of the variants of `FileRefusal`: the bytes spell no module (WebAssembly Core Specification, chapter 5); it has no typing
/// (chapter 3); no machine is made of it; its run ends without data. Where there is data, each report is told the facts of the run, as by `answer_of`.
pub fn answer_of_file<R: Report>(
    alloc: Global,
    bytes: &[u8],
    cap: u32,
    steps: u64,
    reports: &mut Vec<R>,
) -> Result<Data, FileRefusal>
    ensures says { FileEnds bytes.now cap steps result }
    ensures told { OnOk result (FileIsTold R.shown bytes.now cap steps reports.old.items reports.new.items) }
{
    let module = read(alloc, bytes)?;
    let program = checked(alloc, module)?;
    run(alloc, &program, cap, steps, reports)
}

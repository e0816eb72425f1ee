//! A call of a module's `main`: writing, reading, checking of the module, storing of the arguments, and the run.
ghost use Rattle.std.specs.Prelude.{◌≡◌, None, IfOk, IfErr, OnOk};
ghost use Rattle.mem_value.specs.Storing.{IsSmallData};
ghost use Rattle.wasm_core.specs.HostStore.{IsForCall};
ghost use Rattle.wasm_core.specs.ModuleCondition.{All as Each};
ghost use Rattle.wasm_core.specs.MachineRun.{IsFreshMachine, refusal_for_call};
ghost use Rattle.wasm_core.specs.ModuleGrammar.{SpellsModule};
ghost use Rattle.wasm_core.specs.ShortestBytes.{module_bytes};
ghost use Rattle.module_run.specs.CallEnds.{CallEnds, HasHeapAtStart, HostSays};
ghost use Rattle.module_run.specs.CallFacts.{CallRunIsTold};
ghost use Rattle.module_run.specs.Ends.{IsSmall};
ghost use Rattle.module_run.specs.declared.refusal.RunRefusal.TheVariants.{Memory};

use crate::answer::Answer;
use crate::answering::{answered, loaded, returned, written};
use crate::refusal::RunRefusal;
use data_trees::Data;
use mem_value::{StoreFault, store_values};
use reports::Report;
use std::alloc::Global;
use wasm_core::{NewFault, Valid};
use wasm_run::Machine;

/// A machine at the start of a run of `main`, for a host that gives arguments.
fn started_for_call<'m>(
    alloc: Global,
    program: &'m Valid,
    cap: u32,
) -> Result<Machine<'m>, RunRefusal>
    requires starts { refusal_for_call program.now cap ≡ None }
    ensures fresh { IfOk result (λ a. IsFreshMachine program.now cap a) }
    ensures for_call { IfOk result (λ a. IsForCall a.program) }
    ensures only_memory { IfErr result (λ e. e ≡ Memory) }
{
    match Machine::new_call(alloc, program, cap) {
        Ok(machine) => Ok(machine),
        Err(NewFault::Memory) => Err(RunRefusal::Memory),
        Err(NewFault::NoEntry(_)) => unreachable!(),
        Err(NewFault::Pages) => unreachable!(),
        Err(NewFault::Table) => unreachable!(),
        Err(NewFault::ElementPastTable { .. }) => unreachable!(),
    }
}

/// A machine in whose memory the arguments are stored, at the start of a run of `main`.
///
/// `Exhausted` exactly where there is no room for them. No other refusal but `Memory`.
fn hosted<'m>(
    alloc: Global,
    program: &'m Valid,
    arguments: &[Data],
    cap: u32,
) -> Result<Machine<'m>, RunRefusal>
    requires starts { refusal_for_call program.now cap ≡ None }
    requires heap { HasHeapAtStart program.now }
    requires small { Each IsSmallData arguments.now }
    ensures says { HostSays program.now cap arguments.now result }
{
    let mut machine = started_for_call(alloc, program, cap)?;
    match store_values(alloc, &mut machine, arguments) {
        Ok(()) => Ok(machine),
        Err(StoreFault::Exhausted) => Err(RunRefusal::Exhausted),
        Err(StoreFault::Memory) => Err(RunRefusal::Memory),
        Err(StoreFault::Failed) => unreachable!(),
    }
}

/// The word and the data that a run of the module answers, with the arguments in memory, in at most so many steps. Where there is an answer, each report is told the facts of the run.
fn run_call<R: Report>(
    alloc: Global,
    program: &Valid,
    arguments: &[Data],
    cap: u32,
    steps: u64,
    reports: &mut Vec<R>,
) -> Result<Answer, RunRefusal>
    requires starts { refusal_for_call program.now cap ≡ None }
    requires heap { HasHeapAtStart program.now }
    requires small_data { Each IsSmallData arguments.now }
    requires small { IsSmall program.now }
    ensures says { CallEnds program.now cap steps arguments.now result }
    ensures told { OnOk result (CallRunIsTold R.shown program.now cap steps arguments.now reports.old.items reports.new.items) }
{
    let mut machine = hosted(alloc, program, arguments, cap)?;
    returned(&mut machine, steps, reports)?;
    answered(alloc, &machine)
}

/// What a call of a module's `main` with these arguments answers, the word in `result` and the data that it stands for: the module is written as its shortest bytes, these are read and checked again, the arguments are
/// stored in the memory of a machine of that module, which grows to at most `cap` pages of 65,536 bytes, and that machine runs `main` in at most `steps` steps. Where there is an answer, each report is told the
/// facts of that run.
///
/// `ModuleBytes` exactly where the bytes pass 16 MiB; `Exhausted` exactly where there is no room for the arguments, or the run trapped with the status 1; the others come of the run as in `answer_of`.
pub fn answer_of_call<R: Report>(
    alloc: Global,
    m: &Valid,
    arguments: &[Data],
    cap: u32,
    steps: u64,
    reports: &mut Vec<R>,
) -> Result<Answer, RunRefusal>
    requires starts { refusal_for_call m.now cap ≡ None }
    requires heap { HasHeapAtStart m.now }
    requires small_data { Each IsSmallData arguments.now }
    ensures says { CallEnds m.now cap steps arguments.now result }
    ensures told { OnOk result (CallRunIsTold R.shown m.now cap steps arguments.now reports.old.items reports.new.items) }
    ensures spelled { IfOk result (λ _. SpellsModule (module_bytes m.now) m.now) }
{
    let _module = m.module();
    let bytes = written(alloc, m)?;
    let program = loaded(alloc, bytes.as_slice())?;
    run_call(alloc, &program, arguments, cap, steps, reports)
}

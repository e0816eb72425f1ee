//! The module of a program after erasure, and its answer.
ghost use Rattle.std.specs.Prelude.{◌≡◌, ◌<◌, ◌≤◌, IfOk, OnOk};
ghost use Rattle.lambda_box.specs.BoxForm.{IsBoxProgram};
ghost use Rattle.lambda_box.specs.BoxProgram.{BoxProgram as Program};
ghost use Rattle.wasm_core.specs.ModuleGrammar.{SpellsModule};
ghost use Rattle.wasm_core.specs.ShortestBytes.{module_bytes};
ghost use Rattle.known_calls.specs.KnownModule.{module_of};
ghost use Rattle.back_end.specs.BackEnd.{passed};
ghost use Rattle.compile.specs.Passes.{Fits};
ghost use Rattle.module_run.specs.RunFacts.{RunIsTold};
ghost use Rattle.driver.specs.ExecEnds.{MeasuredSays, PassesSay};

use crate::refusal::{ProgramLimit, Refusal, RunEnd};
use box_terms::program::BoxProgram;
use compile::{CompileFault, compile};
use known_calls::known_status_tells;
use module_run::{Measured, RunRefusal, answer_of};
use reports::Report;
use std::alloc::Global;
use wasm_core::Valid;

/// The module of a program, whose memory grows to at most so many pages of 65,536 bytes.
pub(crate) fn compiled(alloc: Global, pages: u32, program: &BoxProgram) -> Result<Valid, Refusal>
    requires range { (0 < pages) × (pages ≤ 16384) }
    requires form { IsBoxProgram program.now }
    ensures says { PassesSay pages program.now result }
{
    match compile(alloc, program, pages) {
        Ok(module) => Ok(module),
        Err(CompileFault::Depth) => Err(Refusal::Depth),
        Err(CompileFault::Captured) => Err(Refusal::Program {
            which: ProgramLimit::Captured,
        }),
        Err(CompileFault::Functions) => Err(Refusal::Program {
            which: ProgramLimit::Functions,
        }),
        Err(CompileFault::Locals) => Err(Refusal::Program {
            which: ProgramLimit::Locals,
        }),
        Err(CompileFault::Memory) => Err(Refusal::Memory),
    }
}

/// What a program's module answers, in at most so many steps, with the figures of its run. Where it answers, each report is told the facts of the run.
pub(crate) fn measured<R: Report>(
    alloc: Global,
    pages: u32,
    steps: u32,
    module: &Valid,
    reports: &mut Vec<R>,
) -> Result<Measured, Refusal>
    requires range { (0 < pages) × (pages ≤ 16384) }
    requires compiled { (P : Program) × IsBoxProgram P × Fits P × (module.now ≡ module_of (passed P) pages) }
    ensures says { MeasuredSays module.now pages steps result }
    ensures spelled { IfOk result (λ _. SpellsModule (module_bytes module.now) module.now) }
    ensures told { OnOk result (RunIsTold R.shown module.now pages steps reports.old.items reports.new.items) }
{
    known_status_tells();
    match answer_of(alloc, module, pages, u64::from(steps), reports) {
        Ok(run) => Ok(run),
        Err(RunRefusal::ModuleBytes) => Err(Refusal::Program {
            which: ProgramLimit::ModuleBytes,
        }),
        Err(RunRefusal::Exhausted) => Err(Refusal::Run {
            why: RunEnd::Exhausted,
        }),
        Err(RunRefusal::StepsSpent) => Err(Refusal::Run {
            why: RunEnd::StepsSpent,
        }),
        Err(RunRefusal::Trapped { kind }) => Err(Refusal::Run {
            why: RunEnd::Trapped { kind },
        }),
        Err(RunRefusal::NoValue { word }) => Err(Refusal::Run {
            why: RunEnd::NoValue { word },
        }),
        Err(RunRefusal::AnswerNodes) => Err(Refusal::AnswerNodes),
        Err(RunRefusal::Memory) => Err(Refusal::Memory),
    }
}

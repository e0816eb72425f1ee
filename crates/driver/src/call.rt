//! The job `call`: from the bytes of a dump and of arguments behind it to the text of what main's module answers to them. `called_main` has the stages to the module; then come its call (`called`) and the
//! text of the answer (`line_of`).
ghost use Rattle.std.specs.Prelude.{IfOk, OnOk, length};
ghost use Rattle.data_trees.specs.Preorder.{IsTree};
ghost use Rattle.mem_value.specs.Storing.{IsSmallData};
ghost use Rattle.wasm_core.specs.ModuleCondition.{All as Each};
ghost use Rattle.wasm_core.specs.ModuleGrammar.{SpellsModule};
ghost use Rattle.wasm_core.specs.ShortestBytes.{module_bytes};
ghost use Rattle.module_run.specs.CallFacts.{CallRunIsTold};
ghost use Rattle.command_line.specs.declared.job.Job.TheVariants.{Call};
ghost use Rattle.command_line.specs.Line.{IsInRange};
ghost use Rattle.driver.specs.CallEnds.{CallSays};
ghost use Rattle.driver.specs.CalledMain.{IsCallCompiled};
ghost use Rattle.driver.specs.JobFacts.{JobIsTold};
ghost use Rattle.driver.specs.Serve.{JobSays};

use crate::called_main::called_main;
use crate::exec::line_of;
use crate::refusal::{ProgramLimit, Refusal, RunEnd};
use call_answers::called_programs_answer;
use command_line::Request;
use data_trees::Data;
use module_run::{Answer, RunRefusal, answer_of_call};
use reports::Report;
use std::alloc::Global;
use wasm_core::Valid;

/// What a call of a module's main with these arguments answers, in at most so many steps. Where it answers, each report is told the facts of the run.
fn called<R: Report>(
    alloc: Global,
    request: Request,
    module: &Valid,
    arguments: &[Data],
    reports: &mut Vec<R>,
) -> Result<Answer, Refusal>
    requires range { IsInRange request }
    requires compiled { IsCallCompiled module.now (length arguments.now) request.pages }
    requires small { Each IsSmallData arguments.now }
    requires trees { Each IsTree arguments.now }
    ensures says { CallSays module.now request.pages request.steps arguments.now result }
    ensures spelled { IfOk result (λ _. SpellsModule (module_bytes module.now) module.now) }
    ensures told { OnOk result (CallRunIsTold R.shown module.now request.pages request.steps arguments.now reports.old.items reports.new.items) }
{
    called_programs_answer();
    let steps = u64::from(request.steps);
    match answer_of_call(alloc, module, arguments, request.pages, steps, reports) {
        Ok(answer) => Ok(answer),
        Err(RunRefusal::ModuleBytes) => Err(Refusal::Program {
            which: ProgramLimit::ModuleBytes,
        }),
        Err(RunRefusal::Exhausted) => Err(Refusal::Run {
            why: RunEnd::Exhausted,
        }),
        Err(RunRefusal::StepsSpent) => Err(Refusal::Run {
            why: RunEnd::StepsSpent,
        }),
        Err(RunRefusal::Trapped { kind }) => Err(Refusal::Run {
            why: RunEnd::Trapped { kind },
        }),
        Err(RunRefusal::NoValue { word }) => Err(Refusal::Run {
            why: RunEnd::NoValue { word },
        }),
        Err(RunRefusal::AnswerNodes) => Err(Refusal::AnswerNodes),
        Err(RunRefusal::Memory) => Err(Refusal::Memory),
    }
}

/// The text of the answer on a dump with arguments behind it. Where there is one, each report is told the facts of the check and of the run.
pub(crate) fn call<R: Report>(
    alloc: Global,
    request: Request,
    bytes: &[u8],
    reports: &mut Vec<R>,
) -> Result<Vec<u8>, Refusal>
    requires range { IsInRange request }
    ensures says { JobSays Call request (λ v. v.items) result bytes.now }
    ensures told { OnOk result (JobIsTold R.shown Call request bytes.now reports.old.items reports.new.items) }
{
    let main = called_main(alloc, request, bytes, reports)?;
    let answer = called(
        alloc,
        request,
        &main.module,
        main.arguments.as_slice(),
        reports,
    )?;
    line_of(
        alloc,
        &answer,
        &main.signature.answer,
        &main.environment.names,
    )
}

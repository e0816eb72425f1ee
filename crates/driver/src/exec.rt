//! The job `exec`: from the bytes of a dump to the text of what main's module answers; and the figures of that for `bench`. `main_module` has the stages to the module; then come its run (`measured`)
//! and the text of its answer (`line_of`).
ghost use Rattle.std.specs.Prelude.{OnOk};
ghost use Rattle.first_order.specs.Texts.{HasNames};
ghost use Rattle.command_line.specs.declared.job.Job.TheVariants.{Exec};
ghost use Rattle.command_line.specs.Line.{IsInRange};
ghost use Rattle.driver.specs.Figures.{ExecutedSays};
ghost use Rattle.driver.specs.JobFacts.{JobIsTold};
ghost use Rattle.driver.specs.ExecEnds.{TextSays};
ghost use Rattle.driver.specs.Serve.{JobSays};

use crate::main_module::main_module;
use crate::refusal::{Refusal, RunEnd};
use crate::running::measured;
use command_line::Request;
use dump_reader::names::Names;
use first_order::faults::TextFault;
use first_order::shapes::Shapes;
use first_order::texts::text_of;
use module_run::Answer;
use reports::Report;
use std::alloc::Global;

/// What main's module answers, with the figures of its environment and its run.
#[derive(Drop)]
pub(crate) struct Executed {
    /// The declarations of the environment.
    pub(crate) declarations: u64,
    /// The length of the module's shortest bytes.
    pub(crate) bytes: u64,
    /// The steps of its run.
    pub(crate) steps: u64,
    /// The pages of memory at its end, of 65,536 bytes each.
    pub(crate) pages: u32,
    /// The text of the answer, and LF.
    pub(crate) line: Vec<u8>,
}

/// The text of the data at the types, and LF.
pub(crate) fn line_of(
    alloc: Global,
    answer: &Answer,
    shapes: &Shapes,
    names: &Names,
) -> Result<Vec<u8>, Refusal>
    requires named { HasNames shapes.now.types names.now }
    ensures says { TextSays (λ v. v.items) shapes.now.types names.now answer.now result }
{
    match text_of(alloc, &answer.tree, shapes, names) {
        Ok(mut text) => {
            text.push(b'\n')?;
            Ok(text)
        }
        Err(TextFault::Memory) => Err(Refusal::Memory),
        Err(TextFault::NotOfShape { .. }) => Err(Refusal::Run {
            why: RunEnd::NoValue { word: answer.word },
        }),
        Err(TextFault::AnswerNodes) => unreachable!(),
    }
}

/// What main's module answers on a dump: the module, its answer, and the text of that, with the figures. Each report is told the facts of the check before the run, and those of the run.
pub(crate) fn execute<R: Report>(
    alloc: Global,
    request: Request,
    bytes: &[u8],
    reports: &mut Vec<R>,
) -> Result<Executed, Refusal>
    requires range { IsInRange request }
    ensures says { ExecutedSays request result bytes.now }
    ensures told { OnOk result (JobIsTold R.shown Exec request bytes.now reports.old.items reports.new.items) }
{
    let main = main_module(alloc, request, bytes, reports)?;
    let run = measured(alloc, request.pages, request.steps, &main.module, reports)?;
    let line = line_of(alloc, &run.answer, &main.shapes, &main.environment.names)?;
    Ok(Executed {
        declarations: main.environment.decls.len() as u64,
        bytes: run.bytes,
        steps: run.steps,
        pages: run.pages,
        line,
    })
}

/// The text of the answer on a dump.
pub(crate) fn exec<R: Report>(
    alloc: Global,
    request: Request,
    bytes: &[u8],
    reports: &mut Vec<R>,
) -> Result<Vec<u8>, Refusal>
    requires range { IsInRange request }
    ensures says { JobSays Exec request (λ v. v.items) result bytes.now }
    ensures told { OnOk result (JobIsTold R.shown Exec request bytes.now reports.old.items reports.new.items) }
{
    let executed = execute(alloc, request, bytes, reports)?;
    Ok(executed.line)
}

//! The job `run`: from the bytes of a module to the text of its answer.
ghost use Rattle.std.specs.Prelude.{◌≡◌, ◌++◌, ◌∷◌, [], ℕ, List, IfOk, IfErr, OnOk};
ghost use Rattle.first_order.specs.Texts.{IsText, by_tags};
ghost use Rattle.command_line.specs.declared.job.Job.TheVariants.{Run};
ghost use Rattle.driver.specs.JobFacts.{JobIsTold};
ghost use Rattle.driver.specs.RunFile.{refusal_of_file};
ghost use Rattle.driver.specs.Serve.{JobSays};

use crate::refusal::{ModuleFault, Refusal, RunEnd};
use command_line::Request;
use data_trees::Data;
use first_order::faults::TextFault;
use first_order::texts::tags_of;
use module_run::{FileRefusal, answer_of_file};
use reports::Report;
use std::alloc::Global;

/// The refusal of a module's answer, as one of the job.
fn refused(why: FileRefusal) -> Refusal
    ensures is { result ≡ refusal_of_file why }
{
    let module = match why {
        FileRefusal::Bad { offset } => ModuleFault::Bad { offset },
        FileRefusal::Invalid { func, place } => ModuleFault::Invalid { func, place },
        FileRefusal::NoEntry { entry } => ModuleFault::NoEntry { entry },
        FileRefusal::Pages => ModuleFault::Pages,
        FileRefusal::Table => ModuleFault::Table,
        FileRefusal::ElementPastTable => ModuleFault::ElementPastTable,
        FileRefusal::Exhausted => return ended(RunEnd::Exhausted),
        FileRefusal::StepsSpent => return ended(RunEnd::StepsSpent),
        FileRefusal::Trapped { kind } => return ended(RunEnd::Trapped { kind }),
        FileRefusal::NoValue { word } => return ended(RunEnd::NoValue { word }),
        FileRefusal::AnswerNodes => return Refusal::AnswerNodes,
        FileRefusal::Memory => return Refusal::Memory,
    };
    Refusal::Module { why: module }
}

/// The refusal of a run.
fn ended(why: RunEnd) -> Refusal
    ensures is { result ≡ Refusal.Run why }
{
    Refusal::Run { why }
}

/// The text of data by the numbers of constructors, and LF.
fn line_of(alloc: Global, tree: &Data) -> Result<Vec<u8>, Refusal>
    ensures line { IfOk result (λ v. (line : List ℕ) × IsText by_tags 0 tree.now line × (v.items ≡ line ++ 10 ∷ [])) }
    ensures only_memory { IfErr result (λ r. r ≡ Refusal.Memory) }
{
    match tags_of(alloc, tree) {
        Ok(mut text) => {
            text.push(b'\n')?;
            Ok(text)
        }
        Err(TextFault::Memory) => Err(Refusal::Memory),
        Err(TextFault::NotOfShape { .. }) => unreachable!(),
        Err(TextFault::AnswerNodes) => unreachable!(),
    }
}

/// The text of the answer on a module: its run's data by the numbers of constructors, with LF. The pages and steps are those of the request. Each report is told the facts of the run.
pub(crate) fn run<R: Report>(
    alloc: Global,
    request: Request,
    bytes: &[u8],
    reports: &mut Vec<R>,
) -> Result<Vec<u8>, Refusal>
    ensures says { JobSays Run request (λ v. v.items) result bytes.now }
    ensures told { OnOk result (JobIsTold R.shown Run request bytes.now reports.old.items reports.new.items) }
{
    match answer_of_file(
        alloc,
        bytes,
        request.pages,
        u64::from(request.steps),
        reports,
    ) {
        Ok(tree) => line_of(alloc, &tree),
        Err(why) => Err(refused(why)),
    }
}

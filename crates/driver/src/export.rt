//! The job `export`: from the bytes of a dump whose main is a function to those of the module for calls of main. `call_module` has the stages to the module; then its bytes are written (`written`).
ghost use Rattle.std.specs.Prelude.{OnOk};
ghost use Rattle.command_line.specs.declared.job.Job.TheVariants.{Export};
ghost use Rattle.command_line.specs.Line.{IsInRange};
ghost use Rattle.driver.specs.ExportSays.{CallModuleSays};
ghost use Rattle.driver.specs.JobFacts.{JobIsTold};
ghost use Rattle.driver.specs.Serve.{JobSays};

use crate::callable::{call_compiled, count_arguments, signature_of};
use crate::check::{accept_within, units};
use crate::erasing::erased;
use crate::object::written;
use crate::refusal::Refusal;
use command_line::Request;
use dump_reader::reading::read_env;
use reports::Report;
use std::alloc::Global;
use wasm_core::Valid;

/// The module for calls of main of a dump: the stages from its bytes to the module, in order. One meter serves the check, the search for the signature and erasure. `call_compiled` goes through the
/// passes, which are those of crate `compile`. Each report is told the facts of the check.
fn call_module<R: Report>(
    alloc: Global,
    request: Request,
    bytes: &[u8],
    reports: &mut Vec<R>,
) -> Result<Valid, Refusal>
    requires range { IsInRange request }
    ensures says { CallModuleSays request result bytes.now }
    ensures told { OnOk result (JobIsTold R.shown Export request bytes.now reports.old.items reports.new.items) }
{
    let environment = read_env(alloc, bytes)?;
    let mut meter = units(request.turns);
    let accepted = accept_within(alloc, request.turns, &environment, &mut meter, reports)?;
    let signature = signature_of(alloc, &accepted, &mut meter)?;
    let program = erased(alloc, &environment, &accepted, &mut meter)?;
    let count = count_arguments(&signature);
    call_compiled(alloc, request.pages, count, &program)
}

/// The bytes of the module for calls of main on a dump: the module, and its shortest bytes.
pub(crate) fn export<R: Report>(
    alloc: Global,
    request: Request,
    bytes: &[u8],
    reports: &mut Vec<R>,
) -> Result<Vec<u8>, Refusal>
    requires range { IsInRange request }
    ensures says { JobSays Export request (λ v. v.items) result bytes.now }
    ensures told { OnOk result (JobIsTold R.shown Export request bytes.now reports.old.items reports.new.items) }
{
    let module = call_module(alloc, request, bytes, reports)?;
    written(alloc, &module)
}

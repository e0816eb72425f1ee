//! The job `compile`: from the bytes of a dump to those of main's module. `main_module` has the stages to the module; then its bytes are written (`written`).
ghost use Rattle.std.specs.Prelude.{OnOk};
ghost use Rattle.command_line.specs.declared.job.Job.TheVariants.{Compile};
ghost use Rattle.command_line.specs.Line.{IsInRange};
ghost use Rattle.driver.specs.JobFacts.{JobIsTold};
ghost use Rattle.driver.specs.MadeModule.{BytesSay};
ghost use Rattle.driver.specs.Serve.{JobSays};

use crate::main_module::main_module;
use crate::refusal::{ProgramLimit, Refusal};
use command_line::Request;
use reports::Report;
use std::alloc::Global;
use wasm_core::{EncodeFault, Valid};
use wasm_encode::encode;

/// The module's shortest bytes.
pub(crate) fn written(alloc: Global, module: &Valid) -> Result<Vec<u8>, Refusal>
    ensures says { BytesSay (λ v. v.items) module.now result }
{
    match encode(alloc, module) {
        Ok(bytes) => Ok(bytes),
        Err(EncodeFault::Memory) => Err(Refusal::Memory),
        Err(EncodeFault::ModuleBytes) => Err(Refusal::Program {
            which: ProgramLimit::ModuleBytes,
        }),
    }
}

/// The bytes of main's module on a dump: the module, and its shortest bytes.
pub(crate) fn object<R: Report>(
    alloc: Global,
    request: Request,
    bytes: &[u8],
    reports: &mut Vec<R>,
) -> Result<Vec<u8>, Refusal>
    requires range { IsInRange request }
    ensures says { JobSays Compile request (λ v. v.items) result bytes.now }
    ensures told { OnOk result (JobIsTold R.shown Compile request bytes.now reports.old.items reports.new.items) }
{
    let main = main_module(alloc, request, bytes, reports)?;
    written(alloc, &main.module)
}

//! Main's module of a dump: the stages that the jobs `exec`, `bench` and `compile` share.
ghost use Rattle.std.specs.Prelude.{OnOk};
ghost use Rattle.command_line.specs.declared.job.Job.TheVariants.{Compile};
ghost use Rattle.command_line.specs.Line.{IsInRange};
ghost use Rattle.driver.specs.JobFacts.{JobIsTold};
ghost use Rattle.driver.specs.MainModule.{MakesSay};

use crate::check::{accept_within, units};
use crate::erasing::erased;
use crate::eval::shapes_of;
use crate::refusal::Refusal;
use crate::running::compiled;
use command_line::Request;
use dump_reader::environment::RawEnv;
use dump_reader::reading::read_env;
use first_order::shapes::Shapes;
use reports::Report;
use std::alloc::Global;
use wasm_core::Valid;

/// Main's module, and what its answer is read by.
#[derive(Drop)]
pub(crate) struct MainModule {
    /// The environment that the dump spells.
    pub(crate) environment: RawEnv,
    /// The types of a first-order set of main's type, which is the first of them.
    pub(crate) shapes: Shapes,
    /// The module of main's erased program, whose memory grows to at most the request's pages of 65,536 bytes.
    pub(crate) module: Valid,
}

/// Main's module of a dump: the stages from its bytes to the module, in order. One meter serves the check, the search for the types and erasure. `compiled` goes through the passes,
/// which are those of crate `compile`. Each report is told the facts of the check.
pub(crate) fn main_module<R: Report>(
    alloc: Global,
    request: Request,
    bytes: &[u8],
    reports: &mut Vec<R>,
) -> Result<MainModule, Refusal>
    requires range { IsInRange request }
    ensures says { MakesSay request result bytes.now }
    ensures told { OnOk result (JobIsTold R.shown Compile request bytes.now reports.old.items reports.new.items) }
{
    let environment = read_env(alloc, bytes)?;
    let mut meter = units(request.turns);
    let accepted = accept_within(alloc, request.turns, &environment, &mut meter, reports)?;
    let shapes = shapes_of(alloc, &accepted, &mut meter)?;
    let program = erased(alloc, &environment, &accepted, &mut meter)?;
    let module = compiled(alloc, request.pages, &program)?;
    Ok(MainModule {
        environment,
        shapes,
        module,
    })
}

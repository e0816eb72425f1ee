//! The job `bench`: what `exec` does on a text that the program makes, told by five lines.
ghost use Rattle.std.specs.Prelude.{◌≡◌, ◌++◌, IfErr, IfOk, OnOk, decimal};
ghost use Rattle.workload.specs.WorkloadText.{text_of};
ghost use Rattle.command_line.specs.declared.job.Job.TheVariants.{Bench};
ghost use Rattle.command_line.specs.Line.{IsInRange};
ghost use Rattle.driver.specs.declared.refusal.Refusal.TheVariants.{Memory};
ghost use Rattle.driver.specs.JobFacts.{JobIsTold};
ghost use Rattle.driver.specs.Bench.{five_lines};
ghost use Rattle.driver.specs.Serve.{JobSays};

use crate::exec::{Executed, execute};
use crate::refusal::Refusal;
use command_line::Request;
use itoa::Buffer;
use reports::Report;
use std::alloc::{AllocError, Global};
use workload::{MakeTextFault, make};

/// The text of a number, which takes the place of an input.
pub(crate) fn made_text(alloc: Global, size: u32) -> Result<Vec<u8>, Refusal>
    ensures is { IfOk result (λ v. v.items ≡ text_of size) }
    ensures only_memory { IfErr result (λ r. r ≡ Memory) }
{
    match make(alloc, size) {
        Ok(text) => Ok(text),
        Err(MakeTextFault::Memory) => Err(Refusal::Memory),
    }
}

/// Puts bytes at the end.
fn put(out: &mut Vec<u8>, bytes: &[u8]) -> Result<(), AllocError>
    ensures ok { OnOk result (out.new.items ≡ out.old.items ++ bytes.now) }
{
    out.extend_from_slice(bytes)
}

/// A number in decimal behind what stands before it.
fn put_figure(out: &mut Vec<u8>, front: &[u8], figure: u64) -> Result<(), AllocError>
    ensures ok { OnOk result (out.new.items ≡ out.old.items ++ (front.now ++ decimal figure)) }
{
    let mut buffer = Buffer::new();
    put(out, front)?;
    put(out, buffer.format(figure).as_bytes())
}

/// The five lines.
fn lines_of(alloc: Global, x: &Executed) -> Result<Vec<u8>, AllocError>
    ensures is { IfOk result (λ v. v.items ≡ five_lines x.now.declarations x.now.bytes x.now.steps x.now.pages x.now.line.items) }
{
    let mut out = Vec::new(alloc);
    put_figure(&mut out, b"declarations ", x.declarations)?;
    put_figure(&mut out, b"\nbytes ", x.bytes)?;
    put_figure(&mut out, b"\nsteps ", x.steps)?;
    put_figure(&mut out, b"\npages ", u64::from(x.pages))?;
    put(&mut out, b"\nanswer ")?;
    put(&mut out, x.line.as_slice())?;
    Ok(out)
}

/// The five lines of what `exec` does on the text that is made.
pub(crate) fn bench<R: Report>(
    alloc: Global,
    request: Request,
    bytes: &[u8],
    reports: &mut Vec<R>,
) -> Result<Vec<u8>, Refusal>
    requires range { IsInRange request }
    ensures says { JobSays Bench request (λ v. v.items) result bytes.now }
    ensures told { OnOk result (JobIsTold R.shown Bench request bytes.now reports.old.items reports.new.items) }
{
    let executed = execute(alloc, request, bytes, reports)?;
    Ok(lines_of(alloc, &executed)?)
}

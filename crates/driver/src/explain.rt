//! The job `explain`: `ok` where the check of a dump accepts it, and else the line that `check` ends with and what explains it, by the texts of `explanations`.

ghost use Rattle.std.specs.Prelude.{◌≡◌, ◌<◌, ◌++◌, ℕ, IfErr, IfOk, OnOk, length};
ghost use Rattle.std.specs.Io.KnownBytes.{Appends};
ghost use Rattle.dump_reader.specs.Spelled.{IsSpelled};
ghost use Rattle.pc_rules.specs.declared.broken.Place.TheVariants.{Declaration};
ghost use Rattle.command_line.specs.declared.job.Job.TheVariants.{Explain};
ghost use Rattle.driver.specs.Lines.{line_of};
ghost use Rattle.driver.specs.Explained.{IsBrokenText, IsExplanation, deep_text, spent_text};
ghost use Rattle.driver.specs.ExplainSays.{ExplainIsTold, FaultSays};
ghost use Rattle.driver.specs.JobFacts.{JobIsTold};
ghost use Rattle.driver.specs.Serve.{JobSays};

use crate::check::{accepted_text, number, told, units};
use crate::err_line::write_line;
use crate::facts::check_facts;
use crate::refusal::Refusal;
use crate::reporting::tell_check;
use command_line::Request;
use dump_reader::environment::RawEnv;
use dump_reader::reading::read_env;
use env_check::check::check_env;
use env_check::refusal::Refusal as Fault;
use explanations::{explain_broken, explain_deep, explain_spent};
use kio::{MemSink, Sink, WriteFault, write_all};
use pc_rules::broken::{Broken, Place};
use pc_rules::meter::Account;
use reduce_machine::closures::Closures;
use reports::Report;
use std::alloc::Global;

/// Writes the line of a refusal, and a text behind it, up to the first fault.
fn write_behind<K: Sink>(out: &mut K, refusal: &Refusal, text: &[u8]) -> Result<(), WriteFault>
    ensures all { OnOk result (Appends (K.taken out.old) (K.taken out.new) (line_of refusal.now ++ text.now)) }
{
    write_line(out, refusal)?;
    write_all(out, text)
}

/// The line of a refusal, and a text behind it. Only `Memory`.
fn behind_line(alloc: Global, refusal: &Refusal, text: &[u8]) -> Result<Vec<u8>, Refusal>
    ensures text { IfOk result (λ v. v.items ≡ line_of refusal.now ++ text.now) }
    ensures only_memory { IfErr result (λ r. r ≡ Refusal.Memory) }
{
    let mut sink = MemSink::new(alloc, 65536, Vec::new(alloc));
    match write_behind(&mut sink, refusal, text) {
        Ok(()) => {
            let bytes = Vec::from_slice(alloc, sink.bytes())?;
            Ok(bytes)
        }
        Err(_) => Err(Refusal::Memory),
    }
}

/// The text of a rule that is broken at a place, which is one of the environment. Only `Memory`.
fn broken_text(alloc: Global, raw: &RawEnv, place: Place, rule: &Broken) -> Result<Vec<u8>, Refusal>
    requires spelled { IsSpelled raw.now }
    requires within { (i : ℕ) → place ≡ Declaration i → i < length raw.now.decls }
    ensures text { IfOk result (λ v. IsBrokenText raw.now place rule.now v.items) }
    ensures only_memory { IfErr result (λ r. r ≡ Refusal.Memory) }
{
    let text = explain_broken(alloc, raw, place, rule)?;
    let refusal = Refusal::Broken {
        number: number(rule),
        place: told(alloc, raw, place)?,
    };
    behind_line(alloc, &refusal, text.as_slice())
}

/// The text of units of a job, `turns` in number, that are spent at a place, to which the rules came with this account. Only `Memory`.
fn spent_text(
    alloc: Global,
    turns: u32,
    raw: &RawEnv,
    place: Place,
    before: &Account,
) -> Result<Vec<u8>, Refusal>
    ensures text { IfOk result (λ v. v.items ≡ spent_text turns raw.now place before.now) }
    ensures only_memory { IfErr result (λ r. r ≡ Refusal.Memory) }
{
    let taken = u64::from(turns).saturating_sub(before.left);
    let text = explain_spent(alloc, raw, taken, place, before)?;
    behind_line(alloc, &Refusal::TurnsSpent, text.as_slice())
}

/// The text of a limit that is passed at a place. Only `Memory`.
fn deep_text(alloc: Global, raw: &RawEnv, place: Place) -> Result<Vec<u8>, Refusal>
    ensures text { IfOk result (λ v. v.items ≡ deep_text raw.now place) }
    ensures only_memory { IfErr result (λ r. r ≡ Refusal.Memory) }
{
    let text = explain_deep(alloc, raw, place)?;
    behind_line(alloc, &Refusal::Depth, text.as_slice())
}

/// The text of a refusal of the check with the units of a job, `turns` in number. Only `Memory`.
fn text_of(alloc: Global, turns: u32, raw: &RawEnv, fault: &Fault) -> Result<Vec<u8>, Refusal>
    requires spelled { IsSpelled raw.now }
    requires refused { FaultSays turns raw.now fault.now }
    ensures text { IfOk result (λ v. IsExplanation turns raw.now v.items) }
    ensures only_memory { IfErr result (λ r. r ≡ Refusal.Memory) }
{
    match fault {
        Fault::Broken { place, rule } => broken_text(alloc, raw, *place, rule),
        Fault::Spent { place, before } => spent_text(alloc, turns, raw, *place, before),
        Fault::TooDeep { place } => deep_text(alloc, raw, *place),
        Fault::Memory => Err(Refusal::Memory),
    }
}

/// The text of the answer on an environment that is read: `ok`, with LF, where its check accepts it, and else that of the refusal. Where it is accepted, each
/// report is told the facts of the check. Only `Memory`.
fn explain_env<R: Report>(
    alloc: Global,
    turns: u32,
    raw: &RawEnv,
    reports: &mut Vec<R>,
) -> Result<Vec<u8>, Refusal>
    requires spelled { IsSpelled raw.now }
    ensures says { IfOk result (λ v. ExplainIsTold R.shown turns raw.now v.items reports.old.items reports.new.items) }
    ensures only_memory { IfErr result (λ r. r ≡ Refusal.Memory) }
{
    let mut meter = units(turns);
    match check_env(alloc, &Closures, raw, &mut meter) {
        Ok(_) => {
            tell_check(reports, &check_facts(raw, &meter));
            accepted_text(alloc)
        }
        Err(fault) => text_of(alloc, turns, raw, &fault),
    }
}

/// The text of the answer on a dump: `ok`, with LF, where its environment is accepted, and else why it isn't. Refusals of the text alone refuse it.
pub(crate) fn explain<R: Report>(
    alloc: Global,
    request: Request,
    bytes: &[u8],
    reports: &mut Vec<R>,
) -> Result<Vec<u8>, Refusal>
    ensures says { JobSays Explain request (λ v. v.items) result bytes.now }
    ensures told { OnOk result (JobIsTold R.shown Explain request bytes.now reports.old.items reports.new.items) }
{
    let environment = read_env(alloc, bytes)?;
    explain_env(alloc, request.turns, &environment, reports)
}

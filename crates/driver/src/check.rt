//! The check of an environment that is read, with the units of a job; and the job `check`.

ghost use Rattle.std.specs.Prelude.{◌≡◌, ◌<◌, ℕ, IfOk, IfErr, OnOk, length, codes};
ghost use Rattle.dump_reader.specs.Spelled.{IsSpelled};
ghost use Rattle.pc_rules.specs.declared.broken.Place.TheVariants.{Declaration};
ghost use Rattle.command_line.specs.declared.job.Job.TheVariants.{Check};
ghost use Rattle.module_run.specs.RunFacts.{AreTold};
ghost use Rattle.driver.specs.CheckFacts.{facts_of_check};
ghost use Rattle.driver.specs.JobFacts.{CheckIsTold, JobIsTold};
ghost use Rattle.driver.specs.Judged.{PlaceIsTold, name_of, number_of, start};
ghost use Rattle.driver.specs.ReportedFacts.{facts_of};
ghost use Rattle.driver.specs.Serve.{AcceptSays, CheckSays, JobSays};

use crate::facts::check_facts;
use crate::refusal::{Refusal, Where};
use crate::reporting::tell_check;
use command_line::Request;
use dump_reader::declaration::RawDecl;
use dump_reader::environment::RawEnv;
use dump_reader::reading::read_env;
use env_check::check::check_env;
use env_check::refusal::Refusal as Fault;
use pc_rules::accepted::Accepted;
use pc_rules::broken::{Broken, Place};
use pc_rules::meter::Meter;
use pc_terms::leaf::Name;
use reduce_machine::closures::Closures;
use reports::Report;
use std::alloc::Global;

/// The number of a rule that may be broken, from 1 on.
pub(crate) fn number(rule: &Broken) -> u8
    ensures is { result ≡ number_of rule.now }
{
    match rule {
        Broken::UnboundRel { .. } => 1,
        Broken::UnknownName { .. } => 2,
        Broken::BadNumber { .. } => 3,
        Broken::LevelUndeclared { .. } => 4,
        Broken::UniverseCycle { .. } => 5,
        Broken::NotASort { .. } => 6,
        Broken::NotAProduct { .. } => 7,
        Broken::NotBelow { .. } => 8,
        Broken::CountWrong { .. } => 9,
        Broken::NotTheFamily { .. } => 10,
        Broken::ElimNotAllowed { .. } => 11,
        Broken::NotEnoughAbstractions { .. } => 12,
        Broken::NotGuarded { .. } => 13,
        Broken::NotPositive { .. } => 14,
        Broken::SortTooSmall { .. } => 15,
        Broken::DuplicateName { .. } => 16,
        Broken::RecArgNotInductive { .. } => 17,
    }
}

/// The name that a declaration declares.
fn declared_name(decl: &RawDecl) -> Name
    ensures is { result ≡ name_of decl.now }
{
    match decl {
        RawDecl::Constant { name, .. } => *name,
        RawDecl::Block { name, .. } => *name,
    }
}

/// How a line tells a place, which is one of the environment. Only `Memory`.
pub(crate) fn told(alloc: Global, raw: &RawEnv, place: Place) -> Result<Where, Refusal>
    requires spelled { IsSpelled raw.now }
    requires within { (i : ℕ) → place ≡ Declaration i → i < length raw.now.decls }
    ensures told { IfOk result (λ w. PlaceIsTold raw.now place w) }
    ensures only_memory { IfErr result (λ r. r ≡ Refusal.Memory) }
{
    match place {
        Place::Level(_) => Ok(Where::Levels),
        Place::Constraint(_) => Ok(Where::Constraints),
        Place::Main => Ok(Where::Main),
        Place::Declaration(i) => {
            let name = declared_name(&raw.decls.as_slice()[i as usize]);
            match raw.names.text(name.0) {
                Some(text) => {
                    let bytes = Vec::from_slice(alloc, text.as_bytes())?;
                    Ok(Where::Declaration(bytes))
                }
                None => unreachable!(),
            }
        }
    }
}

/// A meter of so many units.
pub(crate) fn units(turns: u32) -> Meter
    ensures account { result.account ≡ start turns }
    ensures nest { result.nest ≡ 0 }
{
    Meter::new(u64::from(turns))
}

/// The environment with the sorts that its check finds, main and main's type; or why it is not accepted with the units of a meter, which are
/// those of a job, `turns` in number. Where it is accepted, each report is told the facts of its check.
pub(crate) fn accept_within<R: Report>(
    alloc: Global,
    turns: u32,
    raw: &RawEnv,
    meter: &mut Meter,
    reports: &mut Vec<R>,
) -> Result<Accepted, Refusal>
    requires spelled { IsSpelled raw.now }
    requires units { meter.old.account ≡ start turns }
    requires nest { meter.old.nest ≡ 0 }
    ensures says { AcceptSays turns result raw.now meter.new.account }
    ensures nest { meter.new.nest ≡ 0 }
    ensures told { OnOk result (AreTold R.shown (facts_of (facts_of_check raw.now meter.new.account)) reports.old.items reports.new.items) }
{
    // The turns are of the contract alone.
    let _ = turns;
    match check_env(alloc, &Closures, raw, meter) {
        Ok(accepted) => {
            tell_check(reports, &check_facts(raw, meter));
            Ok(accepted)
        }
        Err(Fault::Memory) => Err(Refusal::Memory),
        Err(Fault::Spent { .. }) => Err(Refusal::TurnsSpent),
        Err(Fault::TooDeep { .. }) => Err(Refusal::Depth),
        Err(Fault::Broken { place, rule }) => {
            let place = told(alloc, raw, place)?;
            Err(Refusal::Broken {
                number: number(&rule),
                place,
            })
        }
    }
}

/// The environment with the sorts that its check finds, main and main's type; or why it is not accepted with so many units.
pub(crate) fn accept<R: Report>(
    alloc: Global,
    turns: u32,
    raw: &RawEnv,
    reports: &mut Vec<R>,
) -> Result<Accepted, Refusal>
    requires spelled { IsSpelled raw.now }
    ensures says { CheckSays turns result raw.now }
    ensures told { OnOk result (CheckIsTold R.shown turns raw.now reports.old.items reports.new.items) }
{
    let mut meter = units(turns);
    accept_within(alloc, turns, raw, &mut meter, reports)
}

/// The text of an acceptance.
pub(crate) fn accepted_text(alloc: Global) -> Result<Vec<u8>, Refusal>
    ensures text { IfOk result (λ v. v.items ≡ codes "ok\n") }
    ensures only_memory { IfErr result (λ r. r ≡ Refusal.Memory) }
{
    let text = Vec::from_slice(alloc, b"ok\n")?;
    Ok(text)
}

/// The text of the answer on a dump: `ok`, with LF, where its environment is accepted.
pub(crate) fn check<R: Report>(
    alloc: Global,
    request: Request,
    bytes: &[u8],
    reports: &mut Vec<R>,
) -> Result<Vec<u8>, Refusal>
    ensures says { JobSays Check request (λ v. v.items) result bytes.now }
    ensures told { OnOk result (JobIsTold R.shown Check request bytes.now reports.old.items reports.new.items) }
{
    let environment = read_env(alloc, bytes)?;
    accept(alloc, request.turns, &environment, reports)?;
    accepted_text(alloc)
}

//! The job `cert`: from the bytes of a dump to the canonical text of its environment and the text of its typing certificate, where the directed rules accept it. They write the certificate while they go.
ghost use Rattle.std.specs.Prelude.{◌≡◌, Err, IfErr, IfOk, OnOk};
ghost use Rattle.std.specs.Io.KnownBytes.{Appends};
ghost use Rattle.dump_reader.specs.Spelled.{IsSpelled};
ghost use Rattle.cert_text.specs.CertText.{AreSmall};
ghost use Rattle.certified_texts.specs.ReadBack.{certified_text};
ghost use Rattle.command_line.specs.declared.job.Job.TheVariants.{Cert as CertJob};
ghost use Rattle.driver.specs.CertSays.{MakingSays, WhySays};
ghost use Rattle.driver.specs.JobFacts.{CheckIsTold, JobIsTold};
ghost use Rattle.driver.specs.Serve.{CheckSays, IsWell, JobSays};

use crate::check::{number, told, units};
use crate::facts::check_facts;
use crate::refusal::Refusal;
use crate::reporting::tell_check;
use cert_rules::certificate::Cert;
use cert_text::print_cert;
use command_line::Request;
use dump_printer::print_env;
use dump_reader::environment::RawEnv;
use dump_reader::reading::read_env;
use env_making::make::make_cert;
use env_making::refusal::CertRefusal;
use guard_check::guard::Guard;
use kio::{MemSink, Sink, WriteFault, write_all};
use reduce_machine::closures::Closures;
use reports::Report;
use std::alloc::Global;

/// Why the directed rules don't accept an environment with the units of a job, `turns` in number, as a refusal.
fn refusal_of(alloc: Global, turns: u32, raw: &RawEnv, why: &CertRefusal) -> Refusal
    requires spelled { IsSpelled raw.now }
    requires refused { WhySays turns raw.now why.now }
    ensures says { CheckSays turns (Err result) raw.now }
{
    // The turns are of the contract alone.
    let _ = turns;
    match why {
        CertRefusal::Memory => Refusal::Memory,
        CertRefusal::Spent => Refusal::TurnsSpent,
        CertRefusal::TooDeep => Refusal::Depth,
        CertRefusal::Broken { place, rule } => match told(alloc, raw, *place) {
            Ok(place) => Refusal::Broken {
                number: number(rule),
                place,
            },
            Err(refusal) => refusal,
        },
    }
}

/// The certificate of an environment that the directed rules accept with so many units; or why they don't. Where they do, each report is told the facts of that check.
fn made<R: Report>(
    alloc: Global,
    turns: u32,
    raw: &RawEnv,
    reports: &mut Vec<R>,
) -> Result<Cert, Refusal>
    requires spelled { IsSpelled raw.now }
    ensures says { MakingSays turns result raw.now }
    ensures well { IfOk result (λ _. IsWell raw.now) }
    ensures told { OnOk result (CheckIsTold R.shown turns raw.now reports.old.items reports.new.items) }
{
    let mut meter = units(turns);
    let guarder = Guard::new(Closures);
    match make_cert(alloc, &Closures, &guarder, raw, &mut meter) {
        Ok(certificate) => {
            tell_check(reports, &check_facts(raw, &meter));
            Ok(certificate)
        }
        Err(why) => Err(refusal_of(alloc, turns, raw, &why)),
    }
}

/// Writes the canonical text of an environment and the text of a certificate, each with LF, up to the first fault.
fn write_certified<K: Sink>(out: &mut K, raw: &RawEnv, certificate: &Cert) -> Result<(), WriteFault>
    requires spelled { IsSpelled raw.now }
    ensures all { OnOk result (Appends (K.taken out.old) (K.taken out.new) (certified_text raw.now certificate.now)) }
    ensures small { OnOk result (AreSmall certificate.now) }
{
    print_env(raw, out)?;
    write_all(out, b"\n")?;
    print_cert(certificate, out)?;
    write_all(out, b"\n")
}

/// The canonical text of an environment and the text of a certificate, each with LF. Only `Memory`.
fn text_of(alloc: Global, raw: &RawEnv, certificate: &Cert) -> Result<Vec<u8>, Refusal>
    requires spelled { IsSpelled raw.now }
    ensures text { IfOk result (λ v. v.items ≡ certified_text raw.now certificate.now) }
    ensures small { OnOk result (AreSmall certificate.now) }
    ensures only_memory { IfErr result (λ r. r ≡ Refusal.Memory) }
{
    let mut sink = MemSink::new(alloc, 65536, Vec::new(alloc));
    match write_certified(&mut sink, raw, certificate) {
        Ok(()) => {
            let bytes = Vec::from_slice(alloc, sink.bytes())?;
            Ok(bytes)
        }
        Err(_) => Err(Refusal::Memory),
    }
}

/// The text of the answer on a dump: its environment and the certificate, where the directed rules accept it, each with LF.
pub(crate) fn cert<R: Report>(
    alloc: Global,
    request: Request,
    bytes: &[u8],
    reports: &mut Vec<R>,
) -> Result<Vec<u8>, Refusal>
    ensures says { JobSays CertJob request (λ v. v.items) result bytes.now }
    ensures told { OnOk result (JobIsTold R.shown CertJob request bytes.now reports.old.items reports.new.items) }
{
    let environment = read_env(alloc, bytes)?;
    let certificate = made(alloc, request.turns, &environment, reports)?;
    text_of(alloc, &environment, &certificate)
}

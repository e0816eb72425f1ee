//! The job `verify`: from the bytes of a dump and of a certificate behind it to `ok`, where the certified walk of the environment along that certificate comes to its end. The walk makes the steps and
//! the comparisons that the certificate names, and looks for none of its own outside the guard.
ghost use Rattle.std.specs.Prelude.{◌≡◌, ◌≤◌, IfOk, length};
ghost use Rattle.dump_reader.specs.Front.{front_length};
ghost use Rattle.dump_reader.specs.Spelled.{IsSpelled};
ghost use Rattle.command_line.specs.declared.job.Job.TheVariants.{Verify};
ghost use Rattle.driver.specs.Serve.{IsWell, JobSays};
ghost use Rattle.driver.specs.VerifyEnds.{CertificateSays, WalkSays};

use crate::check::{accepted_text, units};
use crate::refusal::{CertificateFault, Refusal};
use cert_rules::certificate::Cert;
use cert_text::{CertText, read_cert};
use command_line::Request;
use dump_reader::environment::RawEnv;
use dump_reader::reading::read_call;
use env_cert::refusal::VerifyRefusal;
use env_cert::verify::verify_env;
use guard_check::guard::Guard;
use reduce_machine::closures::Closures;
use std::alloc::Global;

/// The certificate that stands behind the environment.
fn certificate_of(alloc: Global, bytes: &[u8], from: usize) -> Result<Cert, Refusal>
    requires from { from ≡ front_length bytes.now }
    requires within { from ≤ length bytes.now }
    ensures says { CertificateSays bytes.now result }
{
    match read_cert(alloc, bytes, from) {
        Ok(certificate) => Ok(certificate),
        Err(CertText::Syntax { offset }) => Err(Refusal::Certificate {
            why: CertificateFault::Syntax { offset },
        }),
        Err(CertText::Number { .. }) => Err(Refusal::Certificate {
            why: CertificateFault::Number,
        }),
        Err(CertText::Memory) => Err(Refusal::Memory),
    }
}

/// Walks an environment along a certificate, with so many units.
fn walked(alloc: Global, turns: u32, raw: &RawEnv, certificate: &Cert) -> Result<(), Refusal>
    requires spelled { IsSpelled raw.now }
    ensures says { WalkSays turns raw.now certificate.now result }
    ensures well { IfOk result (λ _. IsWell raw.now) }
{
    let mut meter = units(turns);
    let guarder = Guard::new(Closures);
    match verify_env(alloc, &guarder, raw, certificate, &mut meter) {
        Ok(()) => Ok(()),
        Err(VerifyRefusal::Bad { item }) => Err(Refusal::Certificate {
            why: CertificateFault::Refused { item },
        }),
        Err(VerifyRefusal::Spent) => Err(Refusal::TurnsSpent),
        Err(VerifyRefusal::TooDeep) => Err(Refusal::Depth),
        Err(VerifyRefusal::Memory) => Err(Refusal::Memory),
    }
}

/// The text of the answer on a dump with a certificate behind it: `ok`, with LF, where the walk of its environment along that is accepted.
pub(crate) fn verify(alloc: Global, request: Request, bytes: &[u8]) -> Result<Vec<u8>, Refusal>
    ensures says { JobSays Verify request (λ v. v.items) result bytes.now }
{
    let (environment, from) = read_call(alloc, bytes)?;
    let certificate = certificate_of(alloc, bytes, from)?;
    walked(alloc, request.turns, &environment, &certificate)?;
    accepted_text(alloc)
}

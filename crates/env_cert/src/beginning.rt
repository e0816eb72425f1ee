//! What is looked at before the declarations, as a walk's answer.
ghost use Rattle.std.specs.Prelude.{◌≡◌, IfOk, IfErr};
ghost use Rattle.dump_reader.specs.Spelled.{IsSpelled};
ghost use Rattle.env_check.specs.Places.{bare};
ghost use Rattle.env_check.specs.Beginning.{HasSoundLevels};
ghost use Rattle.env_cert.specs.Beginning.{first_halt, barred_first, HaltsFirst};

use dump_reader::environment::RawEnv;
use env_check::beginning::bare_env;
use env_check::refusal::BareRefusal;
use pc_rules::environment::Env;
use pc_rules::stop::Stop;
use std::alloc::Global;
use type_cert::halt::WalkHalt;

/// What breaks a rule before the declarations, as what halts a walk: it is refused at item `at`. Takes no memory.
fn first_halt(at: usize, refusal: BareRefusal) -> WalkHalt
    ensures is { result ≡ first_halt at refusal }
{
    match refusal {
        BareRefusal::Broken { .. } => WalkHalt::Barred { item: at },
        BareRefusal::Memory => WalkHalt::Stop(Stop::Memory),
    }
}

/// What is answered before the declarations, as a walk's answer: what is refused is refused at item `at`. Takes no memory.
fn at_first<A: Drop>(at: usize, answer: Result<A, BareRefusal>) -> Result<A, WalkHalt>
    ensures is { result ≡ barred_first at answer }
{
    match answer {
        Ok(found) => Ok(found),
        Err(refusal) => Err(first_halt(at, refusal)),
    }
}

/// The environment of the levels and constraints that are read, without declarations. Refused at item `at` where a level is listed twice, a
/// constraint names one that is not declared, or no valuation meets all constraints.
pub(crate) fn begun(alloc: Global, raw: &RawEnv, at: usize) -> Result<Env, WalkHalt>
    requires spelled { IsSpelled raw.now }
    ensures bare { IfOk result (λ e. e ≡ bare raw.now) }
    ensures sound { IfOk result (λ _. HasSoundLevels raw.now) }
    ensures refused { IfErr result (HaltsFirst raw.now at) }
{
    at_first(at, bare_env(alloc, raw))
}

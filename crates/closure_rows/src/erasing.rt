//! The erased program of a row.
ghost use Rattle.std.specs.Prelude.{◌≡◌, [], IfOk};
ghost use Rattle.dump_reader.specs.Spelled.{IsSpelled};
ghost use Rattle.calculus_rules.specs.Accepted.{IsAccepted};
ghost use Rattle.calculus_rules.specs.Typing.{Types, guarded};
ghost use Rattle.erase_rules.specs.Laws.{AreFewCounts};
ghost use Rattle.lambda_box.specs.BoxForm.{IsBoxProgram};

use box_terms::program::BoxProgram;
use conversion::comparison::Compare;
use dump_reader::environment::RawEnv;
use env_check::check::check_env;
use erase::program::erase;
use erase::refusal::EraseRefusal;
use guard_check::guard::Guard;
use pc_rules::accepted::Accepted;
use pc_rules::meter::Meter;
use read_counts::read_counts_are_few;
use reduction::substitution::Subst;
use row_files::Fault;
use std::alloc::Global;
use type_infer::inference::Inference;

/// As many units as a check may take, and the call of a row where it doesn't tell.
const UNITS: u64 = 1_000_000;

/// The environment, checked.
fn accepted(alloc: Global, raw: &RawEnv) -> Result<Accepted, Fault>
    requires spelled { IsSpelled raw.now }
    ensures accepted { IfOk result (λ a. IsAccepted a.env) }
    ensures typed { IfOk result (λ a. Types guarded a.env [] a.main a.main_type) }
    ensures few { IfOk result (λ a. AreFewCounts a.env) }
{
    read_counts_are_few();
    match check_env(alloc, &Subst, raw, &mut Meter::new(UNITS)) {
        Ok(accepted) => Ok(accepted),
        Err(_) => Err(Fault::Faulty("the environment is not accepted")),
    }
}

/// What an accepted environment is erased to.
fn erased(alloc: Global, accepted: &Accepted, m: &mut Meter) -> Result<BoxProgram, EraseRefusal>
    requires accepted { IsAccepted accepted.now.env }
    requires typed { Types guarded accepted.now.env [] accepted.now.main accepted.now.main_type }
    requires few { AreFewCounts accepted.now.env }
    ensures form { IfOk result IsBoxProgram }
{
    let typer = Inference::new(Subst, Compare::new(Subst), Guard::new(Subst));
    erase(alloc, &typer, &Subst, accepted, m)
}

/// What an environment is erased to.
pub fn program_of(alloc: Global, raw: &RawEnv) -> Result<BoxProgram, Fault>
    requires spelled { IsSpelled raw.now }
    ensures form { IfOk result IsBoxProgram }
{
    let accepted = accepted(alloc, raw)?;
    match erased(alloc, &accepted, &mut Meter::new(UNITS)) {
        Ok(program) => Ok(program),
        Err(_) => Err(Fault::Faulty("the environment is not erased")),
    }
}

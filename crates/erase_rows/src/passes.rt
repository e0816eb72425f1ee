//! The layer of passes on erased programs: `prop_match`, `saturate`, and `inline` and `drop_dead_params`, each alone and both together.
ghost use Rattle.std.specs.Prelude.{◌≡◌, [], IfOk, Ok};
ghost use Rattle.dump_reader.specs.Spelled.{IsSpelled};
ghost use Rattle.calculus_rules.specs.Accepted.{IsAccepted};
ghost use Rattle.calculus_rules.specs.Typing.{Types, guarded};
ghost use Rattle.erase_rules.specs.Laws.{AreFewCounts};
ghost use Rattle.lambda_box.specs.BoxForm.{IsBoxProgram};

use crate::erasures::{UNITS, checked_of};
use crate::told::put_program;
use box_passes::{PassFault, prop_match, saturate};
use box_terms::program::BoxProgram;
use conversion::comparison::Compare;
use dump_reader::environment::RawEnv;
use erase::program::erase;
use guard_check::guard::Guard;
use pc_rules::accepted::Accepted;
use pc_rules::meter::Meter;
use reduction::substitution::Subst;
use row_files::{Case, Fault};
use row_terms::read;
use shrink_passes::{drop_dead_params, inline};
use std::alloc::Global;
use type_infer::inference::Inference;

/// Runs a row of the layer.
pub fn run(case: &Case, out: &mut String) -> Result<(), Fault> {
    let raw = read(case)?;
    run_raw(case, &raw, out)
}

/// Runs a row in its environment, which is checked and erased first.
fn run_raw(case: &Case, raw: &RawEnv, out: &mut String) -> Result<(), Fault>
    requires spelled { IsSpelled raw.now }
{
    let accepted = checked_of(case.alloc, raw)?;
    let program = erased_of(case.alloc, &accepted)?;
    let passed = passed_of(case, &program)?;
    put_program(case.alloc, out, raw, &passed)
}

/// The program that the environment is erased to.
fn erased_of(alloc: Global, accepted: &Accepted) -> Result<BoxProgram, Fault>
    requires accepted { IsAccepted accepted.now.env }
    requires typed { Types guarded accepted.now.env [] accepted.now.main accepted.now.main_type }
    requires few { AreFewCounts accepted.now.env }
    ensures form { IfOk result IsBoxProgram }
{
    let typer = Inference::new(Subst, Compare::new(Subst), Guard::new(Subst));
    match erase(alloc, &typer, &Subst, accepted, &mut Meter::new(UNITS)) {
        Ok(program) => Ok(program),
        Err(_) => Err(Fault::Faulty("the environment is not erased")),
    }
}

/// What the row's pass gives.
fn passed_of(case: &Case, program: &BoxProgram) -> Result<BoxProgram, Fault>
    requires form { IsBoxProgram program.now }
{
    match case.row.given("call")? {
        "prop_match" => done(prop_match(case.alloc, program)),
        "saturate" => saturated(case.alloc, program),
        "inline" => inlined(case.alloc, program),
        "drop_dead_params" => {
            let program = saturated(case.alloc, program)?;
            done(drop_dead_params(case.alloc, &program))
        }
        "shrink" => {
            let program = inlined(case.alloc, program)?;
            done(drop_dead_params(case.alloc, &program))
        }
        _ => Err(Fault::Faulty("no such call")),
    }
}

/// A program without matches on proofs, saturated.
fn saturated(alloc: Global, program: &BoxProgram) -> Result<BoxProgram, Fault>
    requires form { IsBoxProgram program.now }
    ensures form { IfOk result IsBoxProgram }
{
    let program = done(prop_match(alloc, program))?;
    done(saturate(alloc, &program))
}

/// The saturated program, with constants of one use in its place.
fn inlined(alloc: Global, program: &BoxProgram) -> Result<BoxProgram, Fault>
    requires form { IsBoxProgram program.now }
    ensures form { IfOk result IsBoxProgram }
{
    let program = saturated(alloc, program)?;
    done(inline(alloc, &program))
}

/// What a pass gives, which is refused in no row.
fn done(passed: Result<BoxProgram, PassFault>) -> Result<BoxProgram, Fault>
    ensures same { IfOk result (λ p. passed ≡ Ok p) }
{
    match passed {
        Ok(program) => Ok(program),
        Err(PassFault::Memory) => Err(Fault::Memory),
        Err(PassFault::TooDeep) => Err(Fault::Faulty("the program is too deep")),
    }
}

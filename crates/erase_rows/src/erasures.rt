//! The layer of erasure: `test` and `erase`.
ghost use Rattle.std.specs.Prelude.{[], IfOk};
ghost use Rattle.dump_reader.specs.Spelled.{IsSpelled};
ghost use Rattle.calculus_rules.specs.Accepted.{IsAccepted};
ghost use Rattle.calculus_rules.specs.Typing.{Types, guarded};
ghost use Rattle.erase_rules.specs.Laws.{AreFewCounts};

use crate::told::{put_evidence, put_halt, put_program, put_refusal};
use conversion::comparison::Compare;
use dump_reader::environment::RawEnv;
use env_check::check::check_env;
use erasable::test::test;
use erase::program::erase;
use guard_check::guard::Guard;
use pc_rules::accepted::Accepted;
use pc_rules::context::Ctx;
use pc_rules::meter::Meter;
use read_counts::read_counts_are_few;
use reduction::substitution::Subst;
use row_files::{Case, Fault};
use row_terms::read;
use std::alloc::{AllocError, Global};
use type_infer::inference::Inference;

/// As many units as a call has where the row doesn't tell.
pub const UNITS: u64 = 1_000_000;

/// Runs a row of the layer.
pub fn run(case: &Case, out: &mut String) -> Result<(), Fault> {
    let raw = read(case)?;
    run_raw(case, &raw, out)
}

/// Runs a row in its environment, which is checked first.
fn run_raw(case: &Case, raw: &RawEnv, out: &mut String) -> Result<(), Fault>
    requires spelled { IsSpelled raw.now }
{
    let accepted = checked_of(case.alloc, raw)?;
    run_in(case, raw, &accepted, out)
}

/// Makes the call of a row.
fn run_in(case: &Case, raw: &RawEnv, accepted: &Accepted, out: &mut String) -> Result<(), Fault>
    requires accepted { IsAccepted accepted.now.env }
    requires typed { Types guarded accepted.now.env [] accepted.now.main accepted.now.main_type }
    requires few { AreFewCounts accepted.now.env }
{
    match case.row.given("call")? {
        "test" => run_test(case, raw, accepted, out),
        "erase" => run_erase(case, raw, accepted, out),
        _ => Err(Fault::Faulty("no such call")),
    }
}

/// An environment, checked.
pub fn checked_of(alloc: Global, raw: &RawEnv) -> Result<Accepted, Fault>
    requires spelled { IsSpelled raw.now }
    ensures accepted { IfOk result (λ a. IsAccepted a.env) }
    ensures typed { IfOk result (λ a. Types guarded a.env [] a.main a.main_type) }
    ensures few { IfOk result (λ a. AreFewCounts a.env) }
{
    // What is read has few counts.
    read_counts_are_few();
    match check_env(alloc, &Subst, raw, &mut Meter::new(UNITS)) {
        Ok(accepted) => Ok(accepted),
        Err(_) => Err(Fault::Faulty("the environment is not accepted")),
    }
}

/// The units that are left, where the row tells how many there were.
fn put_left(case: &Case, out: &mut String, m: &Meter) -> Result<(), AllocError> {
    if case.row.value("units").is_none() {
        return Ok(());
    }
    let left = m.left();
    write!(out, "\n  units left {left}")
}

/// The evidence that main is erasable.
fn run_test(case: &Case, raw: &RawEnv, accepted: &Accepted, out: &mut String) -> Result<(), Fault>
    requires accepted { IsAccepted accepted.now.env }
    requires typed { Types guarded accepted.now.env [] accepted.now.main accepted.now.main_type }
{
    let typer = Inference::new(Subst, Compare::new(Subst), Guard::new(Subst));
    let mut m = Meter::new(case.row.number("units", UNITS)?);
    let ctx = Ctx::new();
    match test(
        case.alloc,
        &typer,
        &Subst,
        &accepted.env,
        &ctx,
        &accepted.main,
        &mut m,
    ) {
        Ok(evidence) => put_evidence(out, evidence)?,
        Err(halt) => put_halt(out, raw, &halt)?,
    }
    Ok(put_left(case, out, &m)?)
}

/// The program that the environment is erased to.
fn run_erase(case: &Case, raw: &RawEnv, accepted: &Accepted, out: &mut String) -> Result<(), Fault>
    requires accepted { IsAccepted accepted.now.env }
    requires typed { Types guarded accepted.now.env [] accepted.now.main accepted.now.main_type }
    requires few { AreFewCounts accepted.now.env }
{
    let typer = Inference::new(Subst, Compare::new(Subst), Guard::new(Subst));
    let mut m = Meter::new(case.row.number("units", UNITS)?);
    match erase(case.alloc, &typer, &Subst, accepted, &mut m) {
        Ok(program) => put_program(case.alloc, out, raw, &program)?,
        Err(refusal) => put_refusal(out, raw, &refusal)?,
    }
    Ok(put_left(case, out, &m)?)
}

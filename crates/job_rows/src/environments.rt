//! The layer of whole environments: `check` and `kept`.
ghost use Rattle.dump_reader.specs.Spelled.{IsSpelled};

use crate::kept::put_kept;
use dump_reader::environment::RawEnv;
use env_check::check::check_env;
use env_check::refusal::Refusal;
use pc_rules::accepted::Accepted;
use pc_rules::broken::Place;
use pc_rules::meter::Meter;
use pc_rules::stop::Stop;
use reduction::substitution::Subst;
use row_files::{Case, Fault};
use row_terms::{put_broken, put_stop, put_term, read};
use std::alloc::AllocError;

/// As many units as a job gives where it is not told.
const UNITS: u64 = 1_000_000;

/// Runs a row of the layer.
pub fn run(case: &Case, out: &mut String) -> Result<(), Fault> {
    match case.row.given("call")? {
        "check" => run_check(case, out),
        "kept" => run_kept(case, out),
        _ => Err(Fault::Faulty("no such call")),
    }
}

/// The units that are left, and how often each of the rules 1 to 12 was used.
fn put_account(out: &mut String, m: &Meter) -> Result<(), AllocError> {
    put_left(out, m)?;
    out.push_str(", uses")?;
    for uses in &m.account.uses {
        write!(out, " {uses}")?;
    }
    Ok(())
}

/// The units that are left.
fn put_left(out: &mut String, m: &Meter) -> Result<(), AllocError> {
    let left = m.left();
    write!(out, "\n  units left {left}")
}

/// A place in an environment.
fn put_place(out: &mut String, place: Place) -> Result<(), AllocError> {
    match place {
        Place::Level(n) => write!(out, "level {n}"),
        Place::Constraint(n) => write!(out, "constraint {n}"),
        Place::Declaration(n) => write!(out, "declaration {n}"),
        Place::Main => out.push_str("main"),
    }
}

fn put_refusal(out: &mut String, env: &RawEnv, refusal: &Refusal) -> Result<(), AllocError> {
    match refusal {
        Refusal::Broken { place, rule } => {
            out.push_str("broken in ")?;
            put_place(out, *place)?;
            out.push_str(": ")?;
            put_broken(out, env, rule)
        }
        Refusal::Spent { .. } => put_stop(out, Stop::Spent),
        Refusal::TooDeep { .. } => put_stop(out, Stop::TooDeep),
        Refusal::Memory => put_stop(out, Stop::Memory),
    }
}

fn put_checked(
    out: &mut String,
    raw: &RawEnv,
    checked: &Result<Accepted, Refusal>,
) -> Result<(), AllocError> {
    match checked {
        Ok(accepted) => {
            out.push_str("accepted, main of type ")?;
            put_term(out, raw, &accepted.main_type)
        }
        Err(refusal) => put_refusal(out, raw, refusal),
    }
}

/// The units that are left, where the row tells how many there were, and the uses of rules where the environment was accepted.
fn put_units(
    case: &Case,
    out: &mut String,
    checked: &Result<Accepted, Refusal>,
    m: &Meter,
) -> Result<(), AllocError> {
    if case.row.value("units").is_none() {
        Ok(())
    } else if checked.is_ok() {
        put_account(out, m)
    } else {
        put_left(out, m)
    }
}

/// What a check came to. Where the row tells units, what is left and the uses of rules too.
fn put_answer(
    case: &Case,
    out: &mut String,
    raw: &RawEnv,
    checked: &Result<Accepted, Refusal>,
    m: &Meter,
) -> Result<(), AllocError> {
    put_checked(out, raw, checked)?;
    put_units(case, out, checked, m)
}

/// Checks an environment with `units`, or as many as a job has. With `units`, what is left and the uses of rules are told.
fn check_raw(case: &Case, raw: &RawEnv, out: &mut String) -> Result<(), Fault>
    requires spelled { IsSpelled raw.now }
{
    let mut m = Meter::new(case.row.number("units", UNITS)?);
    let checked = check_env(case.alloc, &Subst, raw, &mut m);
    Ok(put_answer(case, out, raw, &checked, &m)?)
}

/// Reads an environment, and checks it.
fn run_check(case: &Case, out: &mut String) -> Result<(), Fault> {
    let raw = read(case)?;
    check_raw(case, &raw, out)
}

/// Checks an environment, and tells what is kept.
fn keep_raw(case: &Case, raw: &RawEnv, out: &mut String) -> Result<(), AllocError>
    requires spelled { IsSpelled raw.now }
{
    match check_env(case.alloc, &Subst, raw, &mut Meter::new(UNITS)) {
        Ok(accepted) => put_kept(out, raw, &accepted.env),
        Err(refusal) => put_refusal(out, raw, &refusal),
    }
}

/// Reads an environment, checks it, and tells what is kept: blocks with their families, constructors and the sorts of their arguments.
fn run_kept(case: &Case, out: &mut String) -> Result<(), Fault> {
    let raw = read(case)?;
    Ok(keep_raw(case, &raw, out)?)
}

//! Strict positivity of a block: `positive`.
use crate::unchecked::first_kept;
use dump_reader::declaration::RawDecl;
use inductive_check::positive::positive;
use pc_rules::environment::Env;
use pc_rules::meter::Meter;
use pc_rules::stop::Stop;
use row_files::{Case, Fault};
use row_terms::{Opened, put_stop};
use std::alloc::AllocError;

/// As many units as a row has that tells none.
const UNITS: u64 = 1_000_000;

/// What the test came to, and the units that are left.
fn put_positive(out: &mut String, answer: Result<bool, Stop>, m: &Meter) -> Result<(), AllocError> {
    match answer {
        Ok(true) => out.push_str("positive")?,
        Ok(false) => out.push_str("not positive")?,
        Err(stop) => put_stop(out, stop)?,
    }
    let left = m.left();
    write!(out, ", units left {left}")
}

/// Tests a block over an environment.
fn test_block(case: &Case, env: &Env, decl: &RawDecl, out: &mut String) -> Result<(), Fault> {
    let mut m = Meter::new(case.row.number("units", UNITS)?);
    match decl {
        RawDecl::Block { .. } => {
            let answer = positive(case.alloc, env, decl, &mut m);
            Ok(put_positive(out, answer, &m)?)
        }
        RawDecl::Constant { .. } => Err(Fault::Faulty("the last declaration is no block")),
    }
}

/// Keeps the row's declarations but the last, and tests that.
pub fn run_positive(case: &Case, opened: &Opened, out: &mut String) -> Result<(), Fault> {
    let place = opened.declared.saturating_sub(1);
    let env = first_kept(case.alloc, opened, place)?;
    match opened.raw.decls.as_slice().get(place) {
        Some(decl) => test_block(case, &env, decl, out),
        None => Err(Fault::Faulty("a declaration is missing")),
    }
}

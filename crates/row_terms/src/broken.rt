//! Broken rules with what they keep.
use crate::shown::put_term;
use crate::sorts::{put_family, put_level, put_name, put_sort};
use dump_reader::environment::RawEnv;
use pc_rules::broken::{Broken, Clash};
use pc_terms::term::Term;
use std::alloc::AllocError;
use universe_levels::sort::Sort;

fn put_two_terms(out: &mut String, env: &RawEnv, a: &Term, b: &Term) -> Result<(), AllocError> {
    put_term(out, env, a)?;
    out.push_str(" and ")?;
    put_term(out, env, b)
}

fn put_two_sorts(out: &mut String, env: &RawEnv, s: &Sort, t: &Sort) -> Result<(), AllocError> {
    put_sort(out, env, s)?;
    out.push_str(" and ")?;
    put_sort(out, env, t)
}

fn put_clash(out: &mut String, env: &RawEnv, clash: &Clash) -> Result<(), AllocError> {
    match clash {
        Clash::Terms(a, b) => put_two_terms(out, env, a, b),
        Clash::Sorts(s, t) => put_two_sorts(out, env, s.get(), t.get()),
    }
}

fn put_cycle(out: &mut String, constraints: &[u32]) -> Result<(), AllocError> {
    out.push_str(" of constraints")?;
    for place in constraints {
        write!(out, " {place}")?;
    }
    Ok(())
}

/// The name of a rule.
fn name_of(rule: &Broken) -> &'static str {
    match rule {
        Broken::UnboundRel { .. } => "UnboundRel",
        Broken::BadNumber { .. } => "BadNumber",
        Broken::UniverseCycle { .. } => "UniverseCycle",
        Broken::CountWrong { .. } => "CountWrong",
        Broken::NotEnoughAbstractions { .. } => "NotEnoughAbstractions",
        Broken::NotPositive { .. } => "NotPositive",
        Broken::DuplicateName { .. } => "DuplicateName",
        Broken::UnknownName { .. } => "UnknownName",
        Broken::LevelUndeclared { .. } => "LevelUndeclared",
        Broken::ElimNotAllowed { .. } => "ElimNotAllowed",
        Broken::SortTooSmall { .. } => "SortTooSmall",
        Broken::NotBelow { .. } => "NotBelow",
        Broken::NotASort { .. } => "NotASort",
        Broken::NotAProduct { .. } => "NotAProduct",
        Broken::NotTheFamily { .. } => "NotTheFamily",
        Broken::NotGuarded { .. } => "NotGuarded",
        Broken::RecArgNotInductive { .. } => "RecArgNotInductive",
    }
}

/// The numbers that a broken rule keeps, if it keeps numbers.
fn put_numbers(out: &mut String, rule: &Broken) -> Result<(), AllocError> {
    match rule {
        Broken::UnboundRel { index, length } => write!(out, " index {index} length {length}"),
        Broken::BadNumber { number, count } => write!(out, " number {number} count {count}"),
        Broken::UniverseCycle { constraints } => put_cycle(out, constraints.as_slice()),
        Broken::CountWrong { want, got } => write!(out, " want {want} got {got}"),
        Broken::NotEnoughAbstractions { def } => write!(out, " definition {def}"),
        Broken::NotPositive { family, ctor } => write!(out, " family {family} constructor {ctor}"),
        Broken::DuplicateName { name } => write!(out, " number {name}"),
        _ => out.push_str(" "),
    }
}

/// The names, levels and sorts that a broken rule keeps, if it keeps any.
fn put_names(out: &mut String, env: &RawEnv, rule: &Broken) -> Result<(), AllocError> {
    match rule {
        Broken::UnknownName { name } => put_name(out, env, *name),
        Broken::LevelUndeclared { level } => put_level(out, env, level.0),
        Broken::ElimNotAllowed { family } => put_family(out, env, *family),
        Broken::SortTooSmall { argument, family } => put_two_sorts(
            out,
            env,
            argument.get(),
            family.get(),
        ),
        _ => Ok(()),
    }
}

/// The terms that a broken rule keeps, if it keeps any.
fn put_terms(out: &mut String, env: &RawEnv, rule: &Broken) -> Result<(), AllocError> {
    match rule {
        Broken::NotBelow { clash } => put_clash(out, env, clash),
        Broken::NotASort { whnf } => put_term(out, env, whnf),
        Broken::NotAProduct { whnf } => put_term(out, env, whnf),
        Broken::NotTheFamily { whnf } => put_term(out, env, whnf),
        Broken::NotGuarded { argument } => put_term(out, env, argument),
        Broken::RecArgNotInductive { whnf } => put_term(out, env, whnf),
        _ => Ok(()),
    }
}

/// A broken rule with what it keeps.
pub fn put_broken(out: &mut String, env: &RawEnv, rule: &Broken) -> Result<(), AllocError> {
    out.push_str(name_of(rule))?;
    put_numbers(out, rule)?;
    put_names(out, env, rule)?;
    put_terms(out, env, rule)
}

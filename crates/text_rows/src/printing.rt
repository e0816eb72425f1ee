//! The text of environments: what `read` gives, and what `print` makes of it.
ghost use Rattle.dump_reader.specs.Spelled.{IsSpelled};

use crate::texts::put_refusal;
use dump_printer::print_env;
use dump_reader::environment::RawEnv;
use dump_reader::names::Names;
use dump_reader::reading::read_env;
use kio::MemSink;
use row_files::{Case, Fault, put_bytes};
use row_terms::{put_level, put_term, read};
use std::alloc::AllocError;
use universe_levels::constraint::{Constraint, Relation};
use universe_levels::level::Level;

/// Texts by their numbers.
fn put_names(out: &mut String, names: &Names) -> Result<(), AllocError> {
    for number in 0..names.len() as u32 {
        if let Some(text) = names.text(number) {
            write!(out, " {number}={text}")?;
        }
    }
    if names.text(names.len() as u32).is_some() || names.text(u32::MAX).is_some() {
        out.push_str(" and more")?;
    }
    Ok(())
}

fn put_levels(out: &mut String, levels: &[Level]) -> Result<(), AllocError> {
    for level in levels {
        let number = level.0;
        write!(out, " {number}")?;
    }
    Ok(())
}

fn put_constraint(
    out: &mut String,
    env: &RawEnv,
    constraint: &Constraint,
) -> Result<(), AllocError> {
    out.push_str(match constraint.relation {
        Relation::Lt => " (lt ",
        Relation::Le => " (le ",
        Relation::Eq => " (eq ",
    })?;
    put_level(out, env, constraint.left.0)?;
    out.push_str(" ")?;
    put_level(out, env, constraint.right.0)?;
    out.push_str(")")
}

fn put_constraints(out: &mut String, env: &RawEnv) -> Result<(), AllocError> {
    for constraint in env.constraints.as_slice() {
        put_constraint(out, env, constraint)?;
    }
    Ok(())
}

/// What was read: names and level names by their numbers, the levels, the constraints, and main.
fn put_env(out: &mut String, env: &RawEnv) -> Result<(), AllocError> {
    out.push_str("names")?;
    put_names(out, &env.names)?;
    out.push_str("\n  level names")?;
    put_names(out, &env.level_names)?;
    out.push_str("\n  levels")?;
    put_levels(out, env.levels.as_slice())?;
    out.push_str("\n  constraints")?;
    put_constraints(out, env)?;
    out.push_str("\n  main ")?;
    put_term(out, env, &env.main)
}

/// What was printed: the text that was read, or the printed text.
fn put_printed(out: &mut String, text: &[u8], printed: &[u8]) -> Result<(), AllocError> {
    if printed == text {
        return out.push_str("the text that was read");
    }
    put_bytes(out, printed)
}

/// What was read, and the text that is printed of it.
fn put_read(case: &Case, out: &mut String, text: &[u8], env: &RawEnv) -> Result<(), AllocError>
    requires spelled { IsSpelled env.now }
{
    put_env(out, env)?;
    let mut sink = MemSink::new(case.alloc, 4096, Vec::new(case.alloc));
    let printed = print_env(env, &mut sink);
    out.push_str(if printed.is_ok() {
        "\n  printed: "
    } else {
        "\n  write fault: "
    })?;
    put_printed(out, text, sink.bytes())
}

/// What reading a text gives, and what is printed of that.
fn put_reading(case: &Case, out: &mut String, text: &[u8]) -> Result<(), AllocError> {
    match read_env(case.alloc, text) {
        Ok(env) => put_read(case, out, text, &env),
        Err(refusal) => put_refusal(out, &refusal),
    }
}

/// Reads a text; what was read is told, and printed.
pub fn run_read(case: &Case, out: &mut String) -> Result<(), Fault> {
    let text = case.environment()?;
    Ok(put_reading(case, out, text.as_slice())?)
}

/// Prints an environment to a sink, and tells what went out, and the fault if one came.
fn put_print(
    out: &mut String,
    text: &[u8],
    env: &RawEnv,
    sink: &mut MemSink,
) -> Result<(), AllocError>
    requires spelled { IsSpelled env.now }
{
    if let Err(fault) = print_env(env, sink) {
        let written = fault.written;
        write!(out, "write fault after {written}: ")?;
    }
    put_printed(out, text, sink.bytes())
}

/// A sink that takes at most 5 bytes in a call, or `most`, and fails at the call `failing write`.
pub fn sink(case: &Case) -> Result<MemSink, Fault> {
    let most = case.row.number("most", 5)?.max(1) as usize;
    let failing = case.failing("failing write")?;
    Ok(MemSink::new(case.alloc, most, failing))
}

/// Prints an environment to the sink of the row.
fn print_text(case: &Case, out: &mut String, text: &[u8], env: &RawEnv) -> Result<(), Fault>
    requires spelled { IsSpelled env.now }
{
    let mut sink = sink(case)?;
    Ok(put_print(out, text, env, &mut sink)?)
}

/// Reads a text, and prints the environment to the sink of the row.
fn read_and_print(case: &Case, out: &mut String, text: &[u8]) -> Result<(), Fault> {
    let env = read(case)?;
    print_text(case, out, text, &env)
}

/// Reads a text, and prints the environment to a sink that takes at most 5 bytes in a call, or `most`, and fails at the call `failing write`.
pub fn run_print(case: &Case, out: &mut String) -> Result<(), Fault> {
    let text = case.environment()?;
    read_and_print(case, out, text.as_slice())
}

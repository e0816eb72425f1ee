//! Evidence, programs and refusals as text.
use box_terms::program::BoxProgram;
use box_text::program_text;
use calculus_rules::evidence::Evidence;
use dump_reader::environment::RawEnv;
use erase::refusal::EraseRefusal;
use pc_rules::broken::Place;
use pc_rules::stop::Halt;
use row_files::Fault;
use row_terms::{put_broken, put_name, put_stop};
use std::alloc::{AllocError, Global};

/// Why a term is erasable, or that the test finds nothing.
pub fn put_evidence(out: &mut String, evidence: Option<Evidence>) -> Result<(), AllocError> {
    out.push_str(match evidence {
        None => "none",
        Some(Evidence::Arity) => "Arity",
        Some(Evidence::Proof) => "Proof",
        Some(Evidence::PropMatch) => "PropMatch",
        Some(Evidence::PropConstructor) => "PropConstructor",
    })
}

/// What halts a call.
pub fn put_halt(out: &mut String, raw: &RawEnv, halt: &Halt) -> Result<(), AllocError> {
    match halt {
        Halt::Stop(stop) => put_stop(out, *stop),
        Halt::Broken(rule) => put_broken(out, raw, rule),
    }
}

/// A place in an environment.
fn put_place(out: &mut String, place: Place) -> Result<(), AllocError> {
    match place {
        Place::Level(n) => write!(out, "level {n}"),
        Place::Constraint(n) => write!(out, "constraint {n}"),
        Place::Declaration(n) => write!(out, "declaration {n}"),
        Place::Main => out.push_str("main"),
    }
}

/// Why there is no program.
pub fn put_refusal(
    out: &mut String,
    raw: &RawEnv,
    refusal: &EraseRefusal,
) -> Result<(), AllocError> {
    match refusal {
        EraseRefusal::AxiomReached { name } => {
            out.push_str("axiom ")?;
            put_name(out, raw, *name)
        }
        EraseRefusal::Halt { place, halt } => {
            put_halt(out, raw, halt)?;
            out.push_str(" in ")?;
            put_place(out, *place)
        }
    }
}

/// The lines of a program.
pub fn put_program(
    alloc: Global,
    out: &mut String,
    raw: &RawEnv,
    program: &BoxProgram,
) -> Result<(), Fault> {
    let text = program_text(alloc, &raw.names, program)?;
    let Ok(text) = String::from_utf8(text) else {
        return Err(Fault::Faulty("the program's text is none"));
    };
    let mut is_first = true;
    for line in text.as_str().lines() {
        if !is_first {
            out.push_str("\n  ")?;
        }
        is_first = false;
        out.push_str(line)?;
    }
    Ok(())
}

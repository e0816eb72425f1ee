//! The layer of the text: parsing, `read` and `print`.
use crate::lists::put_text_lists;
use crate::printing::{run_print, run_read};
use dump_parser::Parser;
use dump_reader::ReadRefusal;
use row_files::{Case, Fault};
use std::alloc::{AllocError, Global};

/// Runs a row of the layer.
pub fn run(case: &Case, out: &mut String) -> Result<(), Fault> {
    match case.row.given("call")? {
        "parse" => run_parse(case, out),
        "parse each prefix" => run_prefixes(case, out),
        "read" => run_read(case, out),
        "print" => run_print(case, out),
        "lists" => Ok(put_text_lists(case.alloc, out)?),
        _ => Err(Fault::Faulty("no such call")),
    }
}

/// A refusal of a text.
pub fn put_refusal(out: &mut String, refusal: &ReadRefusal) -> Result<(), AllocError> {
    match refusal {
        ReadRefusal::Syntax { offset } => write!(out, "syntax at {offset}"),
        ReadRefusal::Unsupported { what, offset } => {
            write!(out, "unsupported {what:?} at {offset}")
        }
        ReadRefusal::Limit { which, offset } => write!(out, "limit {which:?} at {offset}"),
        ReadRefusal::Memory => out.push_str("out of memory"),
    }
}

/// What a text was parsed as: how many levels, constraints and declarations it has, and the depth of main.
#[derive(Clone, Copy, Debug)]
struct Parsed {
    levels: usize,
    constraints: usize,
    declarations: usize,
    depth: usize,
}

/// Parses the declarations up to main, and counts them.
fn count_declarations(alloc: Global, parser: &mut Parser) -> Result<usize, ReadRefusal> {
    for before in 0..usize::MAX {
        let tree = parser.declaration(alloc, before)?;
        if tree.is_none() {
            return Ok(before);
        }
    }
    Ok(usize::MAX)
}

/// Parses a text.
fn parse(alloc: Global, text: &[u8]) -> Result<Parsed, ReadRefusal> {
    let mut parser = Parser::new(alloc, text);
    let head = parser.head(alloc)?;
    let (levels, constraints) = (head.levels.len(), head.constraints.len());
    let declarations = count_declarations(alloc, &mut parser)?;
    let main = parser.main(alloc)?;
    Ok(Parsed {
        levels,
        constraints,
        declarations,
        depth: main.depth(),
    })
}

fn put_parsed(out: &mut String, parsed: &Parsed) -> Result<(), AllocError> {
    let (levels, constraints) = (parsed.levels, parsed.constraints);
    let (declarations, depth) = (parsed.declarations, parsed.depth);
    write!(
        out,
        "levels {levels}, constraints {constraints}, declarations {declarations}, main of depth {depth}"
    )
}

fn run_parse(case: &Case, out: &mut String) -> Result<(), Fault> {
    let text = case.environment()?;
    match parse(case.alloc, text.as_slice()) {
        Ok(parsed) => Ok(put_parsed(out, &parsed)?),
        Err(refusal) => Ok(put_refusal(out, &refusal)?),
    }
}

/// Whether a text is refused as `Syntax`, at an offset in it or at its end.
fn is_syntax_within(alloc: Global, text: &[u8]) -> bool {
    match parse(alloc, text) {
        Err(ReadRefusal::Syntax { offset }) => offset <= text.len(),
        _ => false,
    }
}

/// How many proper prefixes of a text are refused as `Syntax` in them or at their end.
fn count_refused(alloc: Global, text: &[u8]) -> u32 {
    let mut refused: u32 = 0;
    for length in 0..text.len() {
        if is_syntax_within(alloc, &text[..length]) {
            refused = refused.saturating_add(1);
        }
    }
    refused
}

/// Parses each proper prefix, and counts those that are refused as `Syntax` in them or at their end.
fn run_prefixes(case: &Case, out: &mut String) -> Result<(), Fault> {
    let text = case.environment()?;
    let refused = count_refused(case.alloc, text.as_slice());
    let length = text.len();
    write!(out, "{refused} of {length} prefixes: syntax")?;
    Ok(())
}

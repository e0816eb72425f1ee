//! The rows of modules: cases of their bytes, their validity, their runs and their answers, as data.
//!
//! The arguments name the tables, which are files of `data/`. A row is a block of lines `KEY: VALUE`, with a blank line between two rows; a line
//! that begins with `#` is a remark. Each row has a line `case:`, what it shows in words, a line `call:`, the call that is made, and a line `module:`
//! or several, the module's bytes in hexadecimal, where `N*( .. )` stands for N times the bytes between the brackets. What came is printed behind
//! the case, and `stdout` has what is wanted, which is not taken from a run of this program.
//!
//! | Call | What is printed |
//! |---|---|
//! | `decode` | `bad at` the offset; or how many types, functions, tables, memories, globals, exports, element segments and bodies the module has |
//! | `validate` | that; or the function and the place, or the section, that has no typing; or `valid` |
//! | `encode` | that; or the shortest bytes of the valid module |
//! | `run` | that; or how a run with at most `cap:` pages and `steps:` steps (1,000,000 where it isn't told) ends and what the machine then shows. The run is made again step by step, and must show the same. Behind a run that returned: the data that it answers, as `answers` prints it |
//! | `frames` | how such a run ends, how many frames stand then, and the most that stood at once |
//! | `call` | that of `run`, of a run on arguments that are stored before, behind `heap` as it is then; or `no room` where they don't fit. A line `argument:` is an argument's nodes in preorder, each as its constructor's number and its number of arguments |
#![tactic(auto)]

mod answers;
mod arguments;
mod calling;
mod hex;
mod running;

use hex::{module_bytes, put_hex};
use row_files::{Fault, Row, rows_of};
use std::alloc::{AllocError, Global};
use std::{env, fs, io};
use wasm_core::{DecodeFault, EncodeFault, Limits, Module, Valid};
use wasm_decode::decode;
use wasm_encode::encode;
use wasm_validate::{Why, validate};

/// 1 where there is one, else 0.
fn count_of(limits: Option<Limits>) -> usize {
    match limits {
        Some(_) => 1,
        None => 0,
    }
}

/// Prints a count, and what is counted.
fn put_count(out: &mut String, count: usize, what: &str) -> Result<(), AllocError> {
    write!(out, "{count} {what}")
}

/// How many parts a module has.
fn put_parts(out: &mut String, m: &Module) -> Result<(), AllocError> {
    put_count(out, m.types().as_slice().len(), "types, ")?;
    put_count(out, m.funcs().as_slice().len(), "functions, ")?;
    put_count(out, count_of(m.table()), "tables, ")?;
    put_count(out, count_of(m.memory()), "memories, ")?;
    put_count(out, m.globals().as_slice().len(), "globals, ")?;
    put_count(out, m.exports().as_slice().len(), "exports, ")?;
    put_count(out, m.elements().as_slice().len(), "element segments, ")?;
    put_count(out, m.bodies().as_slice().len(), "bodies")
}

/// The module of a row; none where its bytes spell none, which is then told.
fn decoded(alloc: Global, row: &Row, out: &mut String) -> Result<Option<Module>, Fault> {
    let bytes = module_bytes(alloc, row)?;
    match decode(alloc, bytes.as_slice()) {
        Ok(module) => Ok(Some(module)),
        Err(DecodeFault::Bad { offset }) => {
            write!(out, "bad at {offset}")?;
            Ok(None)
        }
        Err(DecodeFault::Memory) => Err(Fault::Memory),
    }
}

/// Tells where a module has no typing: in a section, or in a function.
fn put_place(out: &mut String, func: u32, place: u32) -> Result<(), AllocError> {
    if func == u32::MAX {
        write!(out, "invalid: section {place}")
    } else {
        write!(out, "invalid: function {func}, place {place}")
    }
}

/// Tells why a module isn't valid.
fn put_refusal(out: &mut String, why: Why) -> Result<(), Fault> {
    match why {
        Why::Memory => Err(Fault::Memory),
        Why::Invalid { func, place } => Ok(put_place(out, func, place)?),
    }
}

/// No valid module, which is told.
fn none_valid(out: &mut String, why: Why) -> Result<Option<Valid>, Fault> {
    put_refusal(out, why)?;
    Ok(None)
}

/// The valid module of a row; none where it has none, which is then told.
fn validated(alloc: Global, row: &Row, out: &mut String) -> Result<Option<Valid>, Fault> {
    match decoded(alloc, row, out)? {
        None => Ok(None),
        Some(module) => match validate(alloc, module) {
            Ok(valid) => Ok(Some(valid)),
            Err(refused) => none_valid(out, refused.why),
        },
    }
}

/// Prints the shortest bytes of a module.
fn put_encoded(alloc: Global, valid: &Valid, out: &mut String) -> Result<(), Fault> {
    match encode(alloc, valid) {
        Ok(bytes) => Ok(put_hex(out, bytes.as_slice())?),
        Err(EncodeFault::ModuleBytes) => Ok(out.push_str("limit ModuleBytes")?),
        Err(EncodeFault::Memory) => Err(Fault::Memory),
    }
}

/// What a valid module is asked.
#[derive(Clone, Copy)]
enum Question {
    Valid,
    Encoded,
    Ran,
    Called,
    Frames,
}

/// Answers a question about a valid module.
fn answer(
    alloc: Global,
    row: &Row,
    question: Question,
    valid: &Valid,
    out: &mut String,
) -> Result<(), Fault> {
    match question {
        Question::Valid => Ok(out.push_str("valid")?),
        Question::Encoded => put_encoded(alloc, valid, out),
        Question::Ran => running::run(alloc, valid, row, out),
        Question::Called => calling::call(alloc, valid, row, out),
        Question::Frames => running::frames(alloc, valid, row, out),
    }
}

/// Answers a row about its valid module, where it has one.
fn answer_valid(
    alloc: Global,
    row: &Row,
    question: Question,
    out: &mut String,
) -> Result<(), Fault> {
    match validated(alloc, row, out)? {
        Some(valid) => answer(alloc, row, question, &valid, out),
        None => Ok(()),
    }
}

/// Tells what a module has.
fn put_module(out: &mut String, module: &Module) -> Result<(), Fault> {
    Ok(put_parts(out, module)?)
}

/// Answers a row about what its bytes spell.
fn answer_decoded(alloc: Global, row: &Row, out: &mut String) -> Result<(), Fault> {
    match decoded(alloc, row, out)? {
        Some(module) => put_module(out, &module),
        None => Ok(()),
    }
}

/// Runs a row.
fn run(alloc: Global, row: &Row, out: &mut String) -> Result<(), Fault> {
    match row.given("call")? {
        "decode" => answer_decoded(alloc, row, out),
        "validate" => answer_valid(alloc, row, Question::Valid, out),
        "encode" => answer_valid(alloc, row, Question::Encoded, out),
        "run" => answer_valid(alloc, row, Question::Ran, out),
        "call" => answer_valid(alloc, row, Question::Called, out),
        "frames" => answer_valid(alloc, row, Question::Frames, out),
        _ => Err(Fault::Faulty("no such call")),
    }
}

/// What came of a row: the case in words, and what the call answered.
fn told(alloc: Global, row: &Row) -> Result<String, Fault> {
    let mut out = String::from_str(alloc, row.given("case")?)?;
    out.push_str("\n  ")?;
    match run(alloc, row, &mut out) {
        Err(Fault::Faulty(why)) => write!(out, "faulty row: {why}")?,
        Err(fault) => return Err(fault),
        Ok(()) => {}
    }
    Ok(out)
}

/// Runs a row, and prints what came of it.
fn run_row(rt: &HostRuntime, row: &Row) -> io::Result<()> {
    match told(rt.alloc(), row) {
        Ok(out) => println!(rt; "{out}"),
        Err(Fault::Memory) => println!(rt; "out of memory"),
        Err(Fault::Faulty(why)) => println!(rt; "faulty row: {why}"),
    }
}

/// Runs the rows of a table, and prints what came of each.
fn run_table(rt: &HostRuntime, file: &str) -> io::Result<()> {
    println!(rt; "== {file}")?;
    let text = fs::read_to_string(rt, file)?;
    for row in &rows_of(rt.alloc(), text.as_str())? {
        if !row.fields().is_empty() {
            run_row(rt, row)?;
        }
    }
    Ok(())
}

fn main(rt: HostRuntime) -> io::Result<()> {
    for file in env::args(&rt)?.skip(1) {
        run_table(&rt, file.as_str())?;
    }
    Ok(())
}

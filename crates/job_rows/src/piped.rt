//! Two jobs one after the other: what the first writes is the second's input.
use crate::jobs::{put_served, words_of};
use driver::serve;
use kio::{MemSink, MemSource};
use row_files::{Case, Fault, put_bytes};
use std::alloc::{AllocError, Global};

/// Does a job on an input, and gives its status.
fn serve_bytes(
    alloc: Global,
    words: &Vec<String>,
    input: Vec<u8>,
    answer: &mut MemSink,
    line: &mut MemSink,
) -> u8 {
    let mut src = MemSource::new(input, Vec::new(alloc));
    serve(alloc, words, &mut src, answer, line, Vec::new(alloc))
}

/// Does the first job on an input, tells its status and what went to err, and gives what it wrote.
fn put_first(
    alloc: Global,
    words: &Vec<String>,
    input: Vec<u8>,
    out: &mut String,
) -> Result<Vec<u8>, AllocError> {
    let mut answer = MemSink::new(alloc, 3, Vec::new(alloc));
    let mut line = MemSink::new(alloc, 4096, Vec::new(alloc));
    let status = serve_bytes(alloc, words, input, &mut answer, &mut line);
    write!(out, "status {status}, err ")?;
    put_bytes(out, line.bytes())?;
    answer.bytes().to_vec(alloc)
}

/// Does the second job on what the first wrote.
fn put_second(
    alloc: Global,
    words: &Vec<String>,
    input: Vec<u8>,
    out: &mut String,
) -> Result<(), AllocError> {
    let mut answer = MemSink::new(alloc, 3, Vec::new(alloc));
    let mut line = MemSink::new(alloc, 4096, Vec::new(alloc));
    let status = serve_bytes(alloc, words, input, &mut answer, &mut line);
    out.push_str("\n  then ")?;
    put_served(out, status, answer.bytes(), line.bytes())
}

/// Does the job of `words:` on the row's input, and then that of `then:` on what it wrote.
pub fn run_piped(case: &Case, out: &mut String) -> Result<(), Fault> {
    let alloc = case.alloc;
    let words = words_of(alloc, case.row.given("words")?)?;
    let then = words_of(alloc, case.row.given("then")?)?;
    let text = case.environment()?;
    let written = put_first(alloc, &words, text, out)?;
    Ok(put_second(alloc, &then, written, out)?)
}

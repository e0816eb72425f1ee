//! The layer of hostile use: jobs on each proper prefix of an input, and jobs of which each call in turn fails.
use crate::jobs;
use driver::serve;
use kio::{MemSink, MemSource};
use row_files::{Case, Fault, put_bytes};
use std::alloc::{AllocError, Global};

/// Whose calls fail.
#[derive(Clone, Copy, PartialEq, Eq)]
enum Failing {
    Reads,
    Writes,
    Lines,
}

/// What a call of a job is given besides its input: the words, whose calls fail, and the first of them that does.
#[derive(Clone, Copy)]
struct Given<'a> {
    words: &'a Vec<String>,
    failing: Failing,
    first: u64,
}

/// Runs a row of the layer.
pub fn run(case: &Case, out: &mut String) -> Result<(), Fault> {
    match case.row.given("call")? {
        "serve at each prefix" => run_prefixes(case, out),
        "serve with each fault" => run_faults(case, out),
        _ => jobs::run(case, out),
    }
}

/// The status of a job on an input whose length changed it, and the line on err; out takes at most 3 bytes in a call.
fn put_status(
    out: &mut String,
    length: usize,
    status: u8,
    answer: &[u8],
    line: &[u8],
) -> Result<(), AllocError> {
    write!(out, "length {length}: status {status}, out ")?;
    put_bytes(out, answer)?;
    out.push_str(", err ")?;
    put_bytes(out, line)?;
    out.push_str("; ")
}

/// Does a job on an input. Where the status isn't the last one, or there is something on out, it tells what came. The status.
fn put_if_changed(
    out: &mut String,
    alloc: Global,
    words: &Vec<String>,
    bytes: Vec<u8>,
    last: u8,
) -> Result<u8, AllocError> {
    let length = bytes.len();
    let mut src = MemSource::new(bytes, Vec::new(alloc));
    let mut answer = MemSink::new(alloc, 3, Vec::new(alloc));
    let mut line = MemSink::new(alloc, 4096, Vec::new(alloc));
    let status = serve(
        alloc,
        words,
        &mut src,
        &mut answer,
        &mut line,
        Vec::new(alloc),
    );
    if status != last || !answer.bytes().is_empty() {
        put_status(out, length, status, answer.bytes(), line.bytes())?;
    }
    Ok(status)
}

/// Does a job on each proper prefix of an input, and tells what came where the status changes.
fn put_prefixes(
    out: &mut String,
    alloc: Global,
    words: &Vec<String>,
    text: &[u8],
) -> Result<(), AllocError> {
    let mut last = 255;
    for length in 0..text.len() {
        let bytes = text[..length].to_vec(alloc)?;
        last = put_if_changed(out, alloc, words, bytes, last)?;
    }
    let length = text.len();
    write!(out, "and so up to length {length}")
}

/// Does a job on each proper prefix of the row's input.
fn run_prefixes(case: &Case, out: &mut String) -> Result<(), Fault> {
    let words = jobs::words_of(case.alloc, case.row.given("words")?)?;
    let text = case.environment()?;
    Ok(put_prefixes(out, case.alloc, &words, text.as_slice())?)
}

/// The numbers of the calls that fail: none where others' calls do, and else 64 of them from the first on.
fn calls_of(alloc: Global, given: Given, whose: Failing) -> Result<Vec<u64>, AllocError> {
    let mut calls = Vec::new(alloc);
    if given.failing == whose {
        for call in given.first..given.first.saturating_add(64) {
            calls.push(call)?;
        }
    }
    Ok(calls)
}

/// Does a job on a source, and tells what came. Out and err take one byte in a call.
fn put_job(
    out: &mut String,
    alloc: Global,
    given: Given,
    src: &mut MemSource,
) -> Result<(), AllocError> {
    let mut answer = MemSink::new(alloc, 1, calls_of(alloc, given, Failing::Writes)?);
    let mut line = MemSink::new(alloc, 1, calls_of(alloc, given, Failing::Lines)?);
    let status = serve(
        alloc,
        given.words,
        src,
        &mut answer,
        &mut line,
        Vec::new(alloc),
    );
    jobs::put_served(out, status, answer.bytes(), line.bytes())
}

/// Does a job on an input with calls that fail, and tells what came.
fn put_fault(out: &mut String, alloc: Global, given: Given, text: &[u8]) -> Result<(), AllocError> {
    let reads = calls_of(alloc, given, Failing::Reads)?;
    let mut src = MemSource::new(text.to_vec(alloc)?, reads);
    put_job(out, alloc, given, &mut src)
}

/// Does a job on an input as often as there are calls to fail, the first of them from 1 on.
fn put_faults(
    out: &mut String,
    alloc: Global,
    given: Given,
    calls: u64,
    text: &[u8],
) -> Result<(), AllocError> {
    for first in 1..calls.saturating_add(1) {
        if first > 1 {
            out.push_str("\n  ")?;
        }
        write!(out, "from call {first} on: ")?;
        put_fault(out, alloc, Given { first, ..given }, text)?;
    }
    Ok(())
}

/// Whose calls a row says to fail.
fn failing_of(case: &Case) -> Result<Failing, Fault> {
    match case.row.given("failing")? {
        "reads" => Ok(Failing::Reads),
        "writes" => Ok(Failing::Writes),
        "lines" => Ok(Failing::Lines),
        _ => Err(Fault::Faulty("nobody's calls")),
    }
}

/// Does a job on the row's input with each of its `calls` in turn as the first that fails; `failing` says whose calls they are.
fn run_faults(case: &Case, out: &mut String) -> Result<(), Fault> {
    let words = jobs::words_of(case.alloc, case.row.given("words")?)?;
    let failing = failing_of(case)?;
    let calls = case.row.number("calls", 1)?;
    let text = case.environment()?;
    let given = Given {
        words: &words,
        failing,
        first: 1,
    };
    Ok(put_faults(out, case.alloc, given, calls, text.as_slice())?)
}

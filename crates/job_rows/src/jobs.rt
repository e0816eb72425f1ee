//! The layer of the jobs: `serve`, with the words of a command line, an input, and calls of it that fail.
ghost use Rattle.std.specs.Prelude.{IfSome, ◌≤◌};

use crate::piped::run_piped;
use crate::reporting::RowReport;
use crate::wanting::Wanted;
use driver::serve;
use kio::{MemSink, MemSource, read_all};
use reports::{AxiomReport, ClassReport, DeclReport, GrowReport, Report, RuleReport, StepReport};
use row_files::{Case, Fault, put_bytes};
use std::alloc::{AllocError, Global};

/// Runs a row of the layer.
pub fn run(case: &Case, out: &mut String) -> Result<(), Fault> {
    match case.row.given("call")? {
        "serve" => run_serve(case, out),
        "serve each prefix" => run_prefixes(case, out),
        "serve twice" => run_piped(case, out),
        _ => Err(Fault::Faulty("no such call")),
    }
}

/// The words of a command line.
pub fn words_of(alloc: Global, line: &str) -> Result<Vec<String>, AllocError> {
    let mut words = Vec::new(alloc);
    for word in line.split_whitespace() {
        words.push(String::from_str(alloc, word)?)?;
    }
    Ok(words)
}

/// Whether an object still gives all of the input, which isn't empty.
fn is_unread(alloc: Global, src: &mut MemSource, input: &[u8]) -> bool {
    match read_all(alloc, src, 16_777_216) {
        Ok(rest) => !input.is_empty() && rest.as_slice() == input,
        Err(_) => false,
    }
}

/// The count of bytes, the first 20 and the last 20; fewer whole.
fn put_ends(out: &mut String, bytes: &[u8]) -> Result<(), AllocError> {
    let count = bytes.len();
    if count < 20 {
        return put_bytes(out, bytes);
    }
    write!(out, "{count} bytes, ")?;
    put_bytes(out, &bytes[..20])?;
    out.push_str(" .. ")?;
    put_bytes(out, &bytes[count - 20..])
}

/// Bytes: of over 4,096 the count and the ends alone.
fn put_shown(out: &mut String, bytes: &[u8]) -> Result<(), AllocError> {
    if bytes.len() <= 4096 {
        put_bytes(out, bytes)
    } else {
        put_ends(out, bytes)
    }
}

/// The status of a job, and what went to out and to err.
pub fn put_served(
    out: &mut String,
    status: u8,
    answer: &[u8],
    line: &[u8],
) -> Result<(), AllocError> {
    write!(out, "status {status}, out ")?;
    put_shown(out, answer)?;
    out.push_str(", err ")?;
    put_bytes(out, line)
}

/// The class of steps that a word names.
fn class_named(kind: &str) -> Option<u8>
    ensures range { IfSome result (λ c. (1 ≤ c) × (c ≤ 6)) }
{
    match kind {
        "class1" => Some(1),
        "class2" => Some(2),
        "class3" => Some(3),
        "class4" => Some(4),
        "class5" => Some(5),
        "class6" => Some(6),
        _ => None,
    }
}

/// A report by its word: one that wants everything from the last count on, nothing from 7 on, or the uses of one rule from 0 on.
fn row_report(kind: &str) -> RowReport {
    let (name, count, wanted) = match kind {
        "last" => (20, u64::MAX, Wanted::Everything),
        "nothing" => (21, 7, Wanted::Nothing),
        "rule7" => (7, 0, Wanted::Rule(7)),
        "rule8" => (8, 0, Wanted::Rule(8)),
        "rule9" => (9, 0, Wanted::Rule(9)),
        "rule10" => (10, 0, Wanted::Rule(10)),
        "rule11" => (11, 0, Wanted::Rule(11)),
        "rule12" => (12, 0, Wanted::Rule(12)),
        _ => (255, 0, Wanted::Nothing),
    };
    RowReport {
        name,
        count,
        wanted,
    }
}

/// Does a job with the reports that are named: out takes at most 3 bytes in a call.
fn put_job(
    out: &mut String,
    case: &Case,
    words: &Vec<String>,
    src: &mut MemSource,
    answer: &mut MemSink,
) -> Result<(), Fault> {
    let alloc = case.alloc;
    let mut reports: Vec<Box<dyn Report>> = Vec::new(alloc);
    for kind in case.row.value("reports").unwrap_or("").split_whitespace() {
        match kind {
            "declarations" => reports.push(Box::new(alloc, DeclReport::new())?)?,
            "axioms" => reports.push(Box::new(alloc, AxiomReport::new())?)?,
            "rules" => reports.push(Box::new(alloc, RuleReport::new())?)?,
            "steps" => reports.push(Box::new(alloc, StepReport::new())?)?,
            "grows" => reports.push(Box::new(alloc, GrowReport::new())?)?,
            _ => match class_named(kind) {
                Some(class) => reports.push(Box::new(alloc, ClassReport::new(class))?)?,
                None => reports.push(Box::new(alloc, row_report(kind))?)?,
            },
        }
    }
    let failing = case.failing("failing report")?;
    let mut line = MemSink::new(alloc, 4096, failing);
    let status = serve(alloc, words, src, answer, &mut line, reports);
    Ok(put_served(out, status, answer.bytes(), line.bytes())?)
}

/// Does a job on a source, where the row says which write to out fails.
fn serve_from(
    case: &Case,
    words: &Vec<String>,
    src: &mut MemSource,
    out: &mut String,
) -> Result<(), Fault> {
    let failing = case.failing("failing write")?;
    let mut answer = MemSink::new(case.alloc, 3, failing);
    put_job(out, case, words, src, &mut answer)
}

/// A source of an input, where the row says which read fails.
fn source(case: &Case, text: &[u8]) -> Result<MemSource, Fault> {
    let failing = case.failing("failing read")?;
    let bytes = text.to_vec(case.alloc)?;
    Ok(MemSource::new(bytes, failing))
}

/// Does a job on an input, and tells whether nothing of it was read.
fn serve_text(
    case: &Case,
    words: &Vec<String>,
    text: &[u8],
    out: &mut String,
) -> Result<(), Fault> {
    let mut src = source(case, text)?;
    serve_from(case, words, &mut src, out)?;
    if is_unread(case.alloc, &mut src, text) {
        out.push_str(", nothing read")?;
    }
    Ok(())
}

/// Does a job on the row's input.
fn serve_words(case: &Case, words: &Vec<String>, out: &mut String) -> Result<(), Fault> {
    let text = case.environment()?;
    serve_text(case, words, text.as_slice(), out)
}

/// Does a job on an input: `words`, and the numbers of a read and of a write to out that fail. Out takes at most 3 bytes in a call.
fn run_serve(case: &Case, out: &mut String) -> Result<(), Fault> {
    let words = words_of(case.alloc, case.row.given("words")?)?;
    serve_words(case, &words, out)
}

/// Whether a job on an input has status 5 with nothing on out.
fn is_refused(alloc: Global, words: &Vec<String>, bytes: Vec<u8>) -> bool {
    let mut src = MemSource::new(bytes, Vec::new(alloc));
    let mut answer = MemSink::new(alloc, 3, Vec::new(alloc));
    let mut line = MemSink::new(alloc, 4096, Vec::new(alloc));
    let status = serve(
        alloc,
        words,
        &mut src,
        &mut answer,
        &mut line,
        Vec::new(alloc),
    );
    status == 5 && answer.bytes().is_empty()
}

/// How many proper prefixes of an input are refused.
fn count_refused(alloc: Global, words: &Vec<String>, text: &[u8]) -> Result<u32, AllocError> {
    let mut refused: u32 = 0;
    for length in 0..text.len() {
        let bytes = text[..length].to_vec(alloc)?;
        if is_refused(alloc, words, bytes) {
            refused = refused.saturating_add(1);
        }
    }
    Ok(refused)
}

/// Does a job on each proper prefix of the row's input, and counts those that are refused.
fn serve_prefixes(case: &Case, words: &Vec<String>, out: &mut String) -> Result<(), Fault> {
    let text = case.environment()?;
    let refused = count_refused(case.alloc, words, text.as_slice())?;
    let length = text.len();
    write!(out, "{refused} of {length} prefixes: status 5, out empty")?;
    Ok(())
}

/// Does a job on each proper prefix of an input, and counts those of status 5 with nothing on out.
fn run_prefixes(case: &Case, out: &mut String) -> Result<(), Fault> {
    let words = words_of(case.alloc, case.row.given("words")?)?;
    serve_prefixes(case, &words, out)
}

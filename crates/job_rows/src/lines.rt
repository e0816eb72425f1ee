//! The layer of the command line: the request of its words.
use command_line::{Job, LineFault, Request, read_line};
use row_files::{Case, Fault};
use std::alloc::{AllocError, Global};

/// Runs a row of the layer.
pub fn run(case: &Case, out: &mut String) -> Result<(), Fault> {
    match case.row.given("call")? {
        "line" => run_line(case, out),
        _ => Err(Fault::Faulty("no such call")),
    }
}

/// The name of a job.
fn name_of(job: Job) -> &'static str {
    match job {
        Job::Exec => "exec",
        Job::Check => "check",
        Job::Eval => "eval",
        Job::Run => "run",
        Job::Compile => "compile",
        Job::Bench => "bench",
        Job::Explain => "explain",
        Job::Export => "export",
        Job::Call => "call",
        Job::Verify => "verify",
        Job::Cert => "cert",
    }
}

/// The job and the numbers.
fn put_request(out: &mut String, request: &Request) -> Result<(), AllocError> {
    let job = name_of(request.job);
    let Request {
        turns,
        pages,
        steps,
        size,
        ..
    } = *request;
    write!(
        out,
        "{job}, turns {turns}, pages {pages}, steps {steps}, size {size}"
    )
}

/// The words of a line.
fn words_of(alloc: Global, line: &str) -> Result<Vec<String>, AllocError> {
    let mut words = Vec::new(alloc);
    for word in line.split_whitespace() {
        words.push(String::from_str(alloc, word)?)?;
    }
    Ok(words)
}

/// Reads the row's words.
fn run_line(case: &Case, out: &mut String) -> Result<(), Fault> {
    let words = words_of(case.alloc, case.row.given("words")?)?;
    match read_line(case.alloc, &words) {
        Ok(request) => Ok(put_request(out, &request)?),
        Err(LineFault::Usage) => Ok(out.push_str("usage")?),
        Err(LineFault::Memory) => Ok(out.push_str("no memory")?),
    }
}

//! The program `erasec`: standard input, output and error, and five reports, for the top call of `driver`, whose status is the program's.
#![tactic(auto)]

use driver::serve;
use kio::{ReaderSource, WriterSink, write_all};
use reports::{AxiomReport, DeclReport, GrowReport, Report, RuleReport, StepReport};
use std::process::ExitCode;
use std::{env, io};

/// The words after the program's name. A command line with a word that isn't UTF-8 is a faulty one, as one without a word is.
fn words(rt: &HostRuntime) -> io::Result<Vec<String>> {
    let mut words = Vec::new(rt.alloc());
    match env::args(rt) {
        Ok(all) => {
            for word in all.skip(1) {
                words.push(word)?;
            }
            Ok(words)
        }
        Err(why) if why.kind() == io::ErrorKind::InvalidData => Ok(words),
        Err(why) => Err(why),
    }
}

/// Does the job of the words, with reports of the declarations, of the axioms, of the uses of rules, of the steps and of the grows, and answers its status.
fn status(rt: &HostRuntime) -> io::Result<u8> {
    let alloc = rt.alloc();
    let words = words(rt)?;
    let mut reports: Vec<Box<dyn Report>> = Vec::new(alloc);
    reports.push(Box::new(alloc, DeclReport::new())?)?;
    reports.push(Box::new(alloc, AxiomReport::new())?)?;
    reports.push(Box::new(alloc, RuleReport::new())?)?;
    reports.push(Box::new(alloc, StepReport::new())?)?;
    reports.push(Box::new(alloc, GrowReport::new())?)?;
    let mut src = ReaderSource::new(rt.stdin());
    let mut out = WriterSink::new(rt.stdout());
    let mut err = WriterSink::new(rt.stderr());
    Ok(serve(alloc, &words, &mut src, &mut out, &mut err, reports))
}

fn main(rt: HostRuntime) -> ExitCode {
    match status(&rt) {
        Ok(status) => ExitCode::from(status),
        Err(_) => {
            let _ = write_all(&mut WriterSink::new(rt.stderr()), b"out of memory\n");
            ExitCode::from(1)
        }
    }
}

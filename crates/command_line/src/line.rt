//! Reading a line.

ghost use Rattle.std.specs.Prelude.{◌≡◌, IfOk, Err, Some, None};
ghost use Rattle.clap.specs.Words.{found_of, rows_of};
ghost use Rattle.command_line.specs.Line.{IsInRange, number_in, request_in, request_of, words_of};
ghost use Rattle.command_line.specs.Numbers.{HasNumber, HasNumbers};

use crate::command::command;
use crate::job::{Job, job_of};
use clap::ArgMatches;
use clap::error::ErrorKind;
use std::alloc::Global;

/// What a line asks for: a job, and the numbers of its options.
#[derive(Clone, Copy, Debug, PartialEq, Eq)]
pub struct Request {
    pub job: Job,
    /// The units of checking or verifying, of the search for types, of erasure and of evaluation together: 1 to 4,294,967,295.
    pub turns: u32,
    /// The most pages of a module's memory, of 65,536 bytes each: 1 to 16,384.
    pub pages: u32,
    /// The most steps of a run: 1 to 4,294,967,295.
    pub steps: u32,
    /// The number of the text that is made: 1 to 4,096.
    pub size: u32,
}

/// Why a line gives no request.
#[derive(Clone, Copy, Debug, PartialEq, Eq)]
pub enum LineFault {
    /// `clap` refuses the line, or its JOB is no job.
    Usage,
    /// There was no memory.
    Memory,
}

/// The number of an option, whose value has passed.
fn number(matches: &ArgMatches, name: &str) -> u32
    requires given { HasNumber (found_of matches.now) name.now 4294967295 }
    ensures is { result ≡ number_in name.now (rows_of (found_of matches.now)) }
{
    match matches.get_one::<u32>(name) {
        Some(number) => number,
        None => unreachable!(),
    }
}

/// The request of a command's matches. None where JOB is no job.
fn asked(matches: &ArgMatches) -> Option<Request>
    requires given { HasNumbers (found_of matches.now) }
    ensures is { result ≡ request_in (rows_of (found_of matches.now)) }
{
    let job = job_of(matches.get_str("job")?)?;
    Some(Request {
        job,
        turns: number(matches, "turns"),
        pages: number(matches, "pages"),
        steps: number(matches, "steps"),
        size: number(matches, "size"),
    })
}

/// The request of the words after the program's name.
pub fn read_line(alloc: Global, words: &Vec<String>) -> Result<Request, LineFault>
    ensures reads { IfOk result (λ r. request_of (words_of words.now) ≡ Some r) }
    ensures refuses { result ≡ Err LineFault.Usage → request_of (words_of words.now) ≡ None }
    ensures in_range { IfOk result IsInRange }
{
    let command = match command(alloc) {
        Ok(command) => command,
        Err(_) => return Err(LineFault::Memory),
    };
    match command.try_get_matches_from(words.as_slice()) {
        Ok(matches) => match asked(&matches) {
            Some(request) => Ok(request),
            None => Err(LineFault::Usage),
        },
        Err(error) => match error.kind() {
            ErrorKind::OutOfMemory => Err(LineFault::Memory),
            _ => Err(LineFault::Usage),
        },
    }
}

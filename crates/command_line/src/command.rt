//! The command that `clap` reads the line by.

ghost use Rattle.std.specs.Prelude.{◌≡◌, false, IfOk};
ghost use Rattle.clap.specs.Words.{app_of, rule_of};
ghost use Rattle.command_line.specs.Line.{command as line_command, job_rule, number_rule};

use clap::builder::ValueParser;
use clap::{Arg, ArgAction, Command};
use std::alloc::{AllocError, Global};

/// The option of a number from 1 to `most`, with its default as text.
fn number_option<'a>(alloc: Global, name: &'a str, most: u64, default: &'a str) -> Arg<'a>
    ensures rule { rule_of result ≡ number_rule name.entry.now most default.entry.now }
    ensures local { result.global ≡ false }
{
    Arg::new(alloc, name)
        .long(name)
        .action(ArgAction::Set)
        .value_parser(ValueParser::unsigned(1, most))
        .default_value(default)
}

/// The required word that names the job.
fn job_argument<'a>(alloc: Global) -> Arg<'a>
    ensures rule { rule_of result ≡ job_rule }
    ensures local { result.global ≡ false }
{
    Arg::new(alloc, "job").required(true).action(ArgAction::Set)
}

/// The whole command, of the words after the program's name.
pub(crate) fn command<'a>(alloc: Global) -> Result<Command<'a>, AllocError>
    ensures is { IfOk result (λ c. app_of c ≡ line_command) }
{
    let turns = number_option(alloc, "turns", 4_294_967_295, "1000000");
    let pages = number_option(alloc, "pages", 16_384, "1024");
    let steps = number_option(alloc, "steps", 4_294_967_295, "100000000");
    let size = number_option(alloc, "size", 4_096, "256");
    Command::new(alloc, "erasec")
        .no_binary_name(true)
        .arg(job_argument(alloc))?
        .arg(turns)?
        .arg(pages)?
        .arg(steps)?
        .arg(size)
}

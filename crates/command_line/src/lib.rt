//! The command line of `erasec`: the words after the program's name, read as a job and its numbers.
//!
//! The line is one simple command of the kit's `clap`: a required positional JOB, and the options `--turns`, `--pages`, `--steps` and `--size`, each a
//! whole number in its range with a default. `read_line` gives exactly what the definition `Line` has (`reads`, `refuses`): a line is at fault where
//! `clap` refuses it, a call for help included, or JOB is no job. What `clap` makes of a line is its own promise for simple commands, from
//! which the definition is made. Each number lies in its range (`in_range`). Want of memory is the one free answer.
//!
//! `clap` stands below, with all definitions of words, options and matches; `driver` stands above.
#![tactic(auto)]

mod command;
mod job;
mod line;

pub use job::Job;
pub use line::{LineFault, Request, read_line};

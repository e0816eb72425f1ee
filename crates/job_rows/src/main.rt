//! The rows of the checker and of the jobs: whole environments, and the top call, with the words of a command line, an input, and calls of it
//! that fail. `row_files` has the format of rows.
//!
//! | Table | Calls |
//! |---|---|
//! | `environments` | `check` (`units:`, then the units that are left are told, and the uses of the rules), `kept` |
//! | `jobs` | `serve`, `serve each prefix` (`words:`, `failing read:`, `failing write:`; `reports:` of the kinds `declarations`, `axioms`, `rules`, `steps`, `grows`, `class1` to `class6`, `last`, `nothing`, `rule7` to `rule12`, `failing report:` for a write to err that fails) |
//! | `executions` | the same, of the job `exec` |
//! | `runs` | the same, of the job `run` and of options |
//! | `reports` | the same, with reports, and of the job `bench` |
//! | `limits` | the same, of the job `exec` at the limits of the compiler |
//! | `compiled` | `serve twice`: the job of `words:`, and then that of `then:` on what it wrote |
//! | `lines` | `line` (`words:`) |
//! | `explained` | `serve`, of the job `explain` |
//! | `exported` | `serve` and `serve twice`, of the job `export` |
//! | `called` | `serve`, of the job `call` |
//! | `verified` | `serve`, of the job `verify` |
//! | `certified` | `serve` of the job `cert`, and `serve twice` of `cert` and then `verify` |
//! | `faults` | `serve at each prefix`, `serve with each fault` (`failing:` says whose calls, `calls:` how many), `serve` |
#![tactic(auto)]

mod environments;
mod faults;
mod jobs;
mod kept;
mod lines;
mod piped;
mod reporting;
mod wanting;

use row_files::{Case, Fault, Table, run_tables};
use std::io;

/// The layers, each with a table.
#[derive(Clone, Copy)]
enum Layer {
    Environments,
    Jobs,
    Executions,
    Runs,
    Reports,
    Limits,
    Compiled,
    Lines,
    Faults,
    Explained,
    Exported,
    Called,
    Verified,
    Certified,
}

impl Table for Layer {
    fn file(&self) -> &str {
        match self {
            Layer::Environments => "environments.rows",
            Layer::Jobs => "jobs.rows",
            Layer::Executions => "executions.rows",
            Layer::Runs => "runs.rows",
            Layer::Reports => "reports.rows",
            Layer::Limits => "limits.rows",
            Layer::Compiled => "compiled.rows",
            Layer::Lines => "lines.rows",
            Layer::Faults => "faults.rows",
            Layer::Explained => "explained.rows",
            Layer::Exported => "exported.rows",
            Layer::Called => "called.rows",
            Layer::Verified => "verified.rows",
            Layer::Certified => "certified.rows",
        }
    }

    fn run(&self, case: &Case, out: &mut String) -> Result<(), Fault> {
        match self {
            Layer::Environments => environments::run(case, out),
            Layer::Jobs
            | Layer::Executions
            | Layer::Runs
            | Layer::Reports
            | Layer::Limits
            | Layer::Compiled
            | Layer::Explained
            | Layer::Exported
            | Layer::Called
            | Layer::Verified
            | Layer::Certified => { jobs::run(case, out) }
            Layer::Lines => lines::run(case, out),
            Layer::Faults => faults::run(case, out),
        }
    }
}

fn main(rt: HostRuntime) -> io::Result<()> {
    run_tables(
        &rt,
        &[
            Layer::Environments,
            Layer::Jobs,
            Layer::Executions,
            Layer::Runs,
            Layer::Reports,
            Layer::Limits,
            Layer::Compiled,
            Layer::Lines,
            Layer::Faults,
            Layer::Explained,
            Layer::Exported,
            Layer::Called,
            Layer::Verified,
            Layer::Certified,
        ],
    )
}

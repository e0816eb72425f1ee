//! The rows of the rules: what they stand on, what they form, how they reduce and compare, with what the calls are to answer.
//! `row_files` has the format of rows, `row_terms` that of their terms.
//!
//! Environments are kept unchecked, so that open and ill-typed terms can stand in rows; but for comparison and `whnf kept`, which ask for what
//! is checked.
//!
//! | Table | Calls |
//! |---|---|
//! | `rules` | `meter` (`units:`, `tick:`, `note:`, `uses:`, `enter:`, `leave:`), `context`, `long context` (`times:`), `keep`, `heads` (`number:`), `positive` (`units:`; the last declaration is tested, over those before it) |
//! | `forms` | `ind_type`, `pred_entries`, `construct_type`, `branch_entries` (`parameter:`), `branch_type` (`branch:`), `pred_at` (`index:`, `scrutinee:`), `fix_unfold` (`definition:`) |
//! | `reductions` | `whnf`, `whnf nested` (`times:`), `whnf kept` (in the environment, checked), with `units:`; by substitution and by closures |
//! | `evaluations` | `eval` (`units:`), `data` (`value:`, `type:`), `data doubled` (`doublings:`) |
//! | `conversions` | `below`, `equal` (`other:`), `below doubled`, `equal doubled` (`doublings:`), each with `units:`, `products:` and `entered:` |
#![tactic(auto)]

mod contexts;
mod conversions;
mod evaluations;
mod forms;
mod keeping;
mod known;
mod metering;
mod positivity;
mod products;
mod reductions;
mod unchecked;

use row_files::{Case, Fault, Table, run_tables};
use row_terms::Opened;
use std::io;

/// The layers, each with a table.
#[derive(Clone, Copy)]
enum Layer {
    Rules,
    Forms,
    Reductions,
    Conversions,
    Evaluations,
}

/// Runs a row of contexts or of environments.
fn run_opened(case: &Case, opened: &Opened, out: &mut String) -> Result<(), Fault> {
    match case.row.given("call")? {
        "context" => contexts::run_context(case, opened, out),
        "long context" => contexts::run_long_context(case, opened, out),
        "keep" => keeping::run_keep(case, opened, out),
        "heads" => keeping::run_heads(case, opened, out),
        "positive" => positivity::run_positive(case, opened, out),
        _ => Err(Fault::Faulty("no such call")),
    }
}

/// Reads a row of contexts or of environments, and runs it.
fn run_with_terms(case: &Case, out: &mut String) -> Result<(), Fault> {
    let opened = Opened::of(case)?;
    run_opened(case, &opened, out)
}

/// Runs a row of the layer below the rules.
fn run_rules(case: &Case, out: &mut String) -> Result<(), Fault> {
    match case.row.given("call")? {
        "meter" => metering::run_meter(case, out),
        _ => run_with_terms(case, out),
    }
}

impl Table for Layer {
    fn file(&self) -> &str {
        match self {
            Layer::Rules => "rules.rows",
            Layer::Forms => "forms.rows",
            Layer::Reductions => "reductions.rows",
            Layer::Conversions => "conversions.rows",
            Layer::Evaluations => "evaluations.rows",
        }
    }

    fn run(&self, case: &Case, out: &mut String) -> Result<(), Fault> {
        match self {
            Layer::Rules => run_rules(case, out),
            Layer::Forms => forms::run(case, out),
            Layer::Reductions => reductions::run(case, out),
            Layer::Conversions => conversions::run(case, out),
            Layer::Evaluations => evaluations::run(case, out),
        }
    }
}

fn main(rt: HostRuntime) -> io::Result<()> {
    run_tables(
        &rt,
        &[
            Layer::Rules,
            Layer::Forms,
            Layer::Reductions,
            Layer::Conversions,
            Layer::Evaluations,
        ],
    )
}

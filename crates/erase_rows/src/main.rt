//! The rows of erasure: the test of erasable terms, programs that environments are erased to, and the passes on these. `row_files` has the format of rows.
//!
//! | Table | Calls |
//! |---|---|
//! | `erasures` | `test` of main in the empty context, `erase`; each in the row's environment, checked, with `units:`, then the units that are left are told |
//! | `passes` | `prop_match` of what the row's environment is erased to; `saturate` of what `prop_match` gives; `inline` of what `saturate` then gives |
#![tactic(auto)]

mod erasures;
mod passes;
mod told;

use row_files::{Case, Fault, Table, run_tables};
use std::io;

/// The layers, each with a table.
#[derive(Clone, Copy)]
enum Layer {
    Erasures,
    Passes,
}

impl Table for Layer {
    fn file(&self) -> &str {
        match self {
            Layer::Erasures => "erasures.rows",
            Layer::Passes => "passes.rows",
        }
    }

    fn run(&self, case: &Case, out: &mut String) -> Result<(), Fault> {
        match self {
            Layer::Erasures => erasures::run(case, out),
            Layer::Passes => passes::run(case, out),
        }
    }
}

fn main(rt: HostRuntime) -> io::Result<()> {
    run_tables(&rt, &[Layer::Erasures, Layer::Passes])
}

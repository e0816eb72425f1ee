//! The rows of the passes to closures and to modules. `row_files` has the format of rows.
//!
//! | Table | Calls |
//! |---|---|
//! | `closures` | `to_anf`, `lift_program`, of what the row's environment is erased to, without matches on proofs, and saturated |
//! | | `lift_nest`: the sizes of what a nest of `lambdas:` lambdas is lifted to; `lift_functions`: so of constants that are functions, `count:` of both in all |
//! | `modules` | `compile`, of what the row's environment is erased to, with `pages:`: the size of the module, and a run of at most `steps:` steps (1,000,000 where it isn't told), with the most frames that stood at once; `bytes`, the module's bytes |
//! | | `compile_call`, of the same, whose main takes `count:` arguments: the call `calls` makes one module, and runs it in a new machine for each line `arguments:`, natural numbers, with the data that it answers |
//!
//! A program is printed one item a line, what stands inside indented. A variable is named by how many others are around it: `x0` is the
//! outermost. What a block binds stands before its tail, as `x2 = App(x1, x0)`; a binding's variable is in scope only below. A fixpoint names its
//! definitions, and which of them it is.
#![tactic(auto)]

mod anf;
mod calls;
mod closures;
mod erasing;
mod items;
mod lifted;
mod made;
mod modules;

use row_files::{Case, Fault, Table, run_tables};
use std::io;

/// The layers, each with a table.
#[derive(Clone, Copy)]
enum Layer {
    Closures,
    Modules,
}

impl Table for Layer {
    fn file(&self) -> &str {
        match self {
            Layer::Closures => "closures.rows",
            Layer::Modules => "modules.rows",
        }
    }

    fn run(&self, case: &Case, out: &mut String) -> Result<(), Fault> {
        match self {
            Layer::Closures => closures::run(case, out),
            Layer::Modules => modules::run(case, out),
        }
    }
}

fn main(rt: HostRuntime) -> io::Result<()> {
    run_tables(&rt, &[Layer::Closures, Layer::Modules])
}

//! The rows of texts and terms: the calls of these layers, with what they are to answer. `row_files` has the format of rows.
//!
//! | Table | Calls |
//! |---|---|
//! | `texts` | `parse`, `parse each prefix`, `read`, `print` (`most:`, `failing write:`), `lists` |
//! | `calls` | `read_call`, `read_args` (`set:` for each argument, the types of its set with `;` between them, each with its constructors as `NAME/PLACE/PLACE`; `from:`), `read_call, read_args` |
//! | `certificates` | `read certificate` (`from:`, `most:`, `failing write:`) |
//! | `terms` | `lift` (`by:`, `from:`), `subst` (`at:`), `subst_list`, `subst_list_at` (`at:`), `apply`, `measures`, `same`, `doubled`, `put in again` (`times:`), `lists` |
#![tactic(auto)]

mod again;
mod calls;
mod certificates;
mod lists;
mod printing;
mod terms;
mod texts;

use row_files::{Case, Fault, Table, run_tables};
use std::io;

/// The layers, each with a table.
#[derive(Clone, Copy)]
enum Layer {
    Texts,
    Calls,
    Certificates,
    Terms,
}

impl Table for Layer {
    fn file(&self) -> &str {
        match self {
            Layer::Texts => "texts.rows",
            Layer::Calls => "calls.rows",
            Layer::Certificates => "certificates.rows",
            Layer::Terms => "terms.rows",
        }
    }

    fn run(&self, case: &Case, out: &mut String) -> Result<(), Fault> {
        match self {
            Layer::Texts => texts::run(case, out),
            Layer::Calls => calls::run(case, out),
            Layer::Certificates => certificates::run(case, out),
            Layer::Terms => terms::run(case, out),
        }
    }
}

fn main(rt: HostRuntime) -> io::Result<()> {
    run_tables(
        &rt,
        &[
            Layer::Texts,
            Layer::Calls,
            Layer::Certificates,
            Layer::Terms,
        ],
    )
}

//! Reports: objects that are told the facts of a check and of a run, and count those that they want.
//!
//! A `Fact` is a declaration that was kept, an axiom that was kept, one use of a typing rule, a step of a run with its class, or a grow of a run's memory
//! that wasn't refused. A `Report` has a name, a count and a set of facts that it wants; `see` adds one to its count for each fact of that set, up to the
//! last value of u64, and changes nothing else that it shows; `see_times` is so many calls of `see`, and `tell` tells a whole list of reports (`told`). A box of a report is a report.
//! Whoever calls `serve` hands reports in as boxes, which may be of any type that keeps this contract; `DeclReport`, `AxiomReport`, `RuleReport`,
//! `StepReport` and `GrowReport` are the kinds of the program, with the names 1 to 5, and `ClassReport` counts the steps of one class.
//!
//! None of these calls takes memory. Only std stands below; `wasm_run` tells the facts of a run, `driver` those of a check.
#![tactic(auto)]

mod boxed;
mod fact;
mod kinds;
mod report;
mod telling;

pub use fact::Fact;
pub use kinds::{AxiomReport, ClassReport, DeclReport, GrowReport, RuleReport, StepReport};
pub use report::Report;
pub use telling::tell;

//! A machine that runs modules (WebAssembly Core Specification, chapter 4): a plain interpreter with a budget of steps and a bound on pages.
//!
//! `Machine::new` makes a machine at the start of a run of `main` in a valid module, or says what stands against it (`makes`). `Machine::run` makes the steps
//! of the definition of execution, at most as many as it is given, and says how the run ended or that its steps are spent (`says`); memory grows up to the
//! smaller of the machine's bound and the module's maximum. `Machine::run_told` does the same, and tells each report of a list the facts of exactly these steps: each with its
//! class, and each grow of memory that wasn't refused (`told`). `result`, `status`, `pages`, `memory`, `steps` and `frames` show its state (`is`), `peak` the most
//! frames that stood at once in its steps (`HasPeak`, `peaks_are_one`). A run of a valid
//! module is never stuck, so a step has no answer of its own for that.
//!
//! A machine is a frame that runs, with those that wait for it (`frame`, `thread`), and a module that is made ready once (`program`): its table is filled, and
//! for each place of a body the end and the second arm of the innermost open block are found (`targets`), so that a branch takes constant time.
//! One step is `run_step` (`exec`, `tail_calls`, and `inside` for what touches the frame alone); what steps tell is counted (`tally`), so that no memory grows with them. `wasm_core` stands below with all
//! definitions and their laws but for what is told (`ToldSteps`, `ToldRuns`), and `reports` with what it is told to; `mem_value` reads the answer's data above it, and `module_run` runs modules.
#![tactic(auto)]

mod entries;
mod exec;
mod frame;
mod hosting;
mod inside;
mod laws;
mod machine;
mod memory;
mod numeric;
mod program;
mod tail_calls;
mod tally;
mod targets;
mod thread;

pub use laws::peaks_are_one;
pub use machine::Machine;
pub use memory::load;

//! The answer of a module: one that is handed in is written, read back, checked and run, one that is given as bytes is read, checked and run, and its result is read as data.
//!
//! `answer_of` says exactly how that ends for a module that is handed in (`says`): the data that the machine's run of `main` answers, with the module's bytes and the run's steps and pages, or why there is none. `one_end`
//! says that this is determined but for want of memory; `returned` and `answered` are its last two steps, for a machine that is there; `ends_answer` says what it is where every run of the module answers the same
//! data or is exhausted. `answer_of_file` says exactly how it ends for a module that is given as bytes (`says`): the data, or the first stage that refuses with its cause: the bytes spell no module, the module has no
//! typing, no machine is made of it, its run gives no data. `one_file_end` says that this is determined but for want of memory (`one`).
//!
//! `answer_of_call` calls `main` with arguments that are stored before the run, and says exactly how that ends (`says`).
//!
//! Each of these that runs a module tells reports the facts of the run, where there is an answer: each step with its class, each grow of memory that wasn't refused (`told`).
//!
//! Below stand the crates of modules, from `wasm_core` to `mem_value`, and `reports`; above stands `driver`.
#![tactic(auto)]

mod answer;
mod answering;
mod call_answering;
mod file_answering;
mod file_refusal;
mod refusal;

ghost use Rattle.module_run.specs.EndLaws.{EndIsOne, EndsAnswer};
ghost use Rattle.module_run.specs.FileLaws.{FileEndIsOne};

pub use answer::{Answer, Measured};
pub use answering::{answer_of, answered, returned};
pub use call_answering::answer_of_call;
pub use file_answering::answer_of_file;
pub use file_refusal::FileRefusal;
pub use refusal::RunRefusal;

/// How a module's answer ends is determined, but for want of memory.
pub fn one_end()
    ensures one { EndIsOne }
{}

/// How the answer of a module that is given as bytes ends is determined, but for want of memory.
pub fn one_file_end()
    ensures one { FileEndIsOne }
{}

/// Where every run of a valid module that can go no further answers the data or is exhausted, the answer is that data, or one of the refusals by size, steps or
/// memory.
pub fn ends_answer()
    ensures answers { EndsAnswer }
{}

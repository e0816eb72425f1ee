//! Why a module has no answer.

use wasm_core::TrapKind;

/// Why a module has no answer.
#[derive(Clone, Copy, Debug, PartialEq, Eq)]
pub enum RunRefusal {
    /// Its shortest bytes pass 16 MiB (16,777,216 bytes).
    ModuleBytes,
    /// The run trapped with the status 1, which tells of a refused grow.
    Exhausted,
    /// The run hadn't ended after the most steps.
    StepsSpent,
    /// The run trapped with another status.
    Trapped { kind: TrapKind },
    /// The word in `result` stands for no data.
    NoValue { word: u32 },
    /// The data has over 4,000,000 nodes.
    AnswerNodes,
    /// There was no memory.
    Memory,
}

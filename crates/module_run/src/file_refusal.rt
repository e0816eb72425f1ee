//! Why a module that is given as bytes has no answer.

use wasm_core::{Entry, TrapKind};

/// Why a module that is given as bytes has no answer. Offsets are bytes from the start of the file.
#[derive(Clone, Copy, Debug, PartialEq, Eq)]
pub enum FileRefusal {
    /// The bytes spell no module: the first item without a spelling in its place begins at the offset.
    Bad { offset: usize },
    /// The module has no typing, and first fails at this place of this function, or outside the bodies (function 4,294,967,295) in the section of this id.
    Invalid { func: u32, place: u32 },
    /// An entry is no export of the module, or one of another type; the first such entry is named.
    NoEntry { entry: Entry },
    /// The module's least pages of memory pass the bound.
    Pages,
    /// The module's table has over 65,536 entries.
    Table,
    /// An element segment doesn't fit the table.
    ElementPastTable,
    /// The run trapped with the value 1 in `status`.
    Exhausted,
    /// The run hadn't ended after the most steps.
    StepsSpent,
    /// The run trapped with another value in `status`.
    Trapped { kind: TrapKind },
    /// The word in `result` stands for no data.
    NoValue { word: u32 },
    /// The data has over 4,000,000 nodes.
    AnswerNodes,
    /// There was no memory.
    Memory,
}

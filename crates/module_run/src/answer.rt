//! What a module answers, and the figures of its run.

use data_trees::Data;

/// What a module answers: the word in `result`, and the data that it stands for, as a tree in preorder of constructor numbers with their counts of arguments.
#[derive(Drop)]
pub struct Answer {
    pub word: u32,
    pub tree: Data,
}

/// An answer, with the figures of the run that gave it.
#[derive(Drop)]
pub struct Measured {
    pub answer: Answer,
    /// The length of the module's shortest bytes.
    pub bytes: u64,
    /// The steps of the run.
    pub steps: u64,
    /// The pages of memory at its end, of 65,536 bytes each.
    pub pages: u32,
}

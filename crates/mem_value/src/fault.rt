//! Why a machine has no answer.

/// Why no data is read from a machine: the word in `result` stands for none, the data has over 4,000,000 nodes, or there was no memory.
#[derive(Clone, Copy, PartialEq, Eq, Debug)]
pub enum AnswerFault {
    NotAValue { word: u32 },
    AnswerNodes,
    Memory,
}

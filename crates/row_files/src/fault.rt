//! Why a row gives no answer.
use std::alloc::{AllocError, AllocFailed};

/// Why a row gives no answer: it is no row, or there was no memory.
#[derive(Clone, Copy, Debug, PartialEq, Eq)]
pub enum Fault {
    Memory,
    /// What is wrong with the row.
    Faulty(&'static str),
}

impl From<AllocError> for Fault {
    fn from(_e: AllocError) -> Fault {
        Fault::Memory
    }
}

impl<T: Drop> From<AllocFailed<T>> for Fault {
    fn from(_e: AllocFailed<T>) -> Fault {
        Fault::Memory
    }
}

//! What a comparison asks for.

/// Whether two terms are to be equal, or the left one below the right one (PCUIC, POPL 2020: conversion and cumulativity).
#[derive(Clone, Copy, Debug, PartialEq, Eq)]
pub enum Mode {
    /// Conversion.
    Equal,
    /// Cumulativity: a universe may be below another.
    Below,
}

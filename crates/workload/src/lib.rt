//! The programs that measurements are made with: a text for each number.
//!
//! The text of the number n declares the booleans, `negb`, `andb` and `xorb`, the constant `c0`, whose body is `true`, and `c1` to `cn`: each names
//! the constant before it once, as `negb p`, `andb true p` or `xorb p true`. Which one it is follows a sequence of pseudo-random numbers that
//! starts with n. Main is `cn`. The format is that of `docs/DUMP_FORMAT.md`.
//!
//! `make` gives exactly the text that `specs/WorkloadText.antt` defines (`is`), and has no refusal but want of memory.
//!
//! Only std and the kit's `itoa` and `thiserror` stand below.
#![tactic(auto)]

mod fault;
mod text;

pub use fault::MakeTextFault;
pub use text::make;

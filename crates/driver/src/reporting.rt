//! Lines on err that are written part by part, and those of reports that are told the facts of a check.
//!
//! `Facts` says how many facts of each kind a check has. `tell_check` tells them to each report, declarations first, then axioms, then the uses of the rules by rising number (`told`); those of a run
//! its machine tells. `write_lines` writes a line for each report, with its name and its count, up to the sink's first fault (`line`). `write_parts` writes any line in five parts, as a
//! refusal's. None of these calls takes memory.

mod facts;
mod lines;
mod parts;
mod telling;

pub use facts::Facts;
pub(crate) use lines::write_lines;
pub use parts::write_parts;
pub(crate) use telling::tell_check;

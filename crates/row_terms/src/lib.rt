//! Rows with terms: the environment of a row as it is read, the row's terms in its names and levels, terms and broken
//! rules as text, and calls that stop.
//!
//! Terms stand in lines `term:`, `argument:`, `other:`, `parameter:`, `index:`, `scrutinee:`, and in the entries of a context, the outermost first:
//! `assumed:` with a type, or `value:` with `type:` behind it. They are written as in a dump, with the names and levels of the environment.
//!
//! What is promised: an environment that is read is one that a text spells (`spelled` of `read`); else that each call is safe and returns. Below
//! stand `row_files`, `dump_reader`, `pc_terms` and `pc_rules`; above stand the programs of rows.
#![tactic(auto)]

mod broken;
mod opened;
mod reading;
mod shown;
mod sorts;
mod stops;

pub use broken::put_broken;
pub use opened::{Opened, is_term};
pub use reading::{made, read};
pub use shown::put_term;
pub use sorts::{put_family, put_level, put_name, put_sort};
pub use stops::{done, put_stop};

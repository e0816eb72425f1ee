//! Rows: cases of calls, as data, which a program reads, runs and tells what came of.
//!
//! A table is a file of rows. A row is a block of lines `KEY: VALUE`, with a blank line between two rows; a line that begins with `#` is a
//! remark. Each row has a line `case:`, what it shows in words, and a line `call:`, the call that is made; its other lines are what the call
//! takes. A program prints what came behind the case, and its `stdout` has what is wanted: it is worked out by hand from the rules, the grammar
//! and the lists of statuses, not taken from a run.
//!
//! In a value that is a text, braces stand for what is long or can't be seen: `{N|PIECE}` is so many pieces, `{0xNN}` the byte of that number,
//! and `{NAME}` the text that `named.rows` has by that name. Several lines with one key are one value, with blanks between them.
//!
//! An environment is the value of `text:`, or is put together of `levels:`, `constraints:`, `declarations:` and `main:`.
//!
//! `run_tables` runs the rows of tables (`Table`); a call takes what it needs from its `Case`. Nothing is promised but that each call is safe and
//! returns. Only std stands below; above stand `row_terms` and the programs of rows.
#![tactic(auto)]

mod case;
mod fault;
mod named;
mod row;
mod table;

pub use case::{Case, put_bytes};
pub use fault::Fault;
pub use named::Named;
pub use row::{Field, Row, rows_of};
pub use table::{Table, run_tables};

//! Running the rows of tables.
use crate::case::Case;
use crate::fault::Fault;
use crate::named::Named;
use crate::row::{Row, rows_of};
use std::alloc::Global;
use std::rt::Files;
use std::{fs, io};

/// A table of rows.
pub trait Table {
    /// The name of its file.
    fn file(&self) -> &str;

    /// Makes the call of a row, and puts what came at the end.
    fn run(&self, case: &Case, out: &mut String) -> Result<(), Fault>;
}

/// What came of a row: the case in words, and what the call answered.
fn told<T: Table>(alloc: Global, table: &T, named: &Named, row: &Row) -> Result<String, Fault> {
    let mut out = String::from_str(alloc, row.given("case")?)?;
    out.push_str("\n  ")?;
    let case = Case { alloc, named, row };
    match table.run(&case, &mut out) {
        Err(Fault::Faulty(why)) => write!(out, "faulty row: {why}")?,
        Err(fault) => return Err(fault),
        Ok(()) => {}
    }
    Ok(out)
}

/// Prints what came of a row.
fn print_told<R: Print + AllocGlobal>(rt: &R, told: Result<String, Fault>) -> io::Result<()> {
    match told {
        Ok(out) => println!(rt; "{out}"),
        Err(Fault::Memory) => println!(rt; "out of memory"),
        Err(Fault::Faulty(why)) => println!(rt; "faulty row: {why}"),
    }
}

/// Runs the rows of a table, and prints what came of each.
fn run_table<R: Files + Print + AllocGlobal, T: Table>(
    rt: &R,
    table: &T,
    named: &Named,
) -> io::Result<()> {
    let alloc = rt.alloc();
    let file = table.file();
    println!(rt; "== {file}")?;
    let text = fs::read_to_string(rt, file)?;
    for row in &rows_of(alloc, text.as_str())? {
        if !row.fields().is_empty() {
            print_told(rt, told(alloc, table, named, row))?;
        }
    }
    Ok(())
}

/// Runs the rows of tables, with the texts of `named.rows` by their names, and prints what came of each.
pub fn run_tables<R: Files + Print + AllocGlobal, T: Table>(
    rt: &R,
    tables: &[T],
) -> io::Result<()> {
    let text = fs::read_to_string(rt, "named.rows")?;
    let Ok(named) = Named::of(rt.alloc(), text.as_str()) else {
        return println!(rt; "named.rows is faulty");
    };
    for table in tables {
        run_table(rt, table, &named)?;
    }
    Ok(())
}

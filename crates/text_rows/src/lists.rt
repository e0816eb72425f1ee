//! The list types of texts and terms: what they give back.
use dump_reader::declaration::{RawCtors, RawDecls, RawFamilies};
use dump_reader::environment::{Constraints, Levels};
use pc_terms::lists::{Numbers, Telescope};
use pc_terms::term::{Branch, Branches, Def, Defs, MakeFault, Term, Terms};
use row_files::Fault;
use row_terms::made;
use std::alloc::{AllocError, Global};

/// Whether the lists of an environment are empty that are made of the vectors of empty ones.
pub fn put_text_lists(alloc: Global, out: &mut String) -> Result<(), AllocError> {
    let ctors = RawCtors::of(RawCtors::new(alloc).into_vec()).is_empty();
    let families = RawFamilies::of(RawFamilies::new(alloc).into_vec()).is_empty();
    let decls = RawDecls::of(RawDecls::new(alloc).into_vec()).is_empty();
    let levels = Levels::of(Levels::new(alloc).into_vec()).is_empty();
    let constraints = Constraints::of(Constraints::new(alloc).into_vec()).is_empty();
    write!(
        out,
        "empty: constructors {ctors}, families {families}, declarations {decls}, levels {levels}, constraints {constraints}"
    )
}

/// What lists of numbers, terms, branches and definitions give back.
pub fn put_term_lists(alloc: Global, out: &mut String, term: &Term) -> Result<(), Fault> {
    put_numbers(alloc, out)?;
    put_telescope(alloc, out, term)?;
    put_branches(alloc, out, term)?;
    put_defs(alloc, out, term)
}

/// The list of 4 and 9.
fn two_numbers(alloc: Global) -> Result<Numbers, MakeFault> {
    let mut numbers = Numbers::of(Vec::new(alloc));
    numbers.push(4)?;
    numbers.push(9)?;
    Ok(numbers)
}

fn put_numbers(alloc: Global, out: &mut String) -> Result<(), Fault> {
    let empty = Numbers::new(alloc).is_empty();
    let mut numbers = made(two_numbers(alloc))?;
    let length = numbers.len();
    let last = numbers.pop();
    write!(out, "numbers: empty {empty}, then {length}, last {last:?}")?;
    let left = numbers.into_vec();
    write!(out, ", left {left:?}")?;
    Ok(())
}

/// The list of a term.
fn one_type(alloc: Global, term: &Term) -> Result<Telescope, MakeFault> {
    let mut telescope = Telescope::new(alloc);
    telescope.push(term.share()?)?;
    Ok(telescope)
}

fn put_telescope(alloc: Global, out: &mut String, term: &Term) -> Result<(), Fault> {
    let telescope = made(one_type(alloc, term))?;
    let types = Terms::of(telescope.into_vec());
    let length = types.as_slice().len();
    let mut telescope = Telescope::of(types.into_vec());
    let is_last = telescope.pop().is_some_and(|last| last.same(term));
    let empty = telescope.is_empty();
    write!(
        out,
        "\n  types: {length}, last is the term: {is_last}, then empty {empty}"
    )?;
    Ok(())
}

/// The binders of the last of some branches.
fn last_binders(branches: &mut Branches) -> u32 {
    match branches.pop() {
        Some(last) => last.binders,
        None => u32::MAX,
    }
}

fn put_branches(alloc: Global, out: &mut String, term: &Term) -> Result<(), Fault> {
    let mut branches = Branches::of(Branches::new(alloc).into_vec());
    let empty = branches.is_empty();
    let body = made(term.share())?;
    made(branches.push(Branch { binders: 2, body }))?;
    let binders = last_binders(&mut branches);
    let then = branches.is_empty();
    write!(
        out,
        "\n  branches: empty {empty}, last under {binders}, then empty {then}"
    )?;
    Ok(())
}

/// A definition whose type and body are a term, on its argument 5.
fn definition(term: &Term) -> Result<Def, MakeFault> {
    Ok(Def {
        ty: term.share()?,
        body: term.share()?,
        rarg: 5,
    })
}

/// The recursive argument of the last of some definitions.
fn last_argument(defs: &mut Defs) -> u32 {
    match defs.pop() {
        Some(last) => last.rarg,
        None => u32::MAX,
    }
}

fn put_defs(alloc: Global, out: &mut String, term: &Term) -> Result<(), Fault> {
    let mut defs = Defs::of(Defs::new(alloc).into_vec());
    let empty = defs.is_empty();
    let def = made(definition(term))?;
    made(defs.push(def))?;
    let rarg = last_argument(&mut defs);
    let then = defs.is_empty();
    write!(
        out,
        "\n  definitions: empty {empty}, last on argument {rarg}, then empty {then}"
    )?;
    Ok(())
}

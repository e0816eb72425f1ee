//! Terms that are made of a term again and again: `doubled` and `put in again`.
use pc_terms::term::{MakeFault, Node, Term, Terms};
use row_files::{Case, Fault};
use row_terms::{Opened, made};
use std::alloc::Global;

/// A term applied to itself, so many times over: both sides are one node, so the tree doubles each time.
fn doubled(alloc: Global, term: &Term, times: u64) -> Result<Term, MakeFault> {
    let mut whole = term.share()?;
    for _ in 0..times {
        whole = Term::make(alloc, Node::App(whole.share()?, whole))?;
    }
    Ok(whole)
}

/// Doubles `term` `times` times, and looks whether two more doublings of it are the same: no walk over so many leaves would come to an end.
pub fn run_doubled(case: &Case, term: &Term, out: &mut String) -> Result<(), Fault> {
    let times = case.row.number("times", 0)?;
    let term = made(doubled(case.alloc, term, times))?;
    let one = made(doubled(case.alloc, &term, 1))?;
    let other = made(doubled(case.alloc, &term, 1))?;
    let (equal, itself, half) = (one.same(&other), one.same(&one), one.same(&term));
    let depth = one.depth();
    write!(
        out,
        "depth {depth}, same as another: {equal}, as itself: {itself}, as its half: {half}"
    )?;
    Ok(())
}

/// The list of a value.
fn one(alloc: Global, value: &Term) -> Result<Terms, MakeFault> {
    let mut values = Terms::new(alloc);
    values.push(value.share()?)?;
    Ok(values)
}

/// Puts a value into `term`, by `subst` and by `subst_list`: none unless both give the value applied to itself, and a lift by 0 the value.
fn put_in(alloc: Global, term: &Term, value: &Term) -> Result<Option<Term>, MakeFault> {
    let twice = doubled(alloc, value, 1)?;
    let listed = term.subst_list(alloc, &one(alloc, value)?)?;
    let put = term.subst(alloc, 0, value)?;
    let lifted = value.lift(alloc, 0, 0)?;
    let is_same = listed.same(&twice) && put.same(&twice) && lifted.same(value);
    Ok(if is_same { Some(put) } else { None })
}

/// Puts a value into `term` for the variable 0, what comes into it again, and so on, so many times; none where it isn't the value applied to itself.
fn put_in_again(
    alloc: Global,
    term: &Term,
    value: &Term,
    times: u64,
) -> Result<Option<Term>, MakeFault> {
    let mut value = value.share()?;
    for _ in 0..times {
        match put_in(alloc, term, &value)? {
            Some(next) => value = next,
            None => return Ok(None),
        }
    }
    Ok(Some(value))
}

/// Puts `argument` into `term` for the variable 0, what comes into it again, and so on, `times` times.
pub fn run_put_in_again(
    case: &Case,
    opened: &Opened,
    term: &Term,
    out: &mut String,
) -> Result<(), Fault> {
    let value = opened.term(case, "argument")?;
    let times = case.row.number("times", 0)?;
    match made(put_in_again(case.alloc, term, value, times))? {
        Some(value) => {
            let (depth, loose) = (value.depth(), value.loose());
            write!(out, "depth {depth}, loose {loose}")?;
        }
        None => out.push_str("not the value applied to itself")?,
    }
    Ok(())
}

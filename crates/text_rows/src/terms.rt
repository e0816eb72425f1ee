//! The layer of terms: `lift`, `subst`, `subst_list`, `subst_list_at`, `apply`, `measures` and `same`.
use crate::again::{run_doubled, run_put_in_again};
use crate::lists::put_term_lists;
use pc_terms::term::{MakeFault, Term};
use row_files::{Case, Fault};
use row_terms::{Opened, made, put_term};
use std::alloc::{AllocError, Global};

/// Runs a row of the layer.
pub fn run(case: &Case, out: &mut String) -> Result<(), Fault> {
    let opened = Opened::of(case)?;
    run_opened(case, &opened, out)
}

/// Makes the call of a row on its `term`.
fn run_opened(case: &Case, opened: &Opened, out: &mut String) -> Result<(), Fault> {
    let term = opened.term(case, "term")?;
    match case.row.given("call")? {
        "lift" => run_lift(case, opened, term, out),
        "subst" => run_subst(case, opened, term, out),
        "subst_list" => run_subst_list(case, opened, term, out),
        "subst_list_at" => run_subst_list_at(case, opened, term, out),
        "apply" => run_apply(case, opened, term, out),
        "measures" => run_measures(term, out),
        "same" => run_same(case, opened, term, out),
        "doubled" => run_doubled(case, term, out),
        "put in again" => run_put_in_again(case, opened, term, out),
        "lists" => put_term_lists(case.alloc, out, term),
        _ => Err(Fault::Faulty("no such call")),
    }
}

/// A term, with its depth alone where that is over 100.
fn put_short(out: &mut String, opened: &Opened, term: &Term) -> Result<(), AllocError> {
    let (depth, loose) = (term.depth(), term.loose());
    if depth > 100 {
        return write!(out, "a term of depth {depth}, loose {loose}");
    }
    put_term(out, &opened.raw, term)
}

/// Why a term was not made.
fn put_fault(out: &mut String, fault: MakeFault) -> Result<(), AllocError> {
    out.push_str(match fault {
        MakeFault::TooDeep => "too deep",
        MakeFault::Memory => "out of memory",
    })
}

/// A term that was made, or why it was not made.
fn put_made(
    out: &mut String,
    opened: &Opened,
    made: Result<Term, MakeFault>,
) -> Result<(), AllocError> {
    match made {
        Ok(term) => put_short(out, opened, &term),
        Err(fault) => put_fault(out, fault),
    }
}

/// Whether a lifted term is the term, and whether it is given back where the value is put in for the variable 0.
fn put_back(
    alloc: Global,
    out: &mut String,
    lifted: &Term,
    value: &Term,
    term: &Term,
) -> Result<(), Fault> {
    let back = made(lifted.subst(alloc, 0, value))?;
    let (is_same, is_back) = (lifted.same(term), back.same(term));
    write!(
        out,
        "the same: {is_same}, given back by a substitution: {is_back}, "
    )?;
    Ok(())
}

/// Lifts `term` by `by` from the variable `from` on; with `argument`, the result's variable 0 is then replaced by it, and tells whether that gives
/// the term back.
fn run_lift(case: &Case, opened: &Opened, term: &Term, out: &mut String) -> Result<(), Fault> {
    let lifted = term.lift(case.alloc, case.row.index("by")?, case.row.index("from")?);
    if case.row.value("argument").is_some()
        && let Ok(lifted) = &lifted
    {
        let value = opened.term(case, "argument")?;
        put_back(case.alloc, out, lifted, value, term)?;
    }
    Ok(put_made(out, opened, lifted)?)
}

/// Puts `argument` into `term` for the variable `at`.
fn run_subst(case: &Case, opened: &Opened, term: &Term, out: &mut String) -> Result<(), Fault> {
    let argument = opened.term(case, "argument")?;
    let made = term.subst(case.alloc, case.row.index("at")?, argument);
    Ok(put_made(out, opened, made)?)
}

/// Puts the arguments into `term`, the last one for the variable 0.
fn run_subst_list(
    case: &Case,
    opened: &Opened,
    term: &Term,
    out: &mut String,
) -> Result<(), Fault> {
    let arguments = opened.terms(case, "argument")?;
    let made = term.subst_list(case.alloc, &arguments);
    Ok(put_made(out, opened, made)?)
}

/// Puts the arguments into `term`, the last one for the variable `at`.
fn run_subst_list_at(
    case: &Case,
    opened: &Opened,
    term: &Term,
    out: &mut String,
) -> Result<(), Fault> {
    let arguments = opened.terms(case, "argument")?;
    let made = term.subst_list_at(case.alloc, case.row.index("at")?, &arguments);
    Ok(put_made(out, opened, made)?)
}

/// Terms, with a blank before each.
fn put_each(out: &mut String, opened: &Opened, terms: &[Term]) -> Result<(), AllocError> {
    for term in terms {
        out.push_str(" ")?;
        put_term(out, &opened.raw, term)?;
    }
    Ok(())
}

/// The head of a term, and the arguments that it is applied to.
fn put_spine(alloc: Global, out: &mut String, opened: &Opened, term: &Term) -> Result<(), Fault> {
    let (head, arguments) = made(term.spine(alloc))?;
    out.push_str("\n  head ")?;
    put_term(out, &opened.raw, &head)?;
    out.push_str(", arguments")?;
    Ok(put_each(out, opened, arguments.as_slice())?)
}

/// Applies `term` to the arguments, and takes the application apart.
fn run_apply(case: &Case, opened: &Opened, term: &Term, out: &mut String) -> Result<(), Fault> {
    let arguments = opened.terms(case, "argument")?;
    match term.apply(case.alloc, &arguments) {
        Ok(applied) => {
            put_term(out, &opened.raw, &applied)?;
            put_spine(case.alloc, out, opened, &applied)
        }
        Err(fault) => Ok(put_fault(out, fault)?),
    }
}

/// The depth and the loose bound of `term`, and whether what shares its node is the same.
fn run_measures(term: &Term, out: &mut String) -> Result<(), Fault> {
    let is_same = made(term.share())?.same(term);
    let (depth, loose) = (term.depth(), term.loose());
    write!(
        out,
        "depth {depth}, loose {loose}, shared the same: {is_same}"
    )?;
    Ok(())
}

/// Whether `term` is the same as `other`.
fn run_same(case: &Case, opened: &Opened, term: &Term, out: &mut String) -> Result<(), Fault> {
    let is_same = term.same(opened.term(case, "other")?);
    write!(out, "{is_same}")?;
    Ok(())
}

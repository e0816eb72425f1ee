//! The layer of reduction: `whnf` by both reducers, in an environment that is not checked, and in one that is kept.
use crate::contexts::context;
use crate::conversions::checked;
use crate::unchecked::unchecked;
use pc_rules::environment::Env;
use pc_rules::meter::Meter;
use pc_rules::reducer::Reducer;
use pc_rules::stop::Stop;
use pc_terms::term::{Branch, Branches, MakeFault, Match, Node, Term, Terms};
use reduce_machine::closures::Closures;
use reduction::substitution::Subst;
use row_files::{Case, Fault};
use row_terms::{Opened, made, put_stop, put_term};
use std::alloc::{AllocError, Global};

/// Runs a row of the layer.
pub fn run(case: &Case, out: &mut String) -> Result<(), Fault> {
    let opened = Opened::of(case)?;
    run_opened(case, &opened, out)
}

/// Makes the call of a row on its `term`.
fn run_opened(case: &Case, opened: &Opened, out: &mut String) -> Result<(), Fault> {
    let term = opened.term(case, "term")?;
    match case.row.given("call")? {
        "whnf" => put_whnf(case, opened, term, out),
        "whnf kept" => run_kept(case, opened, term, out),
        "whnf nested" => run_nested(case, opened, term, out),
        _ => Err(Fault::Faulty("no such call")),
    }
}

/// The weak-head normal form of a term in the row's context, with `units`, and the units that are left.
fn put_whnf(case: &Case, opened: &Opened, term: &Term, out: &mut String) -> Result<(), Fault> {
    let env = unchecked(case.alloc, opened)?;
    put_whnf_in(case, opened, &env, term, out)
}

/// The same, in an environment: what substitution comes to, and what closures come to where that isn't the same.
fn put_whnf_in(
    case: &Case,
    opened: &Opened,
    env: &Env,
    term: &Term,
    out: &mut String,
) -> Result<(), Fault> {
    let stepwise = reduced_by(&Subst, case, opened, env, term)?;
    let bound = reduced_by(&Closures, case, opened, env, term)?;
    out.push_str(stepwise.as_str())?;
    if bound.as_str() != stepwise.as_str() {
        out.push_str("\n  by closures ")?;
        out.push_str(bound.as_str())?;
    }
    Ok(())
}

/// The weak-head normal form of a term by a reducer, in the row's context, with `units`, and the units that are left.
fn reduced_by<R: Reducer>(
    reducer: &R,
    case: &Case,
    opened: &Opened,
    env: &Env,
    term: &Term,
) -> Result<String, Fault> {
    let mut m = Meter::new(case.row.number("units", 1_000_000)?);
    let ctx = context(case, opened)?;
    let mut out = String::new(case.alloc);
    put_reduced(
        &mut out,
        opened,
        reducer.whnf(case.alloc, env, &ctx, term, &mut m),
    )?;
    let left = m.left();
    write!(&mut out, "\n  units left {left}")?;
    Ok(out)
}

/// The weak-head normal form of a term in the row's environment, which is checked, in the row's context.
fn run_kept(case: &Case, opened: &Opened, term: &Term, out: &mut String) -> Result<(), Fault> {
    let env = checked(case)?;
    put_whnf_in(case, opened, &env, term, out)
}

/// A weak-head normal form, or why there is none.
fn put_reduced(
    out: &mut String,
    opened: &Opened,
    reduced: Result<Term, Stop>,
) -> Result<(), AllocError> {
    match reduced {
        Ok(whnf) => put_term(out, &opened.raw, &whnf),
        Err(stop) => put_stop(out, stop),
    }
}

fn branches(alloc: Global, whole: &Match) -> Result<Branches, MakeFault> {
    let mut list = Branches::new(alloc);
    for branch in whole.branches.as_slice() {
        let body = branch.body.share()?;
        let binders = branch.binders;
        list.push(Branch { binders, body })?;
    }
    Ok(list)
}

/// A match without parameters on another scrutinee.
fn match_on(alloc: Global, whole: &Match, scrut: Term) -> Result<Term, MakeFault> {
    let ret = whole.ret.share()?;
    let branches = branches(alloc, whole)?;
    let whole = Match {
        family: whole.family,
        params: Terms::new(alloc),
        binders: whole.binders,
        ret,
        scrut,
        branches,
    };
    Term::of_match(alloc, whole)
}

/// A match, which has no parameters, around itself, so that so many matches stand in one another.
fn nested(alloc: Global, whole: &Match, times: u64) -> Result<Term, MakeFault> {
    let mut term = whole.scrut.share()?;
    for _ in 0..times {
        term = match_on(alloc, whole, term)?;
    }
    Ok(term)
}

/// The weak-head normal form of the match `term`, which has no parameters, around itself, so that `times` matches stand in one another.
fn run_nested(case: &Case, opened: &Opened, term: &Term, out: &mut String) -> Result<(), Fault> {
    let Node::Case(whole) = term.view() else {
        return Err(Fault::Faulty("no match"));
    };
    let whole = whole.get();
    let times = case.row.number("times", 0)?;
    let term = made(nested(case.alloc, whole, times))?;
    put_whnf(case, opened, &term, out)
}

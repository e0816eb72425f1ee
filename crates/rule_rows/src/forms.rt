//! The layer of what the rules form from declarations: `ind_type`, `pred_entries`, `construct_type`, `branch_entries`, `branch_type`, `pred_at`
//! and `fix_unfold`, in an environment that is not checked.
use crate::known::{constructor, family, known, known_constructor, matched};
use crate::unchecked::unchecked;
use instances::instantiations::{
    branch_entries, branch_type, construct_type, fix_unfold, ind_type, pred_at, pred_entries,
};
use pc_rules::environment::Env;
use pc_rules::stop::Stop;
use pc_terms::lists::Telescope;
use pc_terms::term::{Node, Term};
use row_files::{Case, Fault};
use row_terms::{Opened, put_stop, put_term};

/// Runs a row of the layer.
pub fn run(case: &Case, out: &mut String) -> Result<(), Fault> {
    let opened = Opened::of(case)?;
    run_opened(case, &opened, out)
}

/// Runs a row in the environment that keeps what was read.
fn run_opened(case: &Case, opened: &Opened, out: &mut String) -> Result<(), Fault> {
    let env = unchecked(case.alloc, opened)?;
    run_on(case, opened, &env, out)
}

/// Makes the call of a row on its `term`.
fn run_on(case: &Case, opened: &Opened, env: &Env, out: &mut String) -> Result<(), Fault> {
    let term = opened.term(case, "term")?;
    match case.row.given("call")? {
        "ind_type" => run_ind_type(case, opened, env, term, out),
        "pred_entries" => run_pred_entries(case, opened, env, term, out),
        "construct_type" => run_construct_type(case, opened, env, term, out),
        "branch_entries" => run_branch_entries(case, opened, env, term, out),
        "branch_type" => run_branch_type(case, opened, env, term, out),
        "pred_at" => run_pred_at(case, opened, term, out),
        "fix_unfold" => run_fix_unfold(case, opened, term, out),
        _ => Err(Fault::Faulty("no such call")),
    }
}

/// A term that was formed.
fn put_formed(out: &mut String, opened: &Opened, formed: Result<Term, Stop>) -> Result<(), Fault> {
    match formed {
        Ok(term) => Ok(put_term(out, &opened.raw, &term)?),
        Err(stop) => Ok(put_stop(out, stop)?),
    }
}

/// Entries, the outermost first.
fn put_each(out: &mut String, opened: &Opened, entries: &[Term]) -> Result<(), Fault> {
    let count = entries.len();
    write!(out, "{count} entries")?;
    for entry in entries {
        out.push_str(" ")?;
        put_term(out, &opened.raw, entry)?;
    }
    Ok(())
}

/// Entries that were formed.
fn put_entries(
    out: &mut String,
    opened: &Opened,
    formed: Result<Telescope, Stop>,
) -> Result<(), Fault> {
    match formed {
        Ok(entries) => put_each(out, opened, entries.as_slice()),
        Err(stop) => Ok(put_stop(out, stop)?),
    }
}

fn run_ind_type(
    case: &Case,
    opened: &Opened,
    env: &Env,
    term: &Term,
    out: &mut String,
) -> Result<(), Fault> {
    let id = family(term)?;
    known(env, id)?;
    put_formed(out, opened, ind_type(case.alloc, env, id))
}

fn run_pred_entries(
    case: &Case,
    opened: &Opened,
    env: &Env,
    term: &Term,
    out: &mut String,
) -> Result<(), Fault> {
    let params = opened.terms(case, "parameter")?;
    let id = family(term)?;
    known(env, id)?;
    put_entries(out, opened, pred_entries(case.alloc, env, id, &params))
}

fn run_construct_type(
    case: &Case,
    opened: &Opened,
    env: &Env,
    term: &Term,
    out: &mut String,
) -> Result<(), Fault> {
    let (id, c) = constructor(term)?;
    known_constructor(env, id, c)?;
    put_formed(out, opened, construct_type(case.alloc, env, id, c))
}

fn run_branch_entries(
    case: &Case,
    opened: &Opened,
    env: &Env,
    term: &Term,
    out: &mut String,
) -> Result<(), Fault> {
    let params = opened.terms(case, "parameter")?;
    let (id, c) = constructor(term)?;
    known_constructor(env, id, c)?;
    put_entries(out, opened, branch_entries(case.alloc, env, id, c, &params))
}

/// The type of the branch `branch` of the match `term`.
fn run_branch_type(
    case: &Case,
    opened: &Opened,
    env: &Env,
    term: &Term,
    out: &mut String,
) -> Result<(), Fault> {
    let c = case.row.index("branch")?;
    let whole = matched(term)?;
    known_constructor(env, whole.family, c)?;
    put_formed(out, opened, branch_type(case.alloc, env, whole, c))
}

/// The predicate of the match `term` at indices and a scrutinee.
fn run_pred_at(case: &Case, opened: &Opened, term: &Term, out: &mut String) -> Result<(), Fault> {
    let indices = opened.terms(case, "index")?;
    let scrutinee = opened.term(case, "scrutinee")?;
    let whole = matched(term)?;
    put_formed(out, opened, pred_at(case.alloc, whole, &indices, scrutinee))
}

/// The definition `definition` of the fixpoint `term`, with the fixpoints put in.
fn run_fix_unfold(
    case: &Case,
    opened: &Opened,
    term: &Term,
    out: &mut String,
) -> Result<(), Fault> {
    let number = case.row.index("definition")?;
    let Node::Fix(defs, _) = term.view() else {
        return Err(Fault::Faulty("no fixpoint"));
    };
    if number as usize >= defs.len() {
        return Err(Fault::Faulty("no such definition"));
    }
    put_formed(out, opened, fix_unfold(case.alloc, defs, number))
}

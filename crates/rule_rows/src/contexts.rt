//! Contexts: `context` and `long context`.
use calculus_rules::entry::Entry;
use pc_rules::context::Ctx;
use pc_rules::stop::Stop;
use pc_terms::term::{MakeFault, Term};
use row_files::{Case, Fault};
use row_terms::{Opened, done, is_term, made};
use std::alloc::{AllocError, Global};

/// A variable of a type.
fn assumed(ty: &Term) -> Result<Entry, MakeFault> {
    Ok(Entry::Assumed(ty.share()?))
}

/// A variable that stands for a value.
fn defined(value: &Term, ty: &Term) -> Result<Entry, MakeFault> {
    Ok(Entry::Defined {
        value: value.share()?,
        ty: ty.share()?,
    })
}

/// The entry that begins with the term at a place among the row's terms, by the key of that term, if it is one.
fn entry_at(opened: &Opened, key: &str, place: usize) -> Result<Option<Entry>, Fault> {
    match key {
        "assumed" => Ok(Some(made(assumed(opened.at(place)?))?)),
        "value" => {
            let ty = opened.at(place.saturating_add(1))?;
            Ok(Some(made(defined(opened.at(place)?, ty))?))
        }
        _ => Ok(None),
    }
}

/// The context of the row's entries: `assumed` with a type, or `value` with a `type` behind it; the outermost stands first.
pub fn context(case: &Case, opened: &Opened) -> Result<Ctx, Fault> {
    let mut ctx = Ctx::new();
    let mut place: usize = 0;
    for field in case.row.fields() {
        if let Some(entry) = entry_at(opened, field.key, place)? {
            ctx = done(ctx.extended(case.alloc, entry))?;
        }
        if is_term(field.key) {
            place = place.saturating_add(1);
        }
    }
    Ok(ctx)
}

fn put_entry(out: &mut String, ctx: &Ctx, i: u32) -> Result<(), AllocError> {
    match ctx.entry(i) {
        Some(Entry::Assumed(_)) => write!(out, ", {i} assumed"),
        Some(Entry::Defined { .. }) => write!(out, ", {i} defined"),
        None => write!(out, ", {i} none"),
    }
}

/// The entries of a context, of one that shares it, and one number more.
fn put_entries(out: &mut String, ctx: &Ctx, shared: &Ctx) -> Result<(), AllocError> {
    let (length, other) = (ctx.len(), shared.len());
    write!(out, "length {length}, shared {other}")?;
    for i in 0..length {
        put_entry(out, shared, i)?;
    }
    put_entry(out, ctx, length)
}

/// The entries of a context, of one that shares it, and one number more.
fn put_shared(out: &mut String, ctx: &Ctx) -> Result<(), Fault> {
    let shared = done(ctx.share())?;
    put_entries(out, ctx, &shared)?;
    let empty = Ctx::new().len();
    write!(out, ", the empty one has {empty}")?;
    Ok(())
}

/// The entries of the row's context, of a context that shares it, and one number more.
pub fn run_context(case: &Case, opened: &Opened, out: &mut String) -> Result<(), Fault> {
    let ctx = context(case, opened)?;
    put_shared(out, &ctx)
}

/// A context of so many variables of a type.
fn repeated(alloc: Global, ty: &Term, times: u32) -> Result<Ctx, Stop> {
    let mut ctx = Ctx::new();
    for _ in 0..times {
        ctx = ctx.extended(alloc, assumed(ty)?)?;
    }
    Ok(ctx)
}

/// The length of a context, its last entry, and one number more.
fn put_long(out: &mut String, ctx: &Ctx, times: u32) -> Result<(), AllocError> {
    let length = ctx.len();
    write!(out, "length {length}")?;
    put_entry(out, ctx, times.saturating_sub(1))?;
    put_entry(out, ctx, times)
}

/// A context of `times` entries, which is let go of in the end: level by level it would not fit the stack.
pub fn run_long_context(case: &Case, opened: &Opened, out: &mut String) -> Result<(), Fault> {
    let times = case.row.index("times")?;
    let ty = opened.term(case, "assumed")?;
    let ctx = done(repeated(case.alloc, ty, times))?;
    Ok(put_long(out, &ctx, times)?)
}

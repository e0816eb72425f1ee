//! Names, families and sorts as text: as a dump has them.
use dump_reader::environment::RawEnv;
use dump_reader::names::Names;
use pc_terms::leaf::{FamilyId, Name};
use std::alloc::AllocError;
use universe_levels::level::LevelExpr;
use universe_levels::sort::Sort;

/// The text of a number, or the number itself where it has none.
fn put_text(out: &mut String, names: &Names, number: u32) -> Result<(), AllocError> {
    match names.text(number) {
        Some(text) => out.push_str(text),
        None => write!(out, "?{number}"),
    }
}

/// A name.
pub fn put_name(out: &mut String, env: &RawEnv, name: Name) -> Result<(), AllocError> {
    put_text(out, &env.names, name.0)
}

/// A level.
pub fn put_level(out: &mut String, env: &RawEnv, level: u32) -> Result<(), AllocError> {
    put_text(out, &env.level_names, level)
}

/// A family: its block's name and its place there.
pub fn put_family(out: &mut String, env: &RawEnv, id: FamilyId) -> Result<(), AllocError> {
    put_name(out, env, id.block)?;
    let family = id.family;
    write!(out, " {family}")
}

/// A part of a universe.
fn put_part(out: &mut String, env: &RawEnv, part: &LevelExpr) -> Result<(), AllocError> {
    out.push_str(" (")?;
    put_level(out, env, part.level.0)?;
    let add = part.add;
    write!(out, " {add})")
}

/// Whether the parts of a universe are those of `Set`.
fn is_set(parts: &[LevelExpr]) -> bool {
    match parts {
        [part] => part.level.0 == 0 && part.add == 0,
        _ => false,
    }
}

/// A universe by its parts.
fn put_universe(out: &mut String, env: &RawEnv, parts: &[LevelExpr]) -> Result<(), AllocError> {
    if is_set(parts) {
        return out.push_str("Set");
    }
    out.push_str("(Type")?;
    for part in parts {
        put_part(out, env, part)?;
    }
    out.push_str(")")
}

/// A sort.
pub fn put_sort(out: &mut String, env: &RawEnv, sort: &Sort) -> Result<(), AllocError> {
    match sort {
        Sort::Prop => out.push_str("Prop"),
        Sort::Of(universe) => put_universe(out, env, universe.parts()),
    }
}

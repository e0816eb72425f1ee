//! What an environment keeps.
use calculus_rules::declaration::{Block, Constructor, Family, Kept};
use dump_reader::environment::RawEnv;
use pc_rules::environment::Env;
use pc_terms::leaf::Name;
use row_terms::{put_name, put_sort};
use std::alloc::AllocError;
use universe_levels::sort::Sort;

/// Sorts, with a blank before each.
fn put_sorts(out: &mut String, raw: &RawEnv, sorts: &[Sort]) -> Result<(), AllocError> {
    for sort in sorts {
        out.push_str(" ")?;
        put_sort(out, raw, sort)?;
    }
    Ok(())
}

/// A constructor with the kept sorts of its arguments.
fn put_constructor(out: &mut String, raw: &RawEnv, ctor: &Constructor) -> Result<(), AllocError> {
    out.push_str(" (")?;
    put_name(out, raw, ctor.name)?;
    put_sorts(out, raw, ctor.arg_sorts.as_slice())?;
    out.push_str(")")
}

fn put_family(out: &mut String, raw: &RawEnv, family: &Family) -> Result<(), AllocError> {
    out.push_str(", family ")?;
    put_name(out, raw, family.name)?;
    out.push_str(" in ")?;
    put_sort(out, raw, &family.sort)?;
    for ctor in family.ctors.as_slice() {
        put_constructor(out, raw, ctor)?;
    }
    Ok(())
}

fn put_block(out: &mut String, raw: &RawEnv, block: &Block) -> Result<(), AllocError> {
    out.push_str("\n  block ")?;
    put_name(out, raw, block.name)?;
    for family in block.families.as_slice() {
        put_family(out, raw, family)?;
    }
    Ok(())
}

fn put_constant(out: &mut String, raw: &RawEnv, kind: &str, name: Name) -> Result<(), AllocError> {
    out.push_str("\n  ")?;
    out.push_str(kind)?;
    out.push_str(" ")?;
    put_name(out, raw, name)
}

fn put_declaration(out: &mut String, raw: &RawEnv, kept: &Kept) -> Result<(), AllocError> {
    match kept {
        Kept::Block(block) => put_block(out, raw, block),
        Kept::Heads(block) => put_block(out, raw, block),
        Kept::Constant {
            name,
            body: Some(_),
            ..
        } => put_constant(out, raw, "definition", *name),
        Kept::Constant { name, .. } => put_constant(out, raw, "assumption", *name),
    }
}

/// The declarations that an accepted environment keeps, the newest first.
pub fn put_kept(out: &mut String, raw: &RawEnv, env: &Env) -> Result<(), AllocError> {
    out.push_str("accepted")?;
    let count = u32::try_from(raw.decls.len()).unwrap_or(u32::MAX);
    for place in 0..count {
        match env.declaration(place) {
            Some(kept) => put_declaration(out, raw, kept)?,
            None => out.push_str("\n  none")?,
        }
    }
    Ok(())
}

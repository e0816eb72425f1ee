//! What environments keep: `keep` and `heads`.
ghost use Rattle.std.specs.Prelude.{◌≡◌, IfOk};
ghost use Rattle.pc_rules.specs.Lookup.{HasNoConstructors};

use crate::unchecked::unchecked;
use calculus_rules::declaration::{Block, Constructors, Families, Family, Kept};
use pc_rules::environment::Env;
use pc_terms::leaf::{FamilyId, Name};
use pc_terms::lists::Telescope;
use row_files::{Case, Fault};
use row_terms::{Opened, done};
use std::alloc::{AllocError, Global};
use universe_levels::sort::Sort;

/// What is kept, in a word.
fn kind_of(kept: Option<&Kept>) -> &'static str {
    match kept {
        Some(Kept::Constant { .. }) => "constant",
        Some(Kept::Heads(_)) => "heads",
        Some(Kept::Block(_)) => "block",
        None => "none",
    }
}

/// The constructors of family 0 of a block.
fn put_family_0(out: &mut String, env: &Env, block: Name) -> Result<(), AllocError> {
    match env.family(FamilyId { block, family: 0 }) {
        Some(family) => {
            let count = family.ctors.len();
            write!(out, ", family 0 with {count} constructors")
        }
        None => out.push_str(", no family 0"),
    }
}

/// What an environment shows by the number of a name: what is kept, whether a block and a whole one, and the constructors of family 0.
fn put_shown(out: &mut String, env: &Env, number: u32) -> Result<(), AllocError> {
    let name = Name(number);
    let kind = kind_of(env.find(name));
    let (block, whole) = (env.block(name).is_some(), env.whole_block(name).is_some());
    write!(out, "\n  {number}: {kind}, block {block}, whole {whole}")?;
    put_family_0(out, env, name)
}

/// The first declarations by their places.
fn put_places(out: &mut String, env: &Env) -> Result<(), AllocError> {
    for place in 0..4 {
        out.push_str(" ")?;
        out.push_str(kind_of(env.declaration(place)))?;
    }
    Ok(())
}

/// The declarations by their places, and what is shown by the numbers of the names and one more.
fn put_environment(out: &mut String, env: &Env, names: u32) -> Result<(), AllocError> {
    let levels = env.graph().levels();
    write!(out, "levels {levels}; by place")?;
    put_places(out, env)?;
    for number in 0..names {
        put_shown(out, env, number)?;
    }
    put_shown(out, env, names)
}

/// Keeps the row's declarations, and looks them up.
pub fn run_keep(case: &Case, opened: &Opened, out: &mut String) -> Result<(), Fault> {
    let env = unchecked(case.alloc, opened)?;
    Ok(put_environment(out, &env, opened.raw.names.len() as u32)?)
}

/// A block of one family in `Prop` without constructors.
fn bare_block(alloc: Global, name: Name) -> Result<Block, AllocError>
    ensures name { IfOk result (λ b. b.name ≡ name) }
    ensures bare { IfOk result HasNoConstructors }
{
    let mut families = Vec::new(alloc);
    families.push(Family {
        name,
        sort: Sort::Prop,
        indices: Telescope::new(alloc),
        ctors: Constructors::of(Vec::new(alloc)),
    })?;
    Ok(Block {
        name,
        params: Telescope::new(alloc),
        families: Families::of(families),
    })
}

/// An environment with the heads of a block of a name that is new.
fn with_heads(alloc: Global, env: &Env, name: Name) -> Result<Env, Fault> {
    if env.find(name).is_some() {
        return Err(Fault::Faulty("declared twice"));
    }
    let block = bare_block(alloc, name)?;
    done(env.heads(alloc, block))
}

/// What is shown with the heads of a block whose name has a number, and then without.
fn put_heads(out: &mut String, env: &Env, under: &Env, number: u32) -> Result<(), AllocError> {
    out.push_str("with heads:")?;
    put_shown(out, under, 0)?;
    put_shown(out, under, number)?;
    out.push_str("\n  without:")?;
    put_shown(out, env, number)
}

/// Looks up the heads of a block whose name has the number `number`, with them and without.
fn look_up_heads(case: &Case, env: &Env, out: &mut String) -> Result<(), Fault> {
    let number = case.row.index("number")?;
    let under = with_heads(case.alloc, env, Name(number))?;
    Ok(put_heads(out, env, &under, number)?)
}

/// Keeps the row's declarations, and the heads of a block whose name has the number `number`; looks both up, and then in the environment before.
pub fn run_heads(case: &Case, opened: &Opened, out: &mut String) -> Result<(), Fault> {
    let env = unchecked(case.alloc, opened)?;
    look_up_heads(case, &env, out)
}

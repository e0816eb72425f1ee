//! What both kinds of programs are printed with: lines, variables, atoms and families.
use anf_convert::lists::Atoms;
use anf_convert::program::Atom;
use box_terms::program::{BoxFamilies, BoxFamily};
use dump_reader::environment::RawEnv;
use row_terms::put_family;
use std::alloc::AllocError;

/// Where an item stands.
#[derive(Clone, Copy)]
pub struct Place {
    /// How far its line is indented.
    pub indent: usize,
    /// How many variables it stands under.
    pub under: usize,
}

impl Place {
    /// The place of what stands in an item, under so many variables more.
    pub fn inside(self, binders: usize) -> Place {
        Place {
            indent: self.indent.saturating_add(1),
            under: self.under.saturating_add(binders),
        }
    }

    /// The place behind so many bindings of a block.
    pub fn behind(self, bindings: usize) -> Place {
        Place {
            indent: self.indent,
            under: self.under.saturating_add(bindings),
        }
    }
}

/// What an operation is in its block.
#[derive(Clone, Copy)]
pub enum Role {
    /// Its value is bound.
    Binding,
    /// It gives the block's value.
    Tail,
}

/// A new line, so far indented.
pub fn put_line(out: &mut String, indent: usize) -> Result<(), AllocError> {
    out.push_str("\n")?;
    for _ in 0..indent {
        out.push_str("  ")?;
    }
    Ok(())
}

/// A variable by the number of those around it.
pub fn put_level(out: &mut String, level: usize) -> Result<(), AllocError> {
    write!(out, "x{level}")
}

/// Variables from a level on, so many, with a blank before each.
pub fn put_levels(out: &mut String, from: usize, count: usize) -> Result<(), AllocError> {
    for i in 0..count {
        out.push_str(" ")?;
        put_level(out, from.saturating_add(i))?;
    }
    Ok(())
}

/// An atom under so many variables.
pub fn put_atom(out: &mut String, under: usize, atom: Atom) -> Result<(), AllocError> {
    match atom {
        Atom::Var(index) => {
            let index = index as usize;
            if index < under {
                put_level(out, under - 1 - index)
            } else {
                out.push_str("no variable")
            }
        }
        Atom::Box => out.push_str("Box"),
        Atom::Empty(number) => write!(out, "Construct({number})"),
    }
}

/// An application.
pub fn put_app(out: &mut String, under: usize, f: Atom, a: Atom) -> Result<(), AllocError> {
    out.push_str("App(")?;
    put_atom(out, under, f)?;
    out.push_str(", ")?;
    put_atom(out, under, a)?;
    out.push_str(")")
}

/// What has a number and atoms, a constructor or a closure.
pub fn put_numbered(
    out: &mut String,
    under: usize,
    what: &str,
    number: u32,
    atoms: &Atoms,
) -> Result<(), AllocError> {
    write!(out, "{what}({number}")?;
    for atom in atoms.as_slice() {
        out.push_str(", ")?;
        put_atom(out, under, *atom)?;
    }
    out.push_str(")")
}

/// The front of a match.
pub fn put_case(out: &mut String, under: usize, scrutinee: Atom) -> Result<(), AllocError> {
    out.push_str("Case ")?;
    put_atom(out, under, scrutinee)
}

/// The line of a branch: the constructor's number, and the variables for its arguments.
pub fn put_arm(
    out: &mut String,
    place: Place,
    number: usize,
    binders: usize,
) -> Result<(), AllocError> {
    put_line(out, place.indent)?;
    write!(out, "{number}")?;
    put_levels(out, place.under, binders)?;
    out.push_str(" =>")
}

/// The line of an operation up to the operation itself.
pub fn put_role(out: &mut String, place: Place, role: Role) -> Result<(), AllocError> {
    put_line(out, place.indent)?;
    match role {
        Role::Binding => {
            put_level(out, place.under)?;
            out.push_str(" = ")
        }
        Role::Tail => out.push_str("tail: "),
    }
}

/// The line of a family.
fn put_counts(out: &mut String, raw: &RawEnv, family: &BoxFamily) -> Result<(), AllocError> {
    out.push_str("\n  family ")?;
    put_family(out, raw, family.id)?;
    let kind = if family.propositional { "Prop" } else { "Type" };
    let params = family.params;
    write!(out, " {kind} (params {params}) (args")?;
    for count in family.args.as_slice() {
        write!(out, " {count}")?;
    }
    out.push_str(")")
}

/// The lines of families.
pub fn put_families(
    out: &mut String,
    raw: &RawEnv,
    families: &BoxFamilies,
) -> Result<(), AllocError> {
    for family in families.as_slice() {
        put_counts(out, raw, family)?;
    }
    Ok(())
}

//! Programs.
ghost use Rattle.std.specs.Prelude.{◌≡◌, ◌++◌, reverse, IfOk, OnOk};
ghost use Rattle.box_text.specs.BoxText.{count_text, kind_text, line_of_family, line_of_constant, each_text, text_of_program};

use crate::items::{put, put_family, put_name, put_number};
use crate::terms::put_term;
use box_terms::program::{BoxConstant, BoxConstants, BoxFamilies, BoxFamily, BoxProgram};
use dump_reader::names::Names;
use pc_terms::lists::Numbers;
use std::alloc::{AllocError, Global};

/// A count, with a blank before it.
fn put_count(out: &mut Vec<u8>, n: u32) -> Result<(), AllocError>
    ensures ok { OnOk result (out.new.items ≡ out.old.items ++ count_text n) }
{
    put(out, b" ")?;
    put_number(out, n)
}

/// Counts, with a blank before each.
fn put_counts(out: &mut Vec<u8>, numbers: &Numbers) -> Result<(), AllocError>
    ensures ok { OnOk result (out.new.items ≡ out.old.items ++ each_text count_text numbers.now) }
{
    let items = numbers.as_slice();
    for i in 0..items.len() {
        let n = items[i];
        put_count(out, n)?;
    }
    Ok(())
}

/// Whether a family is propositional, and the front of its count of parameters.
fn put_kind(out: &mut Vec<u8>, propositional: bool) -> Result<(), AllocError>
    ensures ok { OnOk result (out.new.items ≡ out.old.items ++ kind_text propositional) }
{
    if propositional {
        return put(out, b" Prop (params ");
    }
    put(out, b" Type (params ")
}

/// The line of a family.
fn put_family_line(out: &mut Vec<u8>, names: &Names, family: &BoxFamily) -> Result<(), AllocError>
    ensures ok { OnOk result (out.new.items ≡ out.old.items ++ line_of_family names.now family.now) }
{
    put(out, b"(family ")?;
    put_family(out, names, family.id)?;
    put_kind(out, family.propositional)?;
    put_number(out, family.params)?;
    put(out, b") (args")?;
    put_counts(out, &family.args)?;
    put(out, b"))\n")
}

/// The line of a constant.
fn put_constant_line(
    out: &mut Vec<u8>,
    names: &Names,
    constant: &BoxConstant,
) -> Result<(), AllocError>
    ensures ok { OnOk result (out.new.items ≡ out.old.items ++ line_of_constant names.now constant.now) }
{
    put(out, b"(constant ")?;
    put_name(out, names, constant.name)?;
    put(out, b" ")?;
    put_term(out, names, &constant.body)?;
    put(out, b")\n")
}

/// The lines of families.
fn put_families(out: &mut Vec<u8>, names: &Names, families: &BoxFamilies) -> Result<(), AllocError>
    ensures ok { OnOk result (out.new.items ≡ out.old.items ++ each_text (line_of_family names.now) families.now) }
{
    let items = families.as_slice();
    for i in 0..items.len() {
        let family = &items[i];
        put_family_line(out, names, family)?;
    }
    Ok(())
}

/// The lines of constants, in the order of their declarations.
fn put_constants(
    out: &mut Vec<u8>,
    names: &Names,
    constants: &BoxConstants,
) -> Result<(), AllocError>
    ensures ok { OnOk result (out.new.items ≡ out.old.items ++ each_text (line_of_constant names.now) (reverse constants.now)) }
{
    let items = constants.as_slice();
    for i in 0..items.len() {
        let constant = &items[i];
        put_constant_line(out, names, constant)?;
    }
    Ok(())
}

/// The text of a program, with names by their table.
pub fn program_text(
    alloc: Global,
    names: &Names,
    program: &BoxProgram,
) -> Result<Vec<u8>, AllocError>
    ensures is { IfOk result (λ v. v.items ≡ text_of_program names.now program.now) }
{
    let mut out = Vec::new(alloc);
    put_constants(&mut out, names, &program.constants)?;
    put_families(&mut out, names, &program.families)?;
    put(&mut out, b"(main ")?;
    put_term(&mut out, names, &program.main)?;
    put(&mut out, b")\n")?;
    Ok(out)
}

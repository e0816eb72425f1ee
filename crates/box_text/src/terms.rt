//! Terms.
ghost use Rattle.std.specs.Prelude.{◌≡◌, ◌++◌, length, OnOk};
ghost use Rattle.box_text.specs.BoxText.{term_text, two_text, arm_text, arms_text, definition_text, definitions_text};
ghost use Rattle.box_terms.specs.BoxLists.{arms_of, bodies_of, rargs_of};

use crate::items::{put, put_family, put_name, put_number};
use box_terms::term::{BoxBranch, BoxBranches, BoxDef, BoxDefs, BoxNode, BoxTerm};
use dump_reader::names::Names;
use std::alloc::AllocError;

/// A term. It calls itself for subterms alone.
#[cycle(term)]
pub(crate) fn put_term(out: &mut Vec<u8>, names: &Names, t: &BoxTerm) -> Result<(), AllocError>
    ensures ok { OnOk result (out.new.items ≡ out.old.items ++ term_text names.now t.now) }
{
    match t.view() {
        BoxNode::Boxed => put(out, b"Box"),
        BoxNode::Rel(i) => {
            put(out, b"(Rel ")?;
            put_number(out, *i)?;
            put(out, b")")
        }
        BoxNode::Lambda(body) => {
            put(out, b"(Lambda ")?;
            put_term(out, names, body)?;
            put(out, b")")
        }
        BoxNode::LetIn(value, body) => put_two(out, names, b"(LetIn ", value, body),
        BoxNode::App(function, argument) => put_two(out, names, b"(App ", function, argument),
        BoxNode::Const(name) => {
            put(out, b"(Const ")?;
            put_name(out, names, *name)?;
            put(out, b")")
        }
        BoxNode::Construct(id, number) => {
            put(out, b"(Construct ")?;
            put_family(out, names, *id)?;
            put(out, b" ")?;
            put_number(out, *number)?;
            put(out, b")")
        }
        BoxNode::Case(id, scrut, branches) => {
            put(out, b"(Case (")?;
            put_family(out, names, *id)?;
            put(out, b") ")?;
            put_term(out, names, scrut)?;
            put_branches(out, names, branches)?;
            put(out, b")")
        }
        BoxNode::Fix(defs, i) => {
            put(out, b"(Fix (defs")?;
            put_definitions(out, names, defs)?;
            put(out, b") ")?;
            put_number(out, *i)?;
            put(out, b")")
        }
    }
}

/// A front, two terms with a blank between them, and the bracket that closes.
#[cycle(term)]
fn put_two(
    out: &mut Vec<u8>,
    names: &Names,
    front: &[u8],
    first: &BoxTerm,
    second: &BoxTerm,
) -> Result<(), AllocError>
    ensures ok { OnOk result (out.new.items ≡ out.old.items ++ two_text front.now (term_text names.now first.now) (term_text names.now second.now)) }
{
    put(out, front)?;
    put_term(out, names, first)?;
    put(out, b" ")?;
    put_term(out, names, second)?;
    put(out, b")")
}

/// A branch of a match, with a blank before it.
#[cycle(term)]
fn put_branch(out: &mut Vec<u8>, names: &Names, branch: &BoxBranch) -> Result<(), AllocError>
    ensures ok { OnOk result (out.new.items ≡ out.old.items ++ arm_text branch.now.binders (term_text names.now branch.now.body)) }
{
    put(out, b" (br ")?;
    put_number(out, branch.binders)?;
    put(out, b" ")?;
    put_term(out, names, &branch.body)?;
    put(out, b")")
}

/// The branches of a match.
#[cycle(term)]
fn put_branches(out: &mut Vec<u8>, names: &Names, branches: &BoxBranches) -> Result<(), AllocError>
    ensures ok { OnOk result (out.new.items ≡ out.old.items ++ arms_text names.now (arms_of branches.now)) }
{
    let items = branches.as_slice();
    for i in 0..items.len() {
        let branch = &items[i];
        put_branch(out, names, branch)?;
    }
    Ok(())
}

/// A definition of a fixpoint, with a blank before it.
#[cycle(term)]
fn put_definition(out: &mut Vec<u8>, names: &Names, def: &BoxDef) -> Result<(), AllocError>
    ensures ok { OnOk result (out.new.items ≡ out.old.items ++ definition_text def.now.rarg (term_text names.now def.now.body)) }
{
    put(out, b" (def ")?;
    put_term(out, names, &def.body)?;
    put(out, b" ")?;
    put_number(out, def.rarg)?;
    put(out, b")")
}

/// The definitions of a fixpoint.
#[cycle(term)]
fn put_definitions(out: &mut Vec<u8>, names: &Names, defs: &BoxDefs) -> Result<(), AllocError>
    ensures ok { OnOk result (out.new.items ≡ out.old.items ++ definitions_text names.now (rargs_of defs.now) (bodies_of (length defs.now) defs.now)) }
{
    let items = defs.as_slice();
    for i in 0..items.len() {
        let def = &items[i];
        put_definition(out, names, def)?;
    }
    Ok(())
}

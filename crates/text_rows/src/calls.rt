//! The layer of calls: `read_call`, the environment at the front of a text; `read_args`, arguments that are given as text; and both, one behind the other.
use crate::texts::put_refusal;
use data_trees::Data;
use dump_reader::names::Names;
use dump_reader::reading::read_call;
use first_order::faults::{ArgsFault, TextFault};
use first_order::given::read_args;
use first_order::shapes::{
    Shape, ShapeCtor, ShapeCtors, ShapeTypes, Shapes, ShapesList, Signature,
};
use first_order::texts::tags_of;
use pc_terms::leaf::Name;
use pc_terms::lists::Numbers;
use pc_terms::term::{Node, Term};
use row_files::{Case, Fault, put_bytes};
use row_terms::made;
use std::alloc::{AllocError, Global};

/// Runs a row of the layer.
pub fn run(case: &Case, out: &mut String) -> Result<(), Fault> {
    match case.row.given("call")? {
        "read_call" => run_call(case, out),
        "read_args" => run_args(case, out),
        "read_call, read_args" => run_both(case, out),
        _ => Err(Fault::Faulty("no such call")),
    }
}

/// The number of a text, which gets the next one where it has none.
fn number_of(alloc: Global, names: &mut Names, text: &str) -> Result<Name, Fault> {
    match names.number(alloc, text) {
        Ok(number) => Ok(Name(number)),
        Err(_) => Err(Fault::Memory),
    }
}

/// A constructor: its name, and behind it the place of each argument's type, each after a `/`.
fn ctor_of(alloc: Global, names: &mut Names, text: &str) -> Result<ShapeCtor, Fault> {
    let Some((word, places)) = text.split_once('/') else {
        let name = number_of(alloc, names, text)?;
        let args = Numbers::new(alloc);
        return Ok(ShapeCtor { name, args });
    };
    let name = number_of(alloc, names, word)?;
    let mut args = Numbers::new(alloc);
    for place in places.split('/') {
        let Ok(place) = place.parse::<u32>() else {
            return Err(Fault::Faulty("no place of a type"));
        };
        made(args.push(place))?;
    }
    Ok(ShapeCtor { name, args })
}

/// A type: its constructors, with blanks between them.
fn type_of(alloc: Global, names: &mut Names, text: &str) -> Result<Shape, Fault> {
    let mut ctors = Vec::new(alloc);
    for word in text.split(' ') {
        let ctor = ctor_of(alloc, names, word)?;
        ctors.push(ctor)?;
    }
    let ty = made(Term::make(alloc, Node::Rel(0)))?;
    Ok(Shape {
        ty,
        ctors: ShapeCtors::of(ctors),
    })
}

/// The types of a set, with `; ` between them.
fn set_of(alloc: Global, names: &mut Names, text: &str) -> Result<Shapes, Fault> {
    let mut types = Vec::new(alloc);
    for part in text.split(';') {
        let shape = type_of(alloc, names, part.trim())?;
        types.push(shape)?;
    }
    Ok(Shapes {
        types: ShapeTypes::of(types),
    })
}

/// The signature of the row: a line `set` for each argument.
fn signature_of(case: &Case, names: &mut Names) -> Result<Signature, Fault> {
    let alloc = case.alloc;
    let mut sets = Vec::new(alloc);
    for field in case.row.fields() {
        if field.key == "set" {
            let set = set_of(alloc, names, field.value)?;
            sets.push(set)?;
        }
    }
    let answer = Shapes {
        types: ShapeTypes::of(Vec::new(alloc)),
    };
    Ok(Signature {
        args: ShapesList::of(sets),
        answer,
    })
}

/// A refusal of arguments.
fn put_fault(out: &mut String, fault: ArgsFault) -> Result<(), AllocError> {
    match fault {
        ArgsFault::Syntax { offset } => write!(out, "syntax at {offset}"),
        ArgsFault::Nesting => out.push_str("limit Nesting"),
        ArgsFault::NameBytes => out.push_str("limit NameBytes"),
        ArgsFault::Wrong { offset } => write!(out, "argument at {offset}"),
        ArgsFault::Memory => out.push_str("out of memory"),
    }
}

/// The arguments, each by the numbers of its constructors.
fn put_data(alloc: Global, out: &mut String, read: &[Data]) -> Result<(), Fault> {
    let count = read.len();
    write!(out, "{count}:")?;
    for data in read {
        match tags_of(alloc, data) {
            Ok(text) => {
                out.push_str(" ")?;
                put_bytes(out, text.as_slice())?;
            }
            Err(TextFault::Memory) => return Err(Fault::Memory),
            Err(_) => return Err(Fault::Faulty("no data")),
        }
    }
    Ok(())
}

/// What the arguments from an offset on are.
fn put_args(case: &Case, out: &mut String, text: &[u8], from: usize) -> Result<(), Fault> {
    let mut names = Names::new(case.alloc);
    let sig = signature_of(case, &mut names)?;
    if from > text.len() {
        return Err(Fault::Faulty("an offset behind the text"));
    }
    match read_args(case.alloc, text, from, &sig, &names) {
        Ok(read) => put_data(case.alloc, out, read.as_slice()),
        Err(fault) => Ok(put_fault(out, fault)?),
    }
}

fn run_args(case: &Case, out: &mut String) -> Result<(), Fault> {
    let text = case.bytes("text")?;
    let from = case.row.number("from", 0)? as usize;
    put_args(case, out, text.as_slice(), from)
}

fn run_call(case: &Case, out: &mut String) -> Result<(), Fault> {
    let text = case.bytes("text")?;
    match read_call(case.alloc, text.as_slice()) {
        Ok((env, end)) => {
            let (names, declarations) = (env.names.len(), env.decls.len());
            write!(
                out,
                "names {names}, declarations {declarations}, behind it {end}"
            )?;
            Ok(())
        }
        Err(refusal) => Ok(put_refusal(out, &refusal)?),
    }
}

/// The arguments behind the environment.
fn run_both(case: &Case, out: &mut String) -> Result<(), Fault> {
    let text = case.bytes("text")?;
    match read_call(case.alloc, text.as_slice()) {
        Ok((_, end)) => put_args(case, out, text.as_slice(), end),
        Err(refusal) => Ok(put_refusal(out, &refusal)?),
    }
}

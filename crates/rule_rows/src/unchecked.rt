//! An environment that keeps what was read, unchecked, without the sorts of constructors' arguments. Reduction and the instances ask for no
//! check, so that open and ill-typed terms can stand in rows.
ghost use Rattle.std.specs.Prelude.{IfOk};
ghost use Rattle.pc_rules.specs.Lookup.{AreHeads};

use calculus_rules::declaration::{
    Block, Constructor, Constructors, Families, Family, Kept, Sorts,
};
use dump_reader::declaration::{RawCtor, RawDecl, RawFamily};
use pc_rules::environment::Env;
use pc_rules::stop::Stop;
use pc_terms::lists::Telescope;
use pc_terms::term::{Term, Terms};
use row_files::Fault;
use row_terms::{Opened, done};
use std::alloc::Global;
use universe_graph::graph::Graph;
use universe_levels::sort::Sort;

/// Each term of a slice, shared.
fn shared(alloc: Global, terms: &[Term]) -> Result<Vec<Term>, Stop> {
    let mut list = Vec::new(alloc);
    for term in terms {
        let term = term.share()?;
        if list.push(term).is_err() {
            return Err(Stop::Memory);
        }
    }
    Ok(list)
}

fn telescope(alloc: Global, types: &Telescope) -> Result<Telescope, Stop> {
    Ok(Telescope::of(shared(alloc, types.as_slice())?))
}

/// A constructor as it is kept, but without the sorts of its arguments.
fn constructor(alloc: Global, read: &RawCtor) -> Result<Constructor, Stop> {
    let args = telescope(alloc, &read.args)?;
    let result = Terms::of(shared(alloc, read.result.as_slice())?);
    Ok(Constructor {
        name: read.name,
        args,
        arg_sorts: Sorts::of(Vec::new(alloc)),
        result,
    })
}

fn constructors(alloc: Global, read: &[RawCtor]) -> Result<Constructors, Stop> {
    let mut list = Vec::new(alloc);
    for one in read {
        let one = constructor(alloc, one)?;
        if list.push(one).is_err() {
            return Err(Stop::Memory);
        }
    }
    Ok(Constructors::of(list))
}

fn sort(alloc: Global, read: &Sort) -> Result<Sort, Stop> {
    match read.share(alloc) {
        Ok(sort) => Ok(sort),
        Err(_) => Err(Stop::Memory),
    }
}

fn family(alloc: Global, read: &RawFamily) -> Result<Family, Stop> {
    let sort = sort(alloc, &read.sort)?;
    let indices = telescope(alloc, &read.indices)?;
    let ctors = constructors(alloc, read.ctors.as_slice())?;
    Ok(Family {
        name: read.name,
        sort,
        indices,
        ctors,
    })
}

fn families(alloc: Global, read: &[RawFamily]) -> Result<Families, Stop> {
    let mut list = Vec::new(alloc);
    for one in read {
        let one = family(alloc, one)?;
        if list.push(one).is_err() {
            return Err(Stop::Memory);
        }
    }
    Ok(Families::of(list))
}

fn body(read: &Option<Term>) -> Result<Option<Term>, Stop> {
    match read {
        Some(body) => Ok(Some(body.share()?)),
        None => Ok(None),
    }
}

/// A declaration as it is kept.
fn kept(alloc: Global, decl: &RawDecl) -> Result<Kept, Stop>
    ensures whole { IfOk result (λ k. AreHeads k → ⊥) }
{
    match decl {
        RawDecl::Constant {
            name,
            ty,
            body: value,
        } => {
            let (ty, body) = (ty.share()?, body(value)?);
            Ok(Kept::Constant {
                name: *name,
                ty,
                body,
            })
        }
        RawDecl::Block {
            name,
            params,
            families: read,
        } => {
            let params = telescope(alloc, params)?;
            let families = families(alloc, read.as_slice())?;
            Ok(Kept::Block(Block {
                name: *name,
                params,
                families,
            }))
        }
    }
}

/// The environment of the levels that were read and of no constraint, without declarations.
fn empty(alloc: Global, opened: &Opened) -> Result<Env, Fault> {
    let levels = opened.raw.levels.len();
    if levels > 1024 {
        return Err(Fault::Faulty("too many levels"));
    }
    match Graph::build(alloc, levels as u32, &[]) {
        Ok(graph) => Ok(Env::new(alloc, graph)),
        Err(_) => Err(Fault::Memory),
    }
}

/// Keeps a declaration, if its name is new.
fn keep(env: &mut Env, kept: Kept) -> Result<(), Fault>
    requires { AreHeads kept → ⊥ }
{
    if env.find(kept.name()).is_some() {
        return Err(Fault::Faulty("declared twice"));
    }
    done(env.keep(kept))
}

/// The environment that keeps the first of the row's declarations, as many as `count`.
pub fn first_kept(alloc: Global, opened: &Opened, count: usize) -> Result<Env, Fault> {
    let mut env = empty(alloc, opened)?;
    for (place, decl) in opened.raw.decls.as_slice().iter().enumerate() {
        if place < count {
            keep(&mut env, done(kept(alloc, decl))?)?;
        }
    }
    Ok(env)
}

/// The environment that keeps the row's declarations.
pub fn unchecked(alloc: Global, opened: &Opened) -> Result<Env, Fault> {
    first_kept(alloc, opened, opened.declared)
}

//! Declarations as they are read: constants, and blocks of inductive families with their constructors.
use pc_terms::leaf::Name;
use pc_terms::lists::Telescope;
use pc_terms::term::{Term, Terms};
use std::marker::Model;
use universe_levels::sort::Sort;

/// A constructor of an inductive family: the types of its arguments, the outermost first, each under the block's parameters and the
/// arguments before it; and the indices of what it builds, under the parameters and all arguments.
#[derive(Drop)]
pub struct RawCtor {
    pub name: Name,
    pub args: Telescope,
    pub result: Terms,
}

/// An inductive family: its sort, the types of its indices, the outermost first, each under the block's parameters and the indices before
/// it, and its constructors.
#[derive(Drop)]
pub struct RawFamily {
    pub name: Name,
    pub sort: Sort,
    pub indices: Telescope,
    pub ctors: RawCtors,
}

/// A declaration: a constant with its type and its body, if it has one; or a block of families that share their parameters, whose types
/// stand with the outermost first.
#[derive(Drop)]
pub enum RawDecl {
    Constant {
        name: Name,
        ty: Term,
        body: Option<Term>,
    },
    Block {
        name: Name,
        params: Telescope,
        families: RawFamilies,
    },
}

/// A list of constructors.
#[derive(Drop)]
pub struct RawCtors {
    pub(crate) items: Vec<RawCtor>,
}

/// A list of families.
#[derive(Drop)]
pub struct RawFamilies {
    pub(crate) items: Vec<RawFamily>,
}

/// A list of declarations.
#[derive(Drop)]
pub struct RawDecls {
    pub(crate) items: Vec<RawDecl>,
}

impl Model for RawCtors {
    ghost use Rattle.std.specs.Prelude.{List};
    ghost use Rattle.dump_reader.specs.declared.declaration.RawCtor.{RawCtor};
    ghost use Rattle.std.specs.Coded.{codes};
    ghost use Rattle.pc_terms.specs.Code.{coded_term};

    ghost Value = { List RawCtor };

    ghost coded = { Prim.hlevel (codes, coded_term) };

    ghost view = { λ a. a.items.items };
}

impl Model for RawFamilies {
    ghost use Rattle.std.specs.Prelude.{List};
    ghost use Rattle.dump_reader.specs.declared.declaration.RawFamily.{RawFamily};
    ghost use Rattle.std.specs.Coded.{codes};
    ghost use Rattle.pc_terms.specs.Code.{coded_term};

    ghost Value = { List RawFamily };

    ghost coded = { Prim.hlevel (codes, coded_term) };

    ghost view = { λ a. a.items.items };
}

impl Model for RawDecls {
    ghost use Rattle.std.specs.Prelude.{List};
    ghost use Rattle.dump_reader.specs.declared.declaration.RawDecl.{RawDecl};
    ghost use Rattle.std.specs.Coded.{codes};
    ghost use Rattle.pc_terms.specs.Code.{coded_term};

    ghost Value = { List RawDecl };

    ghost coded = { Prim.hlevel (codes, coded_term) };

    ghost view = { λ a. a.items.items };
}

//! Whole environments as they are read.
use crate::declaration::RawDecls;
use crate::names::Names;
use pc_terms::term::Term;
use std::marker::Model;
use universe_levels::constraint::Constraint;
use universe_levels::level::Level;

/// A dumped environment.
#[derive(Drop)]
pub struct RawEnv {
    /// The names of declarations, families and constructors and those in terms, by number: by first use, from 0 on.
    pub names: Names,
    /// The levels by number: `Set` is 0, then those of `levels`, then the others by first use.
    pub level_names: Names,
    /// The items of `levels`, in their order, repeated ones too.
    pub levels: Levels,
    /// What is declared of two levels, in the order of the text.
    pub constraints: Constraints,
    /// The declarations, in the order of the text.
    pub decls: RawDecls,
    pub main: Term,
}

/// A list of levels.
#[derive(Drop)]
pub struct Levels {
    pub(crate) items: Vec<Level>,
}

/// A list of constraints.
#[derive(Drop)]
pub struct Constraints {
    pub(crate) items: Vec<Constraint>,
}

impl Model for Levels {
    ghost use Rattle.std.specs.Prelude.{List};
    ghost use Rattle.universe_levels.specs.declared.level.Level.{Level};

    ghost Value = { List Level };

    ghost view = { λ a. a.items.items };
}

impl Model for Constraints {
    ghost use Rattle.std.specs.Prelude.{List};
    ghost use Rattle.universe_levels.specs.declared.constraint.Constraint.{Constraint};

    ghost Value = { List Constraint };

    ghost view = { λ a. a.items.items };
}

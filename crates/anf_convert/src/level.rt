//! Atoms whose variables are counted from the outside, and those of the variables at a place.
ghost use Rattle.std.specs.Prelude.{◌≡◌, ◌+◌, IfOk, IfErr, [], ◌∷◌, drop};
ghost use Rattle.anf_convert.specs.ToAnf.{at_depth, nth, levels};
ghost use Rattle.lambda_box.specs.declared.fault.PassFault.TheVariants.{Memory};

use crate::program::Atom;
use lambda_box::PassFault;
use std::alloc::Global;
use std::marker::Model;

/// An atom whose variable is counted from the outside: the number of variables outside its own, which stays the same under more variables.
#[derive(Clone, Copy, Debug, PartialEq, Eq)]
pub(crate) enum Level {
    /// A variable by the number of variables outside it.
    Var(u32),
    /// Box.
    Box,
    /// A constructor without arguments: its number in its family.
    Empty(u32),
}

impl Level {
    /// The atom under `depth` variables.
    pub(crate) fn at_depth(self, depth: u32) -> Atom
        ensures is { result ≡ at_depth depth self }
    {
        match self {
            Level::Var(x) => Atom::Var(depth.saturating_sub(x).saturating_sub(1)),
            Level::Box => Atom::Box,
            Level::Empty(c) => Atom::Empty(c),
        }
    }
}

/// What stands for the variables at a place of a term. Contracts see the innermost first.
#[derive(Drop)]
pub(crate) struct Levels {
    items: Vec<Level>,
}

impl Model for Levels {
    ghost use Rattle.std.specs.Prelude.{List, reverse};
    ghost use Rattle.anf_convert.specs.declared.level.Level.{Level};

    ghost Value = { List Level };

    ghost view = { λ a. reverse a.items.items };
}

impl Levels {
    /// No variable; the list grows by `alloc`.
    pub(crate) fn new(alloc: Global) -> Levels
        ensures empty { result ≡ [] }
    {
        Levels {
            items: Vec::new(alloc),
        }
    }

    /// What stands for variable `i`, the innermost 0; box where there is no such variable.
    pub(crate) fn get(&self, i: u32) -> Level
        ensures is { result ≡ nth self.now i }
    {
        let n = self.items.len();
        let i = i as usize;
        if i < n {
            self.items[n - 1 - i]
        } else {
            Level::Box
        }
    }

    /// One more variable, the innermost. Only `Memory`.
    pub(crate) fn push(&mut self, level: Level) -> Result<(), PassFault>
        ensures ok { IfOk result (λ _. self.new ≡ level ∷ self.old) }
        ensures only_memory { IfErr result (λ e. e ≡ Memory) }
    {
        match self.items.push(level) {
            Ok(()) => Ok(()),
            Err(_) => Err(PassFault::Memory),
        }
    }

    /// `n` more variables at a place of `depth` variables, the last one innermost; gives the number of variables then. `Memory` too where
    /// that passes 4,294,967,295.
    pub(crate) fn enter(&mut self, depth: u32, n: u32) -> Result<u32, PassFault>
        ensures depth { IfOk result (λ d. d ≡ depth + n) }
        ensures ok { IfOk result (λ _. self.new ≡ levels depth n self.old) }
        ensures only_memory { IfErr result (λ e. e ≡ Memory) }
    {
        let Some(inner) = depth.checked_add(n) else {
            return Err(PassFault::Memory);
        };
        for i in 0..n {
            self.push(Level::Var(depth + i))?;
        }
        Ok(inner)
    }

    /// Takes the `n` innermost variables away.
    pub(crate) fn leave(&mut self, n: u32)
        ensures is { self.new ≡ drop n self.old }
    {
        let left = self.items.len().saturating_sub(n as usize);
        self.items.truncate(left);
    }
}

//! The variables at a place of a program.
ghost use Rattle.std.specs.Prelude.{◌≡◌, ℕ, ◌+◌, ◌-◌, [], ◌∷◌, ◌++◌, IfOk, IfErr, OnOk, drop, get_or};
ghost use Rattle.anf_convert.specs.Captured.{Outside, Plain, Shared, depth, entry, shares};
ghost use Rattle.closure_lift.specs.Lift.{numbered};
ghost use Rattle.closure_lift.specs.FreeVariables.{level_words};
ghost use Rattle.closure_lift.specs.Variables.{entry_found, number_found, outer};
ghost use Rattle.closure_lift.specs.declared.fault.LiftFault.TheVariants.{Memory};

use crate::fault::LiftFault;
use crate::words::sum_of;
use pc_terms::lists::Numbers;
use std::alloc::Global;
use std::marker::Model;
use std::rc::Rc;

/// A variable.
#[derive(Drop)]
pub(crate) enum Variable {
    /// One that holds a word: the number of such variables outside it.
    Word(u32),
    /// A fixpoint's: the number of its function, and the captured words of the fixpoint.
    Fix(usize, Rc<Numbers>),
}

/// What is known of a variable.
#[derive(Drop)]
pub(crate) enum Found<'a> {
    /// There is none.
    Unbound,
    /// It holds a word.
    Word(u32),
    /// It is a fixpoint's: the number of its function, and the captured words of the fixpoint.
    Fix(usize, &'a Numbers),
}

/// The variables at a place of a program. Contracts see them as a scope, with the number of the function of each variable that is a fixpoint's.
#[derive(Drop)]
pub(crate) struct Variables {
    entries: Vec<Variable>,
    depth: u32,
}

impl Model for Variables {
    ghost use Rattle.std.specs.Prelude.{ℕ, List, reverse};
    ghost use Rattle.anf_convert.specs.Captured.{Scope};

    ghost Value = { Scope × List ℕ };

    ghost use Rattle.std.specs.Coded.{coded×, coded_list, coded_ℕ};
    ghost use Rattle.closure_lift.specs.ScopeCode.{coded_scope};

    ghost coded = { coded× coded_scope (coded_list coded_ℕ) };

    ghost use Rattle.closure_lift.specs.Variables.{scope_of, numbers_of, AreNumbered};

    ghost view = { λ a. (scope_of (reverse a.entries.items), numbers_of (reverse a.entries.items)) };

    ghost invariant = { λ a. AreNumbered a.depth (reverse a.entries.items) };
}

impl Variables {
    /// No variable.
    pub(crate) fn new(alloc: Global) -> Variables
        ensures none { result ≡ (Outside, []) }
    {
        Variables {
            entries: Vec::new(alloc),
            depth: 0,
        }
    }

    /// How many of them hold words.
    pub(crate) fn depth(&self) -> u32
        ensures is { result ≡ depth self.now.0 }
    {
        self.depth
    }

    /// One more variable that holds a word, the innermost. Only `Memory`.
    pub(crate) fn push_word(&mut self) -> Result<(), LiftFault>
        ensures ok { OnOk result (self.new ≡ (Plain self.old.0, 0 ∷ self.old.1)) }
        ensures only_memory { IfErr result (λ e. e ≡ Memory) }
    {
        let depth = sum_of(1, self.depth)?;
        match self.entries.push(Variable::Word(self.depth)) {
            Ok(()) => {
                self.depth = depth;
                Ok(())
            }
            Err(_) => Err(LiftFault::Memory),
        }
    }

    /// One more variable of a fixpoint with these captured words, the innermost. Only `Memory`.
    pub(crate) fn push_fix(&mut self, number: usize, words: &Rc<Numbers>) -> Result<(), LiftFault>
        ensures ok { OnOk result (self.new ≡ (Shared words.now.value self.old.0, number ∷ self.old.1)) }
        ensures only_memory { IfErr result (λ e. e ≡ Memory) }
    {
        let Ok(shared) = words.clone() else {
            return Err(LiftFault::Memory);
        };
        match self.entries.push(Variable::Fix(number, shared)) {
            Ok(()) => Ok(()),
            Err(_) => Err(LiftFault::Memory),
        }
    }

    /// Forgets the innermost variable.
    fn pop(&mut self)
        ensures is { self.new ≡ (outer 1 self.old.0, drop 1 self.old.1) }
    {
        if let Some(Variable::Word(depth)) = self.entries.pop() {
            self.depth = depth;
        }
    }

    /// Forgets the `n` innermost variables.
    pub(crate) fn forget(&mut self, n: usize)
        ensures is { self.new ≡ (outer n self.old.0, drop n self.old.1) }
    {
        for _i in 0..n {
            self.pop();
        }
    }

    /// What is known of variable `i`, the innermost being 0.
    pub(crate) fn find(&self, i: u32) -> Found<'_>
        ensures entry { entry_found result ≡ entry self.now.0 i }
        ensures number { number_found result ≡ get_or self.now.1 i 0 }
    {
        let entries = self.entries.as_slice();
        let count = entries.len();
        if i as usize >= count {
            return Found::Unbound;
        }
        let at = count - 1 - i as usize;
        match &entries[at] {
            Variable::Word(word) => Found::Word(*word),
            Variable::Fix(number, words) => Found::Fix(*number, &**words),
        }
    }

    /// Puts the words that stand for the variable of a level behind the others. Only `Memory`.
    pub(crate) fn name_words(&self, level: u32, names: &mut Vec<u32>) -> Result<(), LiftFault>
        ensures names { OnOk result (names.new.items ≡ names.old.items ++ level_words self.now.0 level) }
        ensures only_memory { IfErr result (λ e. e ≡ Memory) }
    {
        let entries = self.entries.as_slice();
        let at = level as usize;
        if at >= entries.len() {
            return Ok(());
        }
        match &entries[at] {
            Variable::Word(word) => {
                if names.push(*word).is_err() {
                    return Err(LiftFault::Memory);
                }
                Ok(())
            }
            Variable::Fix(_, words) => {
                if names.extend_from_slice(words.as_slice()).is_err() {
                    return Err(LiftFault::Memory);
                }
                Ok(())
            }
        }
    }
}

/// The `count` variables of a fixpoint with these captured words, whose functions are numbered from `number` on. Only `Memory`.
pub(crate) fn push_fixes(
    variables: &mut Variables,
    count: u32,
    number: usize,
    words: &Rc<Numbers>,
) -> Result<(), LiftFault>
    ensures ok { OnOk result (variables.new ≡ (shares words.now.value count variables.old.0, numbered number count variables.old.1)) }
    ensures only_memory { IfErr result (λ e. e ≡ Memory) }
{
    for i in 0..count {
        let Some(function) = number.checked_add(i as usize) else {
            return Err(LiftFault::Memory);
        };
        variables.push_fix(function, words)?;
    }
    Ok(())
}

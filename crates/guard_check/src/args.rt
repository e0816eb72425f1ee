//! Arguments of a term that is walked.
ghost use Rattle.std.specs.Prelude.{◌≡◌, ◌∷◌, [], MatchOption, Some, None, slice_get};

use pc_terms::term::Term;
use std::marker::Model;

/// The arguments to which a term is applied, the first first.
#[cycle(args)]
#[derive(Drop)]
pub(crate) struct Args<'a> {
    first: Option<Argument<'a>>,
}

/// An argument, and those after it.
#[cycle(args)]
#[derive(Drop)]
struct Argument<'a> {
    term: &'a Term,
    rest: &'a Args<'a>,
}

impl<'a> Model for Args<'a> {
    ghost use Rattle.std.specs.Prelude.{List, length};
    ghost use Rattle.std.specs.Coded.{coded_list};
    ghost use Rattle.pc_terms.specs.Syntax.{Term};
    ghost use Rattle.pc_terms.specs.Code.{coded_term};

    ghost Value = { List Term };

    ghost coded = { coded_list coded_term };

    ghost use Rattle.guard_check.specs.Arguments.{arguments};

    ghost view = { λ a. arguments a.first };

    ghost size = { length };
}

impl<'a> Args<'a> {
    /// No argument.
    pub fn none() -> Args<'a>
        ensures empty { result ≡ [] }
    {
        Args { first: None }
    }

    /// One argument before others.
    pub fn with(term: &'a Term, rest: &'a Args<'a>) -> Args<'a>
        ensures longer { result ≡ term.now ∷ rest.now }
    {
        Args {
            first: Some(Argument { term, rest }),
        }
    }

    /// Argument i, from 0.
    pub fn get(&self, i: u32) -> Option<&Term>
        ensures at { MatchOption result (slice_get self.now i ≡ None) (λ t. slice_get self.now i ≡ Some t.now) }
    {
        match &self.first {
            None => None,
            Some(argument) => {
                if i == 0 {
                    Some(argument.term)
                } else {
                    argument.rest.get(i - 1)
                }
            }
        }
    }
}

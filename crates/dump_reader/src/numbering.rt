//! The tables of names and of levels, which grow as a tree is read, with the numbers that names had last and the terms without subterms that
//! were made.
ghost use Rattle.std.specs.Prelude.{◌≡◌, ◌∷◌, [], IfOk, IfErr};
ghost use Rattle.dump_grammar.specs.declared.refusal.ReadRefusal.TheVariants.{Memory};
ghost use Rattle.dump_grammar.specs.declared.keyword.Keyword.TheVariants as words;
ghost use Rattle.dump_grammar.specs.Keywords.{spelling};
ghost use Rattle.dump_reader.specs.Numbered.{name_number, level_number};
ghost use Rattle.pc_terms.specs.Syntax.{SortT};
ghost use Rattle.dump_reader.specs.Growth.{Numbers, unused};
ghost use Rattle.dump_reader.specs.Leaves.{leaf_term};

use crate::leaves::{Leaf, Leaves};
use crate::making::made;
use crate::names::Names;
use crate::recent::Recent;
use dump_grammar::ReadRefusal;
use pc_terms::leaf::Name;
use pc_terms::term::{Node, Term};
use std::alloc::Global;
use universe_levels::level::Level;
use universe_levels::sort::Sort;

/// The names and the levels that have been used, by number, the numbers that names had last, and the terms without subterms that were made.
#[derive(Drop)]
pub(crate) struct Tables {
    pub(crate) names: Names,
    pub(crate) levels: Names,
    recent: Recent,
    leaves: Leaves,
}

impl Tables {
    /// The tables of a text that begins: no name, and the level `Set`.
    pub(crate) fn new(alloc: Global) -> Result<Tables, ReadRefusal>
        ensures names { IfOk result (λ tables. tables.names ≡ []) }
        ensures levels { IfOk result (λ tables. tables.levels ≡ spelling words.Set ∷ []) }
        ensures only_memory { IfErr result (λ e. e ≡ Memory) }
    {
        let mut levels = Names::new(alloc);
        levels.number(alloc, "Set")?;
        let names = Names::new(alloc);
        let recent = Recent::new(alloc);
        let leaves = Leaves::new(alloc);
        Ok(Tables {
            names,
            levels,
            recent,
            leaves,
        })
    }

    /// The number of a name at a use of it. Mostly it is the one that was last at the name's place.
    pub(crate) fn name(&mut self, alloc: Global, text: &str) -> Result<Name, ReadRefusal>
        ensures made { IfOk result (Numbers (λ after. text.now ∷ after) unused (λ ns ls. name_number ns text.now) self.old self.new) }
        ensures only_memory { IfErr result (λ e. e ≡ Memory) }
    {
        let last = self.recent.last(text.as_bytes());
        if self.names.is_text_of(last, text.as_bytes()) {
            return Ok(Name(last));
        }
        let number = self.names.number(alloc, text)?;
        self.recent.keep(text.as_bytes(), number);
        Ok(Name(number))
    }

    /// The number of a level at a use of it.
    pub(crate) fn level(&mut self, alloc: Global, text: &str) -> Result<Level, ReadRefusal>
        ensures made { IfOk result (Numbers unused (λ after. text.now ∷ after) (λ ns ls. level_number ls text.now) self.old self.new) }
        ensures only_memory { IfErr result (λ e. e ≡ Memory) }
    {
        let number = self.levels.number(alloc, text)?;
        Ok(Level(number))
    }

    /// The term of a leaf.
    pub(crate) fn leaf(&mut self, alloc: Global, leaf: Leaf) -> Result<Term, ReadRefusal>
        ensures ok { IfOk result (λ t. t ≡ leaf_term leaf) }
        ensures names { self.new.names ≡ self.old.names }
        ensures levels { self.new.levels ≡ self.old.levels }
        ensures only_memory { IfErr result (λ e. e ≡ Memory) }
    {
        self.leaves.term(alloc, leaf)
    }

    /// The term of a sort.
    pub(crate) fn sort(&mut self, alloc: Global, sort: Sort) -> Result<Term, ReadRefusal>
        ensures ok { IfOk result (λ t. t ≡ SortT sort) }
        ensures names { self.new.names ≡ self.old.names }
        ensures levels { self.new.levels ≡ self.old.levels }
        ensures only_memory { IfErr result (λ e. e ≡ Memory) }
    {
        match sort {
            Sort::Prop => self.leaf(alloc, Leaf::Prop),
            Sort::Of(universe) => made(alloc, Node::Sort(Sort::Of(universe))),
        }
    }
}

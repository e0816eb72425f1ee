//! The reader of a text, part by part.

ghost use Rattle.std.specs.Prelude.{◌≡◌, [], ◌∷◌, ◌++◌, length};
ghost use Rattle.sexp_reader.specs.Lex.{tokens_of};
ghost use Rattle.dump_grammar.specs.declared.keyword.Keyword.TheVariants as words;
ghost use Rattle.dump_grammar.specs.Table.{IOpen, IWord, IVersion};
ghost use Rattle.dump_grammar.specs.Judge.{verdict};
ghost use Rattle.dump_parser.specs.Environment.{head_items, head_values};
ghost use Rattle.dump_parser.specs.Reading.{Reads};
ghost use Rattle.dump_parser.specs.Ending.{Ends};
ghost use Rattle.dump_parser.specs.Stages.{at_start, ReadsHead, ReadsNext, IsShorter, ReadsMain};

use crate::declaration::declaration;
use crate::environment::{DeclTree, HeadTree};
use crate::leaves::Leaves;
use crate::level::{constraints, levels};
use crate::number::version;
use crate::term::last_term;
use crate::token::{close, next, open, word};
use crate::tree::Tree;
use dump_grammar::{Keyword, ReadRefusal};
use sexp_reader::Tokens;
use std::alloc::Global;

/// The front of an environment, up to its version.
fn header(tokens: &mut Tokens) -> Result<(), ReadRefusal>
    ensures reads { Reads result tokens.old tokens.new (IOpen ∷ IWord words.Env ∷ IVersion ∷ []) [] (λ x vs. vs) }
{
    open(tokens)?;
    word(tokens, Keyword::Env)?;
    version(tokens)?;
    Ok(())
}

/// The head of an environment, from its bracket to its constraints.
#[tactic(auto, using(crate::proofs::Steps::judged_do))]
fn head<'a>(alloc: Global, tokens: &mut Tokens<'a>) -> Result<HeadTree<'a>, ReadRefusal>
    ensures reads { Reads result tokens.old tokens.new head_items [] (λ h vs. head_values h ++ vs) }
{
    header(tokens)?;
    let levels = levels(alloc, tokens)?;
    let constraints = constraints(alloc, tokens)?;
    Ok(HeadTree {
        levels,
        constraints,
    })
}

/// Nothing but blanks and comments is left.
fn end(tokens: &mut Tokens) -> Result<(), ReadRefusal>
    ensures ends { Ends result tokens.old }
{
    match next(tokens)? {
        Some(token) => Err(ReadRefusal::Syntax {
            offset: token.start,
        }),
        None => Ok(()),
    }
}

/// A text that is being read: the tokens that are still to come, and the terms without subterms that were made, which are shared.
///
/// Its parts are read in turn: the head, then declarations until there is none, then main, which ends the text. `Syntax`, `Unsupported` and `Limit` come
/// exactly where the verdict of the grammar has them, `Memory` where there is no memory, or where a binder has more than 4,294,967,295 names. Brackets
/// nest at most 1,000 deep, and calls with them, a few for each.
#[derive(Drop)]
pub struct Parser<'a> {
    tokens: Tokens<'a>,
    leaves: Leaves<'a>,
}

impl<'a> Parser<'a> {
    /// The reader of a text, at its start.
    pub fn new(alloc: Global, bytes: &'a [u8]) -> Parser<'a>
        ensures start { at_start result ≡ verdict (length bytes.now) (tokens_of bytes.now) }
    {
        Parser {
            tokens: Tokens::new(bytes),
            leaves: Leaves::new(alloc),
        }
    }

    /// The levels and the constraints, which stand at the start of the text.
    pub fn head(&mut self, alloc: Global) -> Result<HeadTree<'a>, ReadRefusal>
        ensures reads { ReadsHead result self.old self.new }
    {
        head(alloc, &mut self.tokens)
    }

    /// The declaration that follows the head and so many declarations, or none where main follows. `Limit` of the declarations, at its bracket,
    /// where it is one too many.
    pub fn declaration(
        &mut self,
        alloc: Global,
        before: usize,
    ) -> Result<Option<DeclTree<'a>>, ReadRefusal>
        ensures reads { ReadsNext result self.old self.new before }
        ensures shorter { IsShorter result self.old self.new }
    {
        declaration(alloc, &mut self.leaves, &mut self.tokens, before)
    }

    /// Main, behind which the text ends.
    pub fn main(&mut self, alloc: Global) -> Result<Tree<'a>, ReadRefusal>
        ensures reads { ReadsMain result self.old }
    {
        let main = last_term(alloc, &mut self.leaves, &mut self.tokens)?;
        close(&mut self.tokens)?;
        end(&mut self.tokens)?;
        Ok(main)
    }
}

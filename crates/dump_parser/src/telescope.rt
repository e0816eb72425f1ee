//! Telescopes of the text.

ghost use Rattle.std.specs.Prelude.{[], ◌∷◌, ◌++◌};
ghost use Rattle.dump_grammar.specs.Table.{IOpen, IWord, IParams, IBinder, IEntryEnd, ITerm, IList, Telescope, Do, NoTypes, AddType, act, VTerm, VTypes};
ghost use Rattle.dump_parser.specs.Reading.{Reads};

use crate::leaves::Leaves;
use crate::list::{Member, next_member};
use crate::term::term;
use crate::token::{binder, entry_end, open, params_word, word};
use crate::tree::Tree;
use dump_grammar::{Keyword, Limit, ReadRefusal};
use sexp_reader::Tokens;
use std::alloc::Global;

/// The most entries that a telescope may have.
const MAX_TELESCOPE: usize = 255;

/// An entry of a telescope, after its bracket: its type.
#[tactic(auto, using(crate::proofs::Steps::judged_do))]
fn entry<'a>(
    alloc: Global,
    leaves: &mut Leaves<'a>,
    tokens: &mut Tokens<'a>,
) -> Result<Tree<'a>, ReadRefusal>
    ensures reads { Reads result tokens.old tokens.new (IBinder ∷ ITerm ∷ Do AddType IEntryEnd ∷ []) [] (λ t vs. act AddType (VTerm t ∷ vs)) }
{
    binder(tokens)?;
    let t = term(alloc, leaves, tokens)?;
    entry_end(tokens)?;
    Ok(t)
}

/// The entries of a telescope, up to the bracket that closes them: their types, the outermost first.
#[tactic(auto, using(crate::proofs::Steps::judged_do))]
fn entries<'a>(
    alloc: Global,
    leaves: &mut Leaves<'a>,
    tokens: &mut Tokens<'a>,
) -> Result<Vec<Tree<'a>>, ReadRefusal>
    ensures reads { Reads result tokens.old tokens.new (Do NoTypes (IList Telescope) ∷ []) [] (λ v vs. VTypes v.items ∷ vs) }
{
    let mut list = Vec::new(alloc);
    loop {
        match next_member(tokens)? {
            Member::Close(_) => return Ok(list),
            Member::Open(offset) => {
                if list.len() >= MAX_TELESCOPE {
                    return Err(ReadRefusal::Limit {
                        which: Limit::Telescope,
                        offset,
                    });
                }
                let t = entry(alloc, leaves, tokens)?;
                list.push(t)?;
            }
        }
    }
}

/// A telescope after a word, in brackets.
pub(crate) fn telescope<'a>(
    alloc: Global,
    leaves: &mut Leaves<'a>,
    tokens: &mut Tokens<'a>,
    expected: Keyword,
) -> Result<Vec<Tree<'a>>, ReadRefusal>
    ensures reads { Reads result tokens.old tokens.new (IOpen ∷ IWord expected ∷ Do NoTypes (IList Telescope) ∷ []) [] (λ v vs. VTypes v.items ∷ vs) }
{
    open(tokens)?;
    word(tokens, expected)?;
    let list = entries(alloc, leaves, tokens)?;
    Ok(list)
}

/// The parameters of a block, in brackets.
pub(crate) fn params<'a>(
    alloc: Global,
    leaves: &mut Leaves<'a>,
    tokens: &mut Tokens<'a>,
) -> Result<Vec<Tree<'a>>, ReadRefusal>
    ensures reads { Reads result tokens.old tokens.new (IOpen ∷ IParams ∷ Do NoTypes (IList Telescope) ∷ []) [] (λ v vs. VTypes v.items ∷ vs) }
{
    open(tokens)?;
    params_word(tokens)?;
    let list = entries(alloc, leaves, tokens)?;
    Ok(list)
}

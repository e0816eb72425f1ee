//! Sorts of the text.

ghost use Rattle.std.specs.Prelude.{◌≡◌, [], ◌∷◌, ◌++◌, map};
ghost use Rattle.dump_grammar.specs.Table.{ISort, IWord, IOpen, ILevel, IAdd, IClose, IList, Parts, Do, NoParts, AddPart, act, VNumber, VName, VParts, VSort};
ghost use Rattle.dump_grammar.specs.declared.keyword.Keyword.TheVariants as words;
ghost use Rattle.dump_parser.specs.Reading.{Reads};
ghost use Rattle.dump_parser.specs.Tree.{named_sort, part_of};
ghost use Rattle.dump_parser.specs.Words.{IsSort};

use crate::list::{Member, next_member};
use crate::number::add;
use crate::token::{close, level, next, open, word};
use crate::tree::{LevelPart, SortTree};
use dump_grammar::{Foreign, Keyword, ReadRefusal, is_word};
use sexp_reader::{TokenKind, Tokens};
use std::alloc::Global;

/// The sort of a word. `SProp` is a form that is known and not read.
#[tactic(auto, unfolding(dump_grammar::specs::Keywords::spelling))]
fn sort_of_word<'a>(alloc: Global, text: &[u8], offset: usize) -> Result<SortTree<'a>, ReadRefusal>
    ensures sort { IsSort result text.now offset }
{
    if is_word(text, Keyword::Prop) {
        Ok(SortTree::Prop)
    } else if is_word(text, Keyword::Set) {
        let set = LevelPart {
            level: "Set",
            add: 0,
        };
        Ok(SortTree::Type(set, Vec::new(alloc)))
    } else if is_word(text, Keyword::SProp) {
        Err(ReadRefusal::Unsupported {
            what: Foreign::SProp,
            offset,
        })
    } else {
        Err(ReadRefusal::Syntax { offset })
    }
}

/// A level and what is added to it, after its bracket.
#[tactic(auto, using(crate::proofs::Steps::judged_do))]
fn part<'a>(tokens: &mut Tokens<'a>) -> Result<LevelPart<'a>, ReadRefusal>
    ensures reads { Reads result tokens.old tokens.new (ILevel ∷ IAdd ∷ Do AddPart IClose ∷ []) [] (λ p vs. act AddPart (VNumber p.add ∷ VName p.level.now ∷ vs)) }
{
    let level = level(tokens)?;
    let add = add(tokens)?;
    close(tokens)?;
    Ok(LevelPart { level, add })
}

/// The further parts of a sort, up to the bracket that closes it, and the whole sort.
#[tactic(auto, using(crate::proofs::Steps::judged_do))]
fn parts<'a>(
    alloc: Global,
    tokens: &mut Tokens<'a>,
    first: LevelPart<'a>,
) -> Result<SortTree<'a>, ReadRefusal>
    ensures reads { Reads result tokens.old tokens.new (IList Parts ∷ []) (VParts (part_of first.entry ∷ []) ∷ []) (λ s vs. VSort (named_sort s) ∷ vs) }
{
    let mut list = Vec::new(alloc);
    loop {
        match next_member(tokens)? {
            Member::Close(_) => return Ok(SortTree::Type(first, list)),
            Member::Open(_) => {
                let p = part(tokens)?;
                list.push(p)?;
            }
        }
    }
}

/// The sort of a maximum of levels, after its bracket.
#[tactic(auto, using(crate::proofs::Steps::judged_do))]
fn maximum<'a>(alloc: Global, tokens: &mut Tokens<'a>) -> Result<SortTree<'a>, ReadRefusal>
    ensures reads { Reads result tokens.old tokens.new (IWord words.Type ∷ Do NoParts IOpen ∷ ILevel ∷ IAdd ∷ Do AddPart IClose ∷ IList Parts ∷ []) [] (λ s vs. VSort (named_sort s) ∷ vs) }
{
    word(tokens, Keyword::Type)?;
    open(tokens)?;
    let first = part(tokens)?;
    let s = parts(alloc, tokens, first)?;
    Ok(s)
}

/// A sort.
pub(crate) fn sort<'a>(alloc: Global, tokens: &mut Tokens<'a>) -> Result<SortTree<'a>, ReadRefusal>
    ensures reads { Reads result tokens.old tokens.new (ISort ∷ []) [] (λ s vs. VSort (named_sort s) ∷ vs) }
{
    match next(tokens)? {
        Some(token) if token.kind == TokenKind::Open => {
            let s = maximum(alloc, tokens)?;
            Ok(s)
        }
        Some(token) if token.kind == TokenKind::Atom => {
            let s = sort_of_word(alloc, tokens.text(token), token.start)?;
            Ok(s)
        }
        Some(token) => Err(ReadRefusal::Syntax {
            offset: token.start,
        }),
        None => Err(ReadRefusal::Syntax {
            offset: tokens.len(),
        }),
    }
}

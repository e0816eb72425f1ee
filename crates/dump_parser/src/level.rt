//! The levels of an environment and the constraints on them.

ghost use Rattle.std.specs.Prelude.{◌≡◌, [], ◌∷◌, ◌++◌, map};
ghost use Rattle.dump_grammar.specs.declared.keyword.Keyword.TheVariants as words;
ghost use Rattle.dump_grammar.specs.Words.{comparison_of};
ghost use Rattle.dump_grammar.specs.Table.{IOpen, IClose, IWord, ILevel, ILevels, IComparison, IList, Constraints, Do, NoNames, NoConstraints, AddConstraint, act, VName, VNames, VComparison, VConstraints};
ghost use Rattle.dump_parser.specs.Reading.{Reads};
ghost use Rattle.dump_parser.specs.Environment.{named_relation, named_constraint, comparison};

use crate::environment::{ConstraintTree, Relation};
use crate::list::{Member, next_member};
use crate::token::{close, level, next, open, text_of, word};
use dump_grammar::{Foreign, Keyword, Limit, ReadRefusal, is_word};
use sexp_reader::{TokenKind, Tokens};
use std::alloc::Global;

/// The most items of the levels.
const MAX_LEVELS: usize = 1024;
/// The most constraints.
const MAX_CONSTRAINTS: usize = 16384;

/// The names of the levels, up to the bracket that closes them. The level Set isn't allowed.
#[tactic(auto, using(crate::proofs::Steps::judged_do, crate::proofs::Maps::map_laws))]
fn names<'a>(alloc: Global, tokens: &mut Tokens<'a>) -> Result<Vec<&'a str>, ReadRefusal>
    ensures reads { Reads result tokens.old tokens.new (Do NoNames ILevels ∷ []) [] (λ v vs. VNames (map (λ a. a.now) v.items) ∷ vs) }
{
    let mut list = Vec::new(alloc);
    loop {
        match next(tokens)? {
            Some(token) if token.kind == TokenKind::Close => return Ok(list),
            Some(token) if token.kind == TokenKind::Atom => {
                let text = tokens.text(token);
                if is_word(text, Keyword::Set) {
                    return Err(ReadRefusal::Syntax {
                        offset: token.start,
                    });
                }
                if list.len() >= MAX_LEVELS {
                    return Err(ReadRefusal::Limit {
                        which: Limit::Levels,
                        offset: token.start,
                    });
                }
                list.push(text_of(text))?;
            }
            Some(token) => {
                return Err(ReadRefusal::Unsupported {
                    what: Foreign::LevelVariable,
                    offset: token.start,
                });
            }
            None => {
                return Err(ReadRefusal::Syntax {
                    offset: tokens.len(),
                });
            }
        }
    }
}

/// The levels, in brackets.
pub(crate) fn levels<'a>(
    alloc: Global,
    tokens: &mut Tokens<'a>,
) -> Result<Vec<&'a str>, ReadRefusal>
    ensures reads { Reads result tokens.old tokens.new (IOpen ∷ IWord words.Levels ∷ Do NoNames ILevels ∷ []) [] (λ v vs. VNames (map (λ a. a.now) v.items) ∷ vs) }
{
    open(tokens)?;
    word(tokens, Keyword::Levels)?;
    let list = names(alloc, tokens)?;
    Ok(list)
}

/// The relation that a word stands for, if it stands for one.
#[tactic(auto, unfolding(dump_grammar::specs::Words::comparison_of))]
fn relation_of(text: &[u8]) -> Option<Relation>
    ensures relation { comparison result ≡ comparison_of text.now }
{
    if is_word(text, Keyword::Lt) {
        Some(Relation::Less)
    } else if is_word(text, Keyword::Le) {
        Some(Relation::AtMost)
    } else if is_word(text, Keyword::Eq) {
        Some(Relation::Equal)
    } else {
        None
    }
}

/// The relation of a constraint.
fn relation(tokens: &mut Tokens) -> Result<Relation, ReadRefusal>
    ensures reads { Reads result tokens.old tokens.new (IComparison ∷ []) [] (λ r vs. VComparison (named_relation r) ∷ vs) }
{
    match next(tokens)? {
        Some(token) if token.kind == TokenKind::Atom => match relation_of(tokens.text(token)) {
            Some(relation) => Ok(relation),
            None => Err(ReadRefusal::Syntax {
                offset: token.start,
            }),
        },
        Some(token) => Err(ReadRefusal::Syntax {
            offset: token.start,
        }),
        None => Err(ReadRefusal::Syntax {
            offset: tokens.len(),
        }),
    }
}

/// A constraint, after its bracket.
#[tactic(auto, using(crate::proofs::Steps::judged_do))]
fn constraint<'a>(tokens: &mut Tokens<'a>) -> Result<ConstraintTree<'a>, ReadRefusal>
    ensures reads { Reads result tokens.old tokens.new (IComparison ∷ ILevel ∷ ILevel ∷ Do AddConstraint IClose ∷ []) [] (λ c vs. act AddConstraint (VName c.right.now ∷ VName c.left.now ∷ VComparison (named_relation c.relation) ∷ vs)) }
{
    let relation = relation(tokens)?;
    let left = level(tokens)?;
    let right = level(tokens)?;
    close(tokens)?;
    Ok(ConstraintTree {
        relation,
        left,
        right,
    })
}

/// The constraints, up to the bracket that closes them.
#[tactic(auto, using(crate::proofs::Steps::judged_do, crate::proofs::Maps::map_laws))]
fn constraint_list<'a>(
    alloc: Global,
    tokens: &mut Tokens<'a>,
) -> Result<Vec<ConstraintTree<'a>>, ReadRefusal>
    ensures reads { Reads result tokens.old tokens.new (Do NoConstraints (IList Constraints) ∷ []) [] (λ v vs. VConstraints (map named_constraint v.items) ∷ vs) }
{
    let mut list = Vec::new(alloc);
    loop {
        match next_member(tokens)? {
            Member::Close(_) => return Ok(list),
            Member::Open(offset) => {
                if list.len() >= MAX_CONSTRAINTS {
                    return Err(ReadRefusal::Limit {
                        which: Limit::Constraints,
                        offset,
                    });
                }
                let c = constraint(tokens)?;
                list.push(c)?;
            }
        }
    }
}

/// The constraints, in brackets.
pub(crate) fn constraints<'a>(
    alloc: Global,
    tokens: &mut Tokens<'a>,
) -> Result<Vec<ConstraintTree<'a>>, ReadRefusal>
    ensures reads { Reads result tokens.old tokens.new (IOpen ∷ IWord words.Constraints ∷ Do NoConstraints (IList Constraints) ∷ []) [] (λ v vs. VConstraints (map named_constraint v.items) ∷ vs) }
{
    open(tokens)?;
    word(tokens, Keyword::Constraints)?;
    let list = constraint_list(alloc, tokens)?;
    Ok(list)
}

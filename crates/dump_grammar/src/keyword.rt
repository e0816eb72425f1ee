//! The fixed words of the text, and what some of them stand for.

ghost use Rattle.std.specs.Prelude.{◌≡◌, bytes_eq};
ghost use Rattle.dump_grammar.specs.Keywords.{spelling};
ghost use Rattle.dump_grammar.specs.Words.{former_of as former, foreign_of as foreign, opening_of as opening};

use crate::refusal::Foreign;

/// A fixed word of the text: of environments, then of sorts, then the heads of terms and the words inside them, then the heads of terms that are
/// known and not read.
#[derive(Clone, Copy, Debug, PartialEq, Eq)]
pub enum Keyword {
    Env,
    One,
    Levels,
    Constraints,
    Lt,
    Le,
    Eq,
    ConstantDecl,
    NoBody,
    InductiveDecl,
    CoInductiveDecl,
    Universes,
    Params,
    Family,
    Sort,
    Indices,
    Ctor,
    Args,
    Result,
    Main,
    Prop,
    SProp,
    Set,
    Type,
    Rel,
    TermSort,
    Prod,
    Lambda,
    LetIn,
    App,
    Const,
    Ind,
    Construct,
    Case,
    Pred,
    Branch,
    Fix,
    Def,
    Cast,
    Var,
    Evar,
    Proj,
    CoFix,
    Int,
    Float,
    String,
    Array,
}

/// The head of a term that is read: it says which items follow (`row` of `specs/Table.antt`).
#[derive(Clone, Copy, Debug, PartialEq, Eq)]
pub enum Former {
    Rel,
    Sort,
    Prod,
    Lambda,
    LetIn,
    App,
    Const,
    Ind,
    Construct,
    Case,
    Fix,
    Cast,
}

/// What begins with a bracket after the constraints: a constant, a block, or the main part, which is the last.
#[derive(Clone, Copy, Debug, PartialEq, Eq)]
pub enum Opening {
    Constant,
    Block,
    Main,
}

/// The word's bytes, as the format spells it.
#[tactic(auto, unfolding(crate::specs::Keywords::spelling))]
pub fn spelling_of(keyword: Keyword) -> &'static [u8]
    ensures bytes { result.now ≡ spelling keyword }
{
    match keyword {
        Keyword::Env => b"env",
        Keyword::One => b"1",
        Keyword::Levels => b"levels",
        Keyword::Constraints => b"constraints",
        Keyword::Lt => b"lt",
        Keyword::Le => b"le",
        Keyword::Eq => b"eq",
        Keyword::ConstantDecl => b"ConstantDecl",
        Keyword::NoBody => b"None",
        Keyword::InductiveDecl => b"InductiveDecl",
        Keyword::CoInductiveDecl => b"CoInductiveDecl",
        Keyword::Universes => b"universes",
        Keyword::Params => b"params",
        Keyword::Family => b"family",
        Keyword::Sort => b"sort",
        Keyword::Indices => b"indices",
        Keyword::Ctor => b"ctor",
        Keyword::Args => b"args",
        Keyword::Result => b"result",
        Keyword::Main => b"main",
        Keyword::Prop => b"Prop",
        Keyword::SProp => b"SProp",
        Keyword::Set => b"Set",
        Keyword::Type => b"Type",
        Keyword::Rel => b"tRel",
        Keyword::TermSort => b"tSort",
        Keyword::Prod => b"tProd",
        Keyword::Lambda => b"tLambda",
        Keyword::LetIn => b"tLetIn",
        Keyword::App => b"tApp",
        Keyword::Const => b"tConst",
        Keyword::Ind => b"tInd",
        Keyword::Construct => b"tConstruct",
        Keyword::Case => b"tCase",
        Keyword::Pred => b"pred",
        Keyword::Branch => b"br",
        Keyword::Fix => b"tFix",
        Keyword::Def => b"def",
        Keyword::Cast => b"tCast",
        Keyword::Var => b"tVar",
        Keyword::Evar => b"tEvar",
        Keyword::Proj => b"tProj",
        Keyword::CoFix => b"tCoFix",
        Keyword::Int => b"tInt",
        Keyword::Float => b"tFloat",
        Keyword::String => b"tString",
        Keyword::Array => b"tArray",
    }
}

/// Whether a text is a word of known bytes: a test of each byte, which for a word that is known to the compiler is a few instructions.
#[inline(always)]
fn same_bytes(text: &[u8], word: &[u8]) -> bool
    ensures same { result ≡ bytes_eq text.now word.now }
{
    if text.len() != word.len() {
        return false;
    }
    let mut at = 0;
    while at < word.len() {
        if text[at] != word[at] {
            return false;
        }
        at += 1;
    }
    true
}

/// Whether the text is the word.
#[inline(always)]
pub fn is_word(text: &[u8], word: Keyword) -> bool
    ensures same { result ≡ bytes_eq text.now (spelling word) }
{
    same_bytes(text, spelling_of(word))
}

/// The head of a term that the text spells, or None where it spells none that is read.
#[tactic(auto, unfolding(crate::specs::Words::former_of))]
pub fn former_of(text: &[u8]) -> Option<Former>
    ensures former { result ≡ former text.now }
{
    if is_word(text, Keyword::Rel) {
        Some(Former::Rel)
    } else if is_word(text, Keyword::TermSort) {
        Some(Former::Sort)
    } else if is_word(text, Keyword::Prod) {
        Some(Former::Prod)
    } else if is_word(text, Keyword::Lambda) {
        Some(Former::Lambda)
    } else if is_word(text, Keyword::LetIn) {
        Some(Former::LetIn)
    } else if is_word(text, Keyword::App) {
        Some(Former::App)
    } else if is_word(text, Keyword::Const) {
        Some(Former::Const)
    } else if is_word(text, Keyword::Ind) {
        Some(Former::Ind)
    } else if is_word(text, Keyword::Construct) {
        Some(Former::Construct)
    } else if is_word(text, Keyword::Case) {
        Some(Former::Case)
    } else if is_word(text, Keyword::Fix) {
        Some(Former::Fix)
    } else if is_word(text, Keyword::Cast) {
        Some(Former::Cast)
    } else {
        None
    }
}

/// The form that is known and not read whose head of a term the text spells, or None where it spells none.
#[tactic(auto, unfolding(crate::specs::Words::foreign_of))]
pub fn foreign_of(text: &[u8]) -> Option<Foreign>
    ensures foreign { result ≡ foreign text.now }
{
    if is_word(text, Keyword::Var) {
        Some(Foreign::Var)
    } else if is_word(text, Keyword::Evar) {
        Some(Foreign::Evar)
    } else if is_word(text, Keyword::Proj) {
        Some(Foreign::Proj)
    } else if is_word(text, Keyword::CoFix) {
        Some(Foreign::CoFix)
    } else if is_word(text, Keyword::Int) {
        Some(Foreign::Int)
    } else if is_word(text, Keyword::Float) {
        Some(Foreign::Float)
    } else if is_word(text, Keyword::String) {
        Some(Foreign::String)
    } else if is_word(text, Keyword::Array) {
        Some(Foreign::Array)
    } else {
        None
    }
}

/// What begins with the text after the constraints, or None where nothing does.
#[tactic(auto, unfolding(crate::specs::Words::opening_of))]
pub fn opening_of(text: &[u8]) -> Option<Opening>
    ensures opening { result ≡ opening text.now }
{
    if is_word(text, Keyword::ConstantDecl) {
        Some(Opening::Constant)
    } else if is_word(text, Keyword::InductiveDecl) {
        Some(Opening::Block)
    } else if is_word(text, Keyword::Main) {
        Some(Opening::Main)
    } else {
        None
    }
}

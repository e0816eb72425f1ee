//! The grammar of dumps: which tokens spell which environment, and what the first refusal of a text is.
//!
//! The grammar is a printing function on whole forms with a meaning (`specs/Terms`, `Sorts`, `Declarations`, `Environments`): a form keeps what
//! a text chooses, as the names of binders and how applications are grouped, and its meaning (`specs/Named`) forgets it. Names and levels stay
//! texts there; `specs/Uses` and `Numbering` number them by first use. Blanks and comments are no tokens, and limits are no part of the grammar.
//!
//! Beside it stands the table of a reader that goes from left to right (`specs/Table`), with the forms that are known and not read
//! (`specs/Foreign`) and the limits (`specs/Limits`); `specs/Judge` is the verdict on a text, its first refusal or its values.
//!
//! What is promised, each as the contract of a function without result: `reading_is_exact` (what the table accepts is what is spelled, a text
//! has one meaning, and the table stops at the first token that no text goes on with), `verdict_is_exact` (what an acceptance and each refusal
//! of the verdict say, that forms that are known and not read and limits are refused exactly where they stand, and that what is spelled is
//! accepted or passes a limit), `limits_are_exact` (what is spelled is accepted exactly where no form and no token passes a limit),
//! `numbers_are_by_first_use`, and `sample_texts` (texts with their meanings and refusals, counted by hand).
//! `docs/DUMP_FORMAT.md` is the same format as a page for users.
//!
//! Below stands `sexp_reader`, whose tokens these are. Above stands the reader of dumps, whose code follows the table.
#![tactic(auto)]

ghost use Rattle.dump_grammar.specs.Exactness.{IsExact};
ghost use Rattle.dump_grammar.specs.Law.{IsJudged};
ghost use Rattle.dump_grammar.specs.FirstRefusal.{IsFirst};
ghost use Rattle.dump_grammar.specs.Within.{IsLimited};
ghost use Rattle.dump_grammar.specs.Numbering.{IsNumbering};
ghost use Rattle.dump_grammar.specs.RefusedTexts.{AreRefused};
ghost use Rattle.dump_grammar.specs.CountedTexts.{AreCounted};
ghost use Rattle.dump_grammar.specs.AcceptedTexts.{AreRead, AreNumbered};

mod keyword;
mod refusal;

pub use keyword::{
    Former, Keyword, Opening, foreign_of, former_of, is_word, opening_of, spelling_of,
};
pub use refusal::{Foreign, Limit, ReadRefusal};

/// The table of the reader and the grammar: what is accepted is what is spelled, a text has one meaning, and the table stops at the first token
/// such that no text's tokens begin with the tokens up to and including it, or at the end of a text that ended early.
pub fn reading_is_exact()
    ensures exact { IsExact }
{}

/// The verdict on a text of spanned tokens: an acceptance is spelled, each refusal stands where its cause is, and what is spelled is accepted or
/// passes a limit. A form that is known and not read, or a limit, is refused exactly where it stands and no token before is refused. The verdict
/// refuses exactly with the first refusal, which is said of each place of the text by itself.
pub fn verdict_is_exact()
    ensures judged { IsJudged }
    ensures first { IsFirst }
{}

/// What is spelled is accepted exactly where no token and no form passes a limit.
pub fn limits_are_exact()
    ensures limited { IsLimited }
{}

/// Names and levels are numbered by first use: each text that is used has one number, each number stands for one text, and a further use takes
/// the next number where its text is new.
pub fn numbers_are_by_first_use()
    ensures numbered { IsNumbering }
{}

/// Texts with what they mean, with the numbers of their names and levels, and with their refusals; the offsets are counted by hand. Two counted
/// limits are too long for such a text: 65,536 declarations and 16,384 constraints.
pub fn sample_texts()
    ensures read { AreRead }
    ensures numbered { AreNumbered }
    ensures refused { AreRefused }
    ensures counted { AreCounted }
{}

//! Programs after erasure as text, in the style of a dump.
//!
//! A program is one item a line, each with LF behind it: its constants in the order of their declarations, `(constant NAME TERM)`; its families,
//! `(family NAME N KIND (params P) (args A ..))`, where N is the family's place in its block, KIND is `Prop` where it is propositional and else
//! `Type`, P is the count of parameters, and there is a count of arguments for each constructor; and `(main TERM)`. A term is `Box`, `(Rel I)`,
//! `(Lambda TERM)`, `(LetIn VALUE BODY)`, `(App FUNCTION ARGUMENT)`, `(Const NAME)`, `(Construct NAME N CONSTRUCTOR)`,
//! `(Case (NAME N) SCRUTINEE (br NAMES BODY) ..)` or `(Fix (defs (def BODY RARG) ..) I)`: variables are de Bruijn indices, the innermost 0, and
//! constructors, definitions and recursive arguments count from 0. A name is its text by the table of names, or `?` and its number where it
//! has none.
//!
//! `program_text` gives exactly the text that `specs/BoxText.antt` defines (`is`), and has no refusal but want of memory.
//!
//! Below stand `box_terms` (programs) and `dump_reader` (names by number); above stands `erase_rows`, whose rows are programs after erasure.
#![tactic(auto)]

mod items;
mod program;
mod terms;

pub use program::program_text;

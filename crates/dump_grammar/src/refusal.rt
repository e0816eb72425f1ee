//! Why a text is not read.

ghost use Rattle.std.specs.Prelude.{◌≡◌};
ghost use Rattle.dump_grammar.specs.declared.refusal.ReadRefusal.TheVariants.{Memory};

use std::alloc::{AllocError, AllocFailed};

/// A form that is known and not read. The word of the text that stands for each is in `specs/Foreign.antt`.
#[derive(Clone, Copy, Debug, PartialEq, Eq)]
pub enum Foreign {
    /// The head `tVar` of a term.
    Var,
    /// The head `tEvar` of a term.
    Evar,
    /// The head `tProj` of a term.
    Proj,
    /// The head `tCoFix` of a term.
    CoFix,
    /// The head `tInt` of a term.
    Int,
    /// The head `tFloat` of a term.
    Float,
    /// The head `tString` of a term.
    String,
    /// The head `tArray` of a term.
    Array,
    /// `SProp` in the place of a sort.
    SProp,
    /// The head `CoInductiveDecl` of a declaration.
    CoInductive,
    /// `universes` after the bracket that opens right after a declaration's name.
    Polymorphic,
    /// A third item in an entry of a telescope.
    TelescopeLet,
    /// A bracket that opens in the place of a level.
    LevelVariable,
    /// A number other than 1 in the place of the version.
    Version,
}

/// What of a text is counted, and passed its limit.
#[derive(Clone, Copy, Debug, PartialEq, Eq)]
pub enum Limit {
    /// Brackets in one another: 1,000.
    Nesting,
    /// The bytes of an atom: 255.
    NameBytes,
    /// A number: 4,294,967,295.
    Number,
    /// What is added to a level: 1,000.
    LevelAdd,
    /// The depth of a term: 2,048.
    Depth,
    /// Declarations: 65,536.
    Declarations,
    /// The families of a block: 255.
    Families,
    /// The constructors of a family: 1,024.
    Constructors,
    /// Parameters, indices and arguments, each: 255.
    Telescope,
    /// The definitions of a fixpoint: 255.
    Definitions,
    /// The items of `levels`: 1,024.
    Levels,
    /// Constraints: 16,384.
    Constraints,
}

/// Why no environment was read. Offsets are bytes from the start of the text.
#[derive(Clone, Copy, Debug, PartialEq, Eq)]
pub enum ReadRefusal {
    /// The start of the first token such that no text's tokens begin with the tokens up to and including it, or of a byte that
    /// belongs to no token, or the length where the text ended early.
    Syntax { offset: usize },
    /// The start of the first token that stands for a form that is known and not read.
    Unsupported { what: Foreign, offset: usize },
    /// The start of the token at which a limit is passed.
    Limit { which: Limit, offset: usize },
    /// Want of memory.
    Memory,
}

impl From<AllocError> for ReadRefusal {
    ghost from_gives = { λ _ e. e ≡ Memory };

    fn from(_e: AllocError) -> ReadRefusal {
        ReadRefusal::Memory
    }
}

impl<T: Drop> From<AllocFailed<T>> for ReadRefusal {
    ghost from_gives = { λ _ e. e ≡ Memory };

    fn from(_e: AllocFailed<T>) -> ReadRefusal {
        ReadRefusal::Memory
    }
}

//! Why a type has no first-order set or no signature, and why a value is no data or has no text.
use pc_rules::stop::Stop;
use pc_terms::term::{MakeFault, Term};
use std::alloc::{AllocError, AllocFailed};

/// Why a type has no first-order set.
#[derive(Drop)]
pub enum ShapeRefusal {
    /// The first type that the search works and that is no family of a first-order set.
    NotFirstOrder { ty: Term },
    /// A type number 1,025 would be put in.
    Types,
    /// No unit is left.
    Spent,
    /// A term of the search is beyond the limits of terms in memory.
    TooDeep,
    /// There is no memory.
    Memory,
}

/// Why a type has no signature.
#[derive(Drop)]
pub enum SignatureRefusal {
    /// The type itself, in weak-head normal form, where it is no product; the first product whose codomain names its variable; or the first type that a
    /// search works and that is no family of a first-order set.
    NotFirstOrder { ty: Term },
    /// A search would put in a type number 1,025.
    Types,
    /// A 256th argument would be taken.
    Arguments,
    /// No unit is left.
    Spent,
    /// A term of the search is beyond the limits of terms in memory.
    TooDeep,
    /// There is no memory.
    Memory,
}

/// Why a value is no data, or data has no text.
#[derive(Drop)]
pub enum TextFault {
    /// The node, by its number in preorder from 0, is no constructor of the type that stands there with its number of arguments.
    NotOfShape { node: u32 },
    /// There are more than 4,000,000 nodes.
    AnswerNodes,
    /// There is no memory.
    Memory,
}

/// Why a text of arguments is not read. Offsets are bytes from the start of the input.
#[derive(Clone, Copy, Debug, PartialEq, Eq)]
pub enum ArgsFault {
    /// The start of the first token such that no text of the form begins with the tokens up to and including it, or of a byte that belongs to no token,
    /// or the length where the text ended early.
    Syntax { offset: usize },
    /// Brackets stand in one another more than 1,000 deep.
    Nesting,
    /// An atom has more than 255 bytes.
    NameBytes,
    /// The start of what doesn't stand at its type: a name that isn't a constructor of the type, an item that is one too many, a name without a bracket
    /// whose constructor has arguments, or a closing bracket where an item is missing.
    Wrong { offset: usize },
    /// There is no memory.
    Memory,
}

impl From<Stop> for ShapeRefusal {
    ghost use Rattle.std.specs.Prelude.{◌≡◌};
    ghost use Rattle.first_order.specs.Searching.{refusal_of};

    ghost from_gives = { λ s r. r ≡ refusal_of s };

    fn from(s: Stop) -> ShapeRefusal {
        match s {
            Stop::Spent => ShapeRefusal::Spent,
            Stop::TooDeep => ShapeRefusal::TooDeep,
            Stop::Memory => ShapeRefusal::Memory,
        }
    }
}

impl From<MakeFault> for ShapeRefusal {
    ghost use Rattle.std.specs.Prelude.{◌≡◌};
    ghost use Rattle.pc_rules.specs.Stops.{stop_of};
    ghost use Rattle.first_order.specs.Searching.{refusal_of};

    ghost from_gives = { λ f r. r ≡ refusal_of (stop_of f) };

    fn from(f: MakeFault) -> ShapeRefusal {
        match f {
            MakeFault::TooDeep => ShapeRefusal::TooDeep,
            MakeFault::Memory => ShapeRefusal::Memory,
        }
    }
}

impl From<MakeFault> for TextFault {
    ghost use Rattle.std.specs.Prelude.{◌≡◌};
    ghost use Rattle.first_order.specs.declared.faults.TextFault.TheVariants.{Memory};

    ghost from_gives = { λ _ t. t ≡ Memory };

    /// Only want of memory is met here: no term is made.
    fn from(_f: MakeFault) -> TextFault {
        TextFault::Memory
    }
}

impl From<AllocError> for TextFault {
    ghost use Rattle.std.specs.Prelude.{◌≡◌};
    ghost use Rattle.first_order.specs.declared.faults.TextFault.TheVariants.{Memory};

    ghost from_gives = { λ _ t. t ≡ Memory };

    fn from(_e: AllocError) -> TextFault {
        TextFault::Memory
    }
}

impl<T: Drop> From<AllocFailed<T>> for TextFault {
    ghost use Rattle.std.specs.Prelude.{◌≡◌};
    ghost use Rattle.first_order.specs.declared.faults.TextFault.TheVariants.{Memory};

    ghost from_gives = { λ _ t. t ≡ Memory };

    fn from(_e: AllocFailed<T>) -> TextFault {
        TextFault::Memory
    }
}

impl From<ShapeRefusal> for SignatureRefusal {
    ghost use Rattle.std.specs.Prelude.{◌≡◌};
    ghost use Rattle.first_order.specs.DirectedSignature.{refusal_in};

    ghost from_gives = { λ s r. r ≡ refusal_in s };

    fn from(s: ShapeRefusal) -> SignatureRefusal {
        match s {
            ShapeRefusal::NotFirstOrder { ty } => SignatureRefusal::NotFirstOrder { ty },
            ShapeRefusal::Types => SignatureRefusal::Types,
            ShapeRefusal::Spent => SignatureRefusal::Spent,
            ShapeRefusal::TooDeep => SignatureRefusal::TooDeep,
            ShapeRefusal::Memory => SignatureRefusal::Memory,
        }
    }
}

impl From<Stop> for SignatureRefusal {
    ghost use Rattle.std.specs.Prelude.{◌≡◌};
    ghost use Rattle.first_order.specs.Searching.{refusal_of};
    ghost use Rattle.first_order.specs.DirectedSignature.{refusal_in};

    ghost from_gives = { λ s r. r ≡ refusal_in (refusal_of s) };

    fn from(s: Stop) -> SignatureRefusal {
        match s {
            Stop::Spent => SignatureRefusal::Spent,
            Stop::TooDeep => SignatureRefusal::TooDeep,
            Stop::Memory => SignatureRefusal::Memory,
        }
    }
}

impl From<MakeFault> for SignatureRefusal {
    ghost use Rattle.std.specs.Prelude.{◌≡◌};
    ghost use Rattle.pc_rules.specs.Stops.{stop_of};
    ghost use Rattle.first_order.specs.Searching.{refusal_of};
    ghost use Rattle.first_order.specs.DirectedSignature.{refusal_in};

    ghost from_gives = { λ f r. r ≡ refusal_in (refusal_of (stop_of f)) };

    fn from(f: MakeFault) -> SignatureRefusal {
        match f {
            MakeFault::TooDeep => SignatureRefusal::TooDeep,
            MakeFault::Memory => SignatureRefusal::Memory,
        }
    }
}

impl From<MakeFault> for ArgsFault {
    ghost use Rattle.std.specs.Prelude.{◌≡◌};
    ghost use Rattle.first_order.specs.declared.faults.ArgsFault.TheVariants.{Memory};

    ghost from_gives = { λ _ f. f ≡ Memory };

    /// Only want of memory is met here: no term is made.
    fn from(_f: MakeFault) -> ArgsFault {
        ArgsFault::Memory
    }
}

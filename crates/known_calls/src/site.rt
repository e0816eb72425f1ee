//! Where a block stands in the code of a function.
ghost use Rattle.std.specs.Prelude.{◌≡◌, IfOk, IfErr};
ghost use Rattle.known_calls.specs.KnownPushed.{under_position};
ghost use Rattle.wasm_emit.specs.declared.fault.EmitFault.TheVariants.{Memory};

use wasm_emit::EmitFault;

/// What a call in some place may be.
#[derive(Clone, Copy, Debug, PartialEq, Eq)]
pub enum Position {
    /// A call.
    Inside,
    /// In the tail of a function without a loop: a tail call.
    Final,
    /// In the tail of the body of this function's worker: of the worker itself a branch out of so many blocks to its beginning, of any other
    /// function a tail call.
    InTail(u32, u32),
}

/// Where a block stands: the first local that is free, and what a call in its tail may be.
#[derive(Clone, Copy, Debug, PartialEq, Eq)]
pub(crate) struct Site {
    /// The first local that is free.
    pub local: u32,
    /// What a call in the block's tail may be.
    pub at: Position,
}

/// The kinds of a match's branches, of which one is told from the others by its constructor's number.
#[derive(Clone, Copy, Debug, PartialEq, Eq)]
pub enum Kind {
    /// Without binders: the scrutinee is a word that tells the constructor.
    Bare,
    /// With binders: the scrutinee is the address of a block, whose header does.
    Fielded,
}

/// A part of a match's branches, of which those of one kind are told apart.
#[derive(Clone, Copy, Debug, PartialEq, Eq)]
pub(crate) struct Part {
    /// Their kind.
    pub kind: Kind,
    /// The number of the part's first branch.
    pub first: usize,
    /// By how many halvings they may be told.
    pub rounds: u32,
    /// Where they stand; the scrutinee is in the first local.
    pub site: Site,
}

/// A branch of a match.
#[derive(Clone, Copy, Debug, PartialEq, Eq)]
pub(crate) struct Arm {
    /// The kind of which it may be.
    pub kind: Kind,
    /// The branch's number, from 0.
    pub number: usize,
    /// Where the match stands, with the arms that have begun before; the scrutinee is in the first local.
    pub site: Site,
}

/// The position under n blocks more. A depth past 32 bits is `Memory`: so many blocks have no room.
pub(crate) fn under(at: Position, n: usize) -> Result<Position, EmitFault>
    ensures is { IfOk result (λ q. q ≡ under_position n at) }
    ensures only_memory { IfErr result (λ e. e ≡ Memory) }
{
    match at {
        Position::Inside => Ok(Position::Inside),
        Position::Final => Ok(Position::Final),
        Position::InTail(g, depth) => {
            let Some(sum) = (depth as usize).checked_add(n) else {
                return Err(EmitFault::Memory);
            };
            match u32::try_from(sum) {
                Ok(deep) => Ok(Position::InTail(g, deep)),
                Err(_) => Err(EmitFault::Memory),
            }
        }
    }
}

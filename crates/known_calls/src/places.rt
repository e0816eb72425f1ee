//! What an environment has for the variables of a block.
ghost use Rattle.std.specs.Prelude.{◌≡◌, ◌++◌, IfErr, OnOk, MatchOption, None, Some, length, reverse, slice_get, take};
ghost use Rattle.known_calls.specs.KnownCode.{branch_places};
ghost use Rattle.known_calls.specs.KnownModule.{params};
ghost use Rattle.known_calls.specs.KnownPlaces.{fields_of};
ghost use Rattle.wasm_emit.specs.declared.fault.EmitFault.TheVariants.{Memory};

use crate::words::{Word, Words};
use wasm_emit::EmitFault;

/// Where a variable's word is, or which closure the variable is.
#[derive(Drop)]
pub enum Place {
    /// Its word is there.
    At(Word),
    /// It is the closure of this function, made nowhere, and the captured words are there.
    Known(u32, Words),
}

/// The place of variable i, of places with the innermost variable's last; none where there are no more than i.
pub(crate) fn place_of(places: &[Place], i: u32) -> Option<&Place>
    ensures is { MatchOption result (slice_get (reverse places.now) i ≡ None) (λ q. slice_get (reverse places.now) i ≡ Some q.now) }
{
    let n = places.len();
    let k = (n as u64).checked_sub(1)?.checked_sub(i as u64)?;
    Some(&places[k as usize])
}

/// The places of the n fields of the block whose address is in local x, the last one innermost. Only `Memory`.
pub(crate) fn push_field_places(places: &mut Vec<Place>, x: u32, n: u32) -> Result<(), EmitFault>
    ensures is { OnOk result (reverse places.new.items ≡ fields_of x n (reverse places.old.items)) }
    ensures kept { OnOk result (take (length places.old.items) places.new.items ≡ places.old.items) }
    ensures only_memory { IfErr result (λ e. e ≡ Memory) }
{
    for k in 0..n {
        let Ok(offset) = u32::try_from(4 * (k as u64) + 4) else {
            return Err(EmitFault::Memory);
        };
        places.push(Place::At(Word::Field(x, offset)))?;
    }
    Ok(())
}

/// The places of the n variables of a branch of a match on the word in local x: the fields of that block; or the local, where the field of the
/// only one is moved there. Only `Memory`.
pub(crate) fn push_branch_places(
    places: &mut Vec<Place>,
    moved: bool,
    x: u32,
    n: u32,
) -> Result<(), EmitFault>
    ensures is { OnOk result (reverse places.new.items ≡ branch_places moved x n (reverse places.old.items)) }
    ensures kept { OnOk result (take (length places.old.items) places.new.items ≡ places.old.items) }
    ensures only_memory { IfErr result (λ e. e ≡ Memory) }
{
    if moved {
        places.push(Place::At(Word::Local(x)))?;
        Ok(())
    } else {
        push_field_places(places, x, n)
    }
}

/// The places of the variables of a worker with n parameters, the last one innermost. Only `Memory`.
pub(crate) fn push_params(places: &mut Vec<Place>, n: u32) -> Result<(), EmitFault>
    ensures is { OnOk result (reverse places.new.items ≡ params n ++ reverse places.old.items) }
    ensures only_memory { IfErr result (λ e. e ≡ Memory) }
{
    for x in 0..n {
        places.push(Place::At(Word::Local(x)))?;
    }
    Ok(())
}

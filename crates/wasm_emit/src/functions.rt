//! The indices of functions.
ghost use Rattle.std.specs.Prelude.{◌≡◌, IfOk, IfErr};
ghost use Rattle.closure_lift.specs.LiftedProgram.{place_in, lifted_of};
ghost use Rattle.wasm_emit.specs.ConstantNumbers.{AreNumbered};
ghost use Rattle.wasm_emit.specs.EmittedCode.{constant_index};
ghost use Rattle.wasm_emit.specs.declared.fault.EmitFault.TheVariants.{Memory};

use crate::fault::EmitFault;
use closure_lift::program::Lifted;
use pc_terms::leaf::Name;
use std::collections::HashMap;

/// The index of a constant's function; `numbers` are those of the program's constants. An index past 32 bits is `Memory`: so many constants have no room.
pub fn index_of_constant(
    p: &Lifted,
    numbers: &HashMap<u32, usize>,
    name: Name,
) -> Result<u32, EmitFault>
    requires numbered { AreNumbered numbers.now p.now.constants }
    ensures is { IfOk result (λ i. i ≡ constant_index (lifted_of p.now) (place_in p.now.constants name.0)) }
    ensures only_memory { IfErr result (λ e. e ≡ Memory) }
{
    let number = match numbers.get(&name.0) {
        Some(number) => *number,
        None => p.constants.len(),
    };
    function_index(p, number)
}

/// The index of the function after the run time's two, the program's functions, and so many more. An index past 32 bits is `Memory`.
pub fn function_index(p: &Lifted, after: usize) -> Result<u32, EmitFault>
    ensures is { IfOk result (λ i. i ≡ constant_index (lifted_of p.now) after) }
    ensures only_memory { IfErr result (λ e. e ≡ Memory) }
{
    let Some(sum) = p.functions.as_slice().len().checked_add(after) else {
        return Err(EmitFault::Memory);
    };
    let Some(index) = sum.checked_add(2) else {
        return Err(EmitFault::Memory);
    };
    match u32::try_from(index) {
        Ok(i) => Ok(i),
        Err(_) => Err(EmitFault::Memory),
    }
}

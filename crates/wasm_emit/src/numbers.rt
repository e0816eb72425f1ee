//! The numbers of a program's constants, by their names.
ghost use Rattle.std.specs.Prelude.{◌≡◌, IfOk, IfErr};
ghost use Rattle.wasm_emit.specs.ConstantNumbers.{AreNumbered};
ghost use Rattle.wasm_emit.specs.declared.fault.EmitFault.TheVariants.{Memory};

use crate::fault::EmitFault;
use closure_lift::program::Lifted;
use std::alloc::Global;
use std::collections::HashMap;

/// The number of each constant by the number of its name, made once for a whole module. Only `Memory`.
pub fn numbers_of(alloc: Global, p: &Lifted) -> Result<HashMap<u32, usize>, EmitFault>
    ensures is { IfOk result (λ m. AreNumbered m p.now.constants) }
    ensures only_memory { IfErr result (λ e. e ≡ Memory) }
{
    let constants = p.constants.as_slice();
    let n = constants.len();
    let mut numbers = HashMap::new(alloc);
    for k in 0..n {
        numbers.insert(constants[k].name.0, n - 1 - k)?;
    }
    Ok(numbers)
}

//! Whether the names of exports are distinct.

ghost use Rattle.std.specs.Prelude.{◌↔◌, IfOk, IsTrue};
ghost use Rattle.wasm_core.specs.ModuleTyping.{DistinctNames};

use std::alloc::{AllocError, Global};
use std::collections::BTreeSet;
use wasm_core::Export;

/// Whether no two exports have the same name.
pub(crate) fn names_are_distinct(alloc: Global, exports: &[Export]) -> Result<bool, AllocError>
    ensures is { IfOk result (λ distinct. IsTrue distinct ↔ DistinctNames exports.now) }
{
    let mut before = BTreeSet::new(alloc);
    for at in 0..exports.len() {
        let export = &exports[at];
        let added = before.insert(export.name.as_slice())?;
        if !added {
            return Ok(false);
        }
    }
    Ok(true)
}

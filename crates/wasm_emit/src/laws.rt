//! Laws of what emission takes and of its evaluation, as functions with no result but their contracts.

ghost use Rattle.wasm_emit.specs.CallDepth.{CallDepthsAreOne, CallsAreContractions};
ghost use Rattle.wasm_emit.specs.Emission.{LiftedCanBeEmitted};

/// A lifted program is one that emission takes, where the program in A-normal form has its names in scope and is within the limits of lifting.
pub fn lifted_programs_can_be_emitted()
    ensures emits { LiftedCanBeEmitted }
{}

/// The call depth of a lifted program's main is one, and is no more than the contractions of its evaluation.
pub fn call_depths_are_one()
    ensures one { CallDepthsAreOne }
    ensures few { CallsAreContractions }
{}

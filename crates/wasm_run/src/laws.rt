//! A law of the machine, as a function with no result but its contract.

ghost use Rattle.wasm_run.specs.Standing.{PeaksAreOne};

/// A machine to which no host gives arguments has one number of most frames, as long as its count of steps is exact. It does nothing.
pub fn peaks_are_one()
    ensures one { PeaksAreOne }
{}

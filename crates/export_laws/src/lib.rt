//! What status 0 of `export` means, in the terms of the typing rules, the source's evaluation and WebAssembly alone.
//!
//! On status 0 the input spells an environment, within the limits, and that with exactly its declarations is derived by the typing rules, with a type of main. That type has a
//! signature, and out took the shortest bytes of a module that is valid (`export_means`, `means`). To data that fits the signature main can be applied; such an applied term has
//! a type, and where it evaluates to a value, the value is read as exactly one tree of data, and every long enough run of the module, from a store in which a host has put the
//! arguments' data, answers it or is exhausted after a refused grow of memory. It is a law of the record `Served`, so it holds of each call of `serve`.
//!
//! Below stand `driver` with the contract, `call_answers` with the headline for calls, and `answer_laws` with the same of `compile` and `exec`; nothing stands above.
#![tactic(auto)]

ghost use Rattle.export_laws.specs.Laws.{ExportMeans};

/// On status 0 of `export` out took the shortest bytes of main's module for calls: it is valid, and where main of the input's environment, which is derived, applied to the source terms of data,
/// evaluates to a value, every run of it from a store that holds the data answers exactly that value or is exhausted.
pub fn export_means<S, K, E>()
    ensures means { ExportMeans S K E }
{}

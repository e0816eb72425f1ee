//! What status 0 of `check`, of `cert`, of `compile` and of `exec` means, in the terms of the typing rules, the source's evaluation and WebAssembly alone.
//!
//! `driver`'s contract of `serve` names the stages that lead to main's module: the directed rules, erasure and the passes. Here these are left out. On status 0 of each of the four jobs the input spells
//! an environment, within the limits, and that with exactly its declarations is derived by the typing rules, with a type of main (`HasInput`). Besides:
//! - by `check` (`check_means`, `means`): out took `ok`, and where main has a type of a family that the text declares without constructors, as False is, main has no value;
//! - by `cert` (`cert_means`, `means`): out took the environment's canonical text and the text of a certificate; both are read of that, where the first nests at most 1,000 deep; and by `verify`, with as many turns
//!   as making took, the walk along the certificate comes to its end, or more than 2,048 inferences and scripts stand in one another;
//! - by `compile` (`compile_means`, `means`): there are a first-order set of main's type and a module that is valid, whose shortest bytes are what out took; and where main evaluates to a value in n
//!   nodes, the value is read as exactly one tree of data, and every long enough run of the module answers it or is exhausted, within the bounds;
//! - by `exec` (`exec_means`, `means`): there is such a module, a run of which, within the steps, answered the data of which out took the text; and where main evaluates to a value, that data is the
//!   value's.
//!
//! Nothing is asked of the source: where it doesn't tell its bytes, the input is some bytes within the limit. These are laws of the record `Served`, so they hold of each call of `serve`.
//!
//! Below stand `driver` with the contract, `headline` with the law, `checked_laws` with that of False, `certified_texts` with that of what `cert` writes, and `wasm_core` with the module; above stands `export_laws`, with
//! the same of `export`.
#![tactic(auto)]

ghost use Rattle.answer_laws.specs.Laws.{CertMeans, CheckMeans, CompileMeans, ExecMeans};

/// On status 0 of `check` out took `ok`: the input's environment is derived, and where main has a type of a family that it declares without constructors, as False is, main has no value.
pub fn check_means<S, K, E>()
    ensures means { CheckMeans S K E }
{}

/// On status 0 of `cert` out took the canonical text of the input's environment, which is derived, and the text of a certificate: both are read of what was written, and `verify`, with at least the turns that making
/// took, refuses it at no item and doesn't run out of units along it.
pub fn cert_means<S, K, E>()
    ensures means { CertMeans S K E }
{}

/// On status 0 of `compile` out took the shortest bytes of main's module: it is valid, and where main of the input's environment, which is derived, evaluates to a value, every run of it answers
/// exactly that value or is exhausted, within the bounds.
pub fn compile_means<S, K, E>()
    ensures means { CompileMeans S K E }
{}

/// On status 0 of `exec` out took the text of the data that a run of main's module answered; and where main evaluates to a value, that data is the value's.
pub fn exec_means<S, K, E>()
    ensures means { ExecMeans S K E }
{}

//! The stages to the module for calls of main, a function, that come after the check besides erasure: the search for a signature, and the passes.
ghost use Rattle.std.specs.Prelude.{◌≡◌, ◌≢◌, ◌<◌, ◌≤◌, [], IfOk, length};
ghost use Rattle.first_order.specs.Searching.{AreNamed};
ghost use Rattle.first_order.specs.Signature.{IsSignature};
ghost use Rattle.first_order.specs.DirectedSignature.{set_of, sets_of, AreAllNamed};
ghost use Rattle.lambda_box.specs.BoxForm.{IsBoxProgram};
ghost use Rattle.driver.specs.CallStages.{CallPassesSay, SignatureSays};

use crate::refusal::{ProgramLimit, Refusal};
use box_terms::program::BoxProgram;
use compile::{CompileFault, compile_call};
use first_order::faults::SignatureRefusal;
use first_order::shapes::Signature;
use first_order::signatures::signature;
use pc_rules::accepted::Accepted;
use pc_rules::meter::Meter;
use reduce_machine::closures::Closures;
use std::alloc::Global;
use wasm_core::Valid;

/// The signature of main's type: the types of each argument, and those of the answer.
pub(crate) fn signature_of(
    alloc: Global,
    accepted: &Accepted,
    m: &mut Meter,
) -> Result<Signature, Refusal>
    ensures says { SignatureSays accepted.now.env accepted.now.main_type m.old.account result m.new.account }
    ensures is { IfOk result (λ s. IsSignature accepted.now.env accepted.now.main_type (sets_of s.args) (set_of s.answer)) }
    ensures takes { IfOk result (λ s. s.args ≢ []) }
    ensures few { IfOk result (λ s. length s.args ≤ 255) }
    ensures named { IfOk result (λ s. AreAllNamed accepted.now.env s.args × AreNamed accepted.now.env s.answer.types) }
    ensures nest { m.new.nest ≡ m.old.nest }
{
    match signature(alloc, &Closures, &accepted.env, &accepted.main_type, m) {
        Ok(found) => Ok(found),
        Err(SignatureRefusal::NotFirstOrder { .. }) => Err(Refusal::NotFirstOrder),
        Err(SignatureRefusal::Types) => Err(Refusal::Types),
        Err(SignatureRefusal::Arguments) => Err(Refusal::Arguments),
        Err(SignatureRefusal::Spent) => Err(Refusal::TurnsSpent),
        Err(SignatureRefusal::TooDeep) => Err(Refusal::Depth),
        Err(SignatureRefusal::Memory) => Err(Refusal::Memory),
    }
}

/// How many arguments a signature takes.
pub(crate) fn count_arguments(signature: &Signature) -> u32
    requires few { length signature.now.args ≤ 255 }
    ensures is { result ≡ length signature.now.args }
{
    signature.args.len() as u32
}

/// The module of a program for calls of main with `k` arguments, whose memory grows to at most so many pages of 65,536 bytes.
pub(crate) fn call_compiled(
    alloc: Global,
    pages: u32,
    k: u32,
    program: &BoxProgram,
) -> Result<Valid, Refusal>
    requires range { (0 < pages) × (pages ≤ 16384) }
    requires some { 1 ≤ k }
    requires most { k ≤ 255 }
    requires form { IsBoxProgram program.now }
    ensures says { CallPassesSay k pages program.now result }
{
    match compile_call(alloc, program, k, pages) {
        Ok(module) => Ok(module),
        Err(CompileFault::Depth) => Err(Refusal::Depth),
        Err(CompileFault::Captured) => Err(Refusal::Program {
            which: ProgramLimit::Captured,
        }),
        Err(CompileFault::Functions) => Err(Refusal::Program {
            which: ProgramLimit::Functions,
        }),
        Err(CompileFault::Locals) => Err(Refusal::Program {
            which: ProgramLimit::Locals,
        }),
        Err(CompileFault::Memory) => Err(Refusal::Memory),
    }
}

//! The list of the passes.
ghost use Rattle.std.specs.Prelude.{◌≡◌, ◌≤◌, IfOk, IfErr};
ghost use Rattle.lambda_box.specs.BoxForm.{IsBoxProgram};
ghost use Rattle.back_end.specs.BackEnd.{passed};
ghost use Rattle.closure_lift.specs.LiftedProgram.{lifted_of};
ghost use Rattle.wasm_emit.specs.Emission.{Emits};
ghost use Rattle.known_calls.specs.KnownModule.{module_of};
ghost use Rattle.known_calls.specs.KnownCalls.{module_of_call};
ghost use Rattle.compile.specs.Passes.{Fits, IsLowered, CompileIsRefused};

use crate::fault::CompileFault;
use anf_convert::to_anf;
use box_passes::{prop_match, saturate};
use box_terms::program::BoxProgram;
use closure_lift::lift_program;
use closure_lift::program::Lifted;
use known_calls::{emit, emit_call};
use shrink_passes::{drop_dead_params, inline};
use std::alloc::Global;
use wasm_core::Valid;

/// The lifted program of a program: the passes before emission, in their order.
///
/// `Depth` exactly where the saturated program has a term over the depth limit of 2,048; else `Captured` exactly where a lambda or fixpoint has over 1,000
/// captured words after both passes that shrink it; else `Functions` exactly where the constants, the definitions of fixpoints and the other lambdas are together over 32,768.
fn lowered(alloc: Global, p: &BoxProgram) -> Result<Lifted, CompileFault>
    requires form { IsBoxProgram p.now }
    ensures is { IfOk result (λ l. lifted_of l ≡ passed p.now) }
    ensures emits { IfOk result (λ l. Emits (lifted_of l)) }
    ensures lowers { IfOk result (λ _. IsLowered p.now) }
    ensures refused { IfErr result (CompileIsRefused p.now) }
{
    let ordinary = prop_match(alloc, p)?;
    let saturated = saturate(alloc, &ordinary)?;
    let inlined = inline(alloc, &saturated)?;
    let shrunk = drop_dead_params(alloc, &inlined)?;
    let normal = to_anf(alloc, &shrunk)?;
    let lifted = lift_program(alloc, &normal)?;
    Ok(lifted)
}

/// The module of a program, whose memory has at most `pages` pages of 65,536 bytes (1 to 16,384): the passes in their order, and emission.
///
/// `Depth`, `Captured` and `Functions` exactly where a pass before emission answers them (`lowered`); else `Locals`
/// exactly where a function would have over 50,000 locals besides its parameters.
pub fn compile(alloc: Global, p: &BoxProgram, pages: u32) -> Result<Valid, CompileFault>
    requires form { IsBoxProgram p.now }
    requires least { 1 ≤ pages }
    requires greatest { pages ≤ 16384 }
    ensures is { IfOk result (λ v. v ≡ module_of (passed p.now) pages) }
    ensures fits { IfOk result (λ _. Fits p.now) }
    ensures refused { IfErr result (CompileIsRefused p.now) }
{
    let lifted = lowered(alloc, p)?;
    let module = emit(alloc, &lifted, pages)?;
    Ok(module)
}

/// The module of a program whose main is a function, for calls of main with `k` arguments (1 to 255) that a host stores before the run; its memory has at most `pages` pages of
/// 65,536 bytes (1 to 16,384). The passes are those of `compile`, and each refusal comes exactly where it comes there.
pub fn compile_call(
    alloc: Global,
    p: &BoxProgram,
    k: u32,
    pages: u32,
) -> Result<Valid, CompileFault>
    requires form { IsBoxProgram p.now }
    requires some { 1 ≤ k }
    requires most { k ≤ 255 }
    requires least { 1 ≤ pages }
    requires greatest { pages ≤ 16384 }
    ensures is { IfOk result (λ v. v ≡ module_of_call (passed p.now) k pages) }
    ensures fits { IfOk result (λ _. Fits p.now) }
    ensures refused { IfErr result (CompileIsRefused p.now) }
{
    let lifted = lowered(alloc, p)?;
    let module = emit_call(alloc, &lifted, k, pages)?;
    Ok(module)
}

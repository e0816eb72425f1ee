//! The limits of the passes by the sizes of programs: which sizes keep a program within them, and what a refusal says of the sizes.
//!
//! No lambda and no fixpoint captures more words than its lambda has binders outside it, and constants, definitions of fixpoints and other lambdas are fewer than
//! nodes (`captured_words_are_few`, clauses `normal`, `saturated` and `words`; `functions_are_fewer`, `nodes`). So each refusal of the passes, and a module over 16 MiB, shows a size of the
//! saturated program (`refusals_show_sizes`, `refused`, `bytes` and `calls`), and of the source (`sources_bound_sizes`, `bounds` and `refused`); and a program whose sizes are within the limits is refused by no
//! pass, and has a module within 16 MiB, and modules for calls (`small_programs_fit`, `fit` and `sources`).
//!
//! Below stand the laws of the layers: `box_passes`, `closure_lift`, `wasm_emit`, `known_calls`, `back_end`, `compile` and `headline`; above stands `driver`.
#![tactic(auto)]

ghost use Rattle.source_limits.specs.Laws.{
  NormalCapturesAreFew,
  SaturatedCapturesAreFew,
  WordsBoundCaptures,
  FunctionsAreFewer,
  RefusalsShowSizes,
  LargeModulesShowSizes,
  LargeCallModulesShowSizes,
  SmallProgramsFit,
  SourcesBoundSizes,
  RefusalsShowSourceSizes,
  SmallSourcesFit,
};

/// No lambda and no fixpoint has more captured words than the greatest number of binders that a lambda is under: in any program in A-normal form by its own binders, and after the passes
/// by those of the saturated program alone; nor more than the program's words, less four.
pub fn captured_words_are_few()
    ensures normal { NormalCapturesAreFew }
    ensures saturated { SaturatedCapturesAreFew }
    ensures words { WordsBoundCaptures }
{}

/// Constants, definitions of fixpoints and other lambdas are together fewer than the nodes of the program.
pub fn functions_are_fewer()
    ensures nodes { FunctionsAreFewer }
{}

/// `Captured` comes only where a lambda of the saturated program is under more than 1,000 binders, and the program has over 1,004 words; `Functions` only where the saturated program has over 32,768
/// nodes, and `Locals` only where it has over 50,000. A module has over 16,777,216 bytes only where `64 * s * W + 4,096` is greater, for s nodes and W words; so it is
/// of a module for calls, of up to 255 arguments (`calls`).
pub fn refusals_show_sizes()
    ensures refused { RefusalsShowSizes }
    ensures bytes { LargeModulesShowSizes }
    ensures calls { LargeCallModulesShowSizes }
{}

/// The program of an accepted environment has at most the words of its source, and after saturation at most `q * (3 * K + 1)` nodes, for q nodes of main and of the bodies of constants and for K
/// parameters and arguments of a constructor. So what a refusal shows is shown of the source too.
pub fn sources_bound_sizes()
    ensures bounds { SourcesBoundSizes }
    ensures refused { RefusalsShowSourceSizes }
{}

/// No pass refuses a program whose saturated program is within the depth limit, has no lambda under more than 1,000 binders and s nodes, at most 32,768, where `64 * s * W + 4,096` is at most
/// 16,777,216 for its W words; and its module has at most 16,777,216 bytes, as its modules for calls of up to 255 arguments have. So it is for the program of an accepted environment, by the words of its source.
pub fn small_programs_fit()
    ensures fit { SmallProgramsFit }
    ensures sources { SmallSourcesFit }
{}

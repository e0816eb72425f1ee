//! Directed inference is sound for typing.
ghost use Rattle.rule_laws.specs.Inference.{InferenceIsSound, SortsAreSound, ChecksAreSound};

/// In a well-counted environment and context, the type that the directed rules infer for a term is one of its types by the rules of typing,
/// and both are well counted; the sort that they find is that of a type of it; and the type against which they check it is one of it. Their
/// test decides entailment, and the term is formed as terms in memory are.
pub fn inference_is_sound()
    ensures infer { InferenceIsSound }
    ensures sort_of { SortsAreSound }
    ensures check { ChecksAreSound }
{}

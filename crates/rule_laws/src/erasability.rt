//! The test of erasable terms is sound.
ghost use Rattle.rule_laws.specs.Erasability.{EvidenceIsSound};

/// In a well-counted environment and context, a well-counted term for which the directed test finds a kind of evidence is erasable, by
/// evidence of that kind.
pub fn evidence_is_sound()
    ensures sound { EvidenceIsSound }
{}

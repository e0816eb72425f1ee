//! The directed guard is sound.
ghost use Rattle.rule_laws.specs.Guard.{GuardIsSound};

/// In a well-counted environment and context, a well-counted fixpoint whose bodies begin with enough lambdas, and which the directed guard
/// lets pass, is guarded.
pub fn guard_is_sound()
    ensures sound { GuardIsSound }
{}

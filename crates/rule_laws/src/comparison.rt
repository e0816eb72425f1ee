//! The directed comparison is sound for conversion.
ghost use Rattle.rule_laws.specs.Comparison.{ComparisonIsSound, StepsKeepCounts};

/// In a well-counted environment and context, two well-counted terms that the directed comparison finds to be equal are equal by
/// conversion, and two of which it finds one to be below the other are so by cumulativity, where its test decides entailment.
/// Weak-head reduction keeps terms well counted.
pub fn comparison_is_sound()
    ensures sound { ComparisonIsSound }
    ensures counts { StepsKeepCounts }
{}

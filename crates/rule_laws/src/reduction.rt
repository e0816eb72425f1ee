//! Where the directed rules end a reduction, no weak-head step is left.
ghost use Rattle.rule_laws.specs.Reduction.{NoStepIsNormal, DirectedWhnfIsWhnf, AcceptedHasNamesOnce, HeadsHaveNamesOnce};

/// Over an environment in which each name is declared once, a term for which the directed rules find no weak-head step has none, so what
/// they end with is the weak-head normal form. Accepted environments are such, and such are those with the heads of a new block.
pub fn directed_whnf_is_whnf()
    ensures normal { NoStepIsNormal }
    ensures whnf { DirectedWhnfIsWhnf }
    ensures accepted { AcceptedHasNamesOnce }
    ensures heads { HeadsHaveNamesOnce }
{}

//! What has a type is well counted, and its fixpoints have enough lambdas.
ghost use Rattle.rule_laws.specs.Counts.{TypedIsWellCounted, TypesAreWellCounted, AcceptedIsWellCounted};
ghost use Rattle.rule_laws.specs.Lambdas.{TypedHasLambdas};

/// Over an environment in which each name is declared once, a term that has a type is well counted, and in a well-counted environment and
/// context its type is; and an accepted environment is well counted.
pub fn typed_terms_are_well_counted()
    ensures typed { TypedIsWellCounted }
    ensures types { TypesAreWellCounted }
    ensures accepted { AcceptedIsWellCounted }
{}

/// In a term that has a type each body of a fixpoint begins with one lambda more than the place of its recursive argument.
pub fn typed_terms_have_lambdas()
    ensures typed { TypedHasLambdas }
{}

//! Sanity laws of the definitions, as functions with no result but their contract.
ghost use Rattle.calculus_rules.specs.Laws.{
  EqualityIsReflexive,
  EqualityIsSymmetric,
  EqualityIsTransitive,
  EqualityHasSteps,
  EqualProducts,
  EqualLambdas,
  EqualLets,
  EqualApplications,
  EqualMatches,
  EqualFixpoints,
  BelowIsReflexive,
  BelowIsTransitive,
  BelowHasEquality,
  BelowHasProp,
  AcceptedHasOneEach,
  HeadsKeepOneEach,
  EvaluationIsDetermined,
  WeakStepsAreSteps,
  WhnfIsEqual,
  WeakStepIsDetermined,
  WhnfIsDetermined,
  TypesAreBare,
};

/// Equality by conversion is an equivalence that contains each step, wherever in a term it is made (PCUIC, POPL 2020, section 2.2).
pub fn equality_is_an_equivalence()
    ensures reflexive { EqualityIsReflexive }
    ensures symmetric { EqualityIsSymmetric }
    ensures transitive { EqualityIsTransitive }
    ensures steps { EqualityHasSteps }
{}

/// Equality is a congruence: formers with equal parts are equal, where each part stands under the values that it is under. The body of a
/// let stands under the let's value.
pub fn equality_is_a_congruence()
    ensures products { EqualProducts }
    ensures lambdas { EqualLambdas }
    ensures lets { EqualLets }
    ensures applications { EqualApplications }
    ensures matches { EqualMatches }
    ensures fixpoints { EqualFixpoints }
{}

/// Below is a preorder that contains equality, and `Prop` is below every sort (PCUIC, cumulativity).
pub fn below_is_a_preorder()
    ensures reflexive { BelowIsReflexive }
    ensures transitive { BelowIsTransitive }
    ensures equality { BelowHasEquality }
    ensures prop { BelowHasProp }
{}

/// In an accepted environment each name is declared once: no constant has two bodies, and no family of a whole block two declarations. That
/// stays so where a block's heads are kept besides.
pub fn accepted_names_have_one_declaration()
    ensures one_each { AcceptedHasOneEach }
    ensures heads { HeadsKeepOneEach }
{}

/// Where each name is declared once, an evaluation has one value and one number of nodes.
pub fn evaluation_is_deterministic()
    ensures determined { EvaluationIsDetermined }
{}

/// A weak-head step is a step, so a weak-head normal form is equal to its term; and where each name is declared once, a term has one
/// weak-head step at most, and one weak-head normal form at most.
pub fn weak_head_normal_form_is_unique()
    ensures steps { WeakStepsAreSteps }
    ensures equal { WhnfIsEqual }
    ensures step { WeakStepIsDetermined }
    ensures unique { WhnfIsDetermined }
{}

/// What has a type has it as a bare type.
pub fn types_are_bare_types()
    ensures bare { TypesAreBare }
{}

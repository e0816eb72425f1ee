//! Sanity laws of the directed rules, as functions with no result but their contract.
ghost use Rattle.pc_rules.specs.DirectedLaws.{
  SameIsOneTree,
  DirectedStepsAreSteps,
  DirectedStepsAreWeakSteps,
  DirectedWhnfIsReached,
  WhnfIsSteady,
  ComparisonIsSteady,
  GuardIsSteady,
  InferenceIsSteady,
  BlocksAreSteady,
  EvaluationIsSteady,
  SearchIsSteady,
  DirectedValuesAreValues,
  ValuesAreDirectedValues,
  FoundIsFirstOrder,
  WithoutIsLifted,
  CyclesHaveNoValuation,
};

/// The test of sameness in the directed rules is true exactly where two terms are one tree.
pub fn sameness_is_of_trees()
    ensures same { SameIsOneTree }
{}

/// The weak-head step that the directed rules find is a weak-head step of reduction, and so a step; and the weak-head normal form that
/// they end with is reached by such steps.
pub fn directed_steps_are_steps()
    ensures steps { DirectedStepsAreSteps }
    ensures weak_steps { DirectedStepsAreWeakSteps }
    ensures reached { DirectedWhnfIsReached }
{}

/// The directed rules never go back on units, and more units change no result or refusal: they only leave as many more.
pub fn directed_rules_are_steady()
    ensures weak_head { WhnfIsSteady }
    ensures comparison { ComparisonIsSteady }
    ensures guard { GuardIsSteady }
    ensures inference { InferenceIsSteady }
    ensures blocks { BlocksAreSteady }
    ensures evaluation { EvaluationIsSteady }
    ensures search { SearchIsSteady }
{}

/// The directed evaluation ends with a value only where the term evaluates to it, with one unit taken for each node; and over an accepted
/// environment it does so wherever there is a unit for each node.
pub fn directed_evaluation_is_evaluation()
    ensures sound { DirectedValuesAreValues }
    ensures complete { ValuesAreDirectedValues }
{}

/// The shapes that a first-order search finds are a first-order set of the type that it starts from; and its test of argument types finds
/// exactly those that mention no argument before them.
pub fn found_shapes_are_first_order()
    ensures found { FoundIsFirstOrder }
    ensures without { WithoutIsLifted }
{}

/// A cycle is refused only where the constraints have no valuation.
pub fn cycles_have_no_valuation()
    ensures none { CyclesHaveNoValuation }
{}

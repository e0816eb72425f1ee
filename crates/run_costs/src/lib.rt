//! What a run of a directed rule takes: so many units, and the rules whose use it notes. Neither depends on the units that are left or on the
//! uses that are noted when it starts; and more room for rules that stand in one another changes neither.
//!
//! There is no code. `specs/Costs.antt` says what a run takes (`Cost`) and when two runs take alike (`TakesAlike`), and `specs/Laws.antt` has a
//! statement for each rule: `directed_rules_take_alike` promises them, one clause for each. So what was inferred once needn't be inferred again
//! where its units are left: its result, its units and its uses are known, as the differences of the first run's accounts (`IsMeasured`).
//!
//! Below stands `pc_rules` with the directed rules.
#![tactic(auto)]

ghost use Rattle.run_costs.specs.Laws.{
  WhnfTakesAlike,
  ComparisonTakesAlike,
  GuardTakesAlike,
  InferenceTakesAlike,
  SortsTakeAlike,
  ChecksTakeAlike,
  InferenceIsMeasured,
  SortsAreMeasured,
};

/// Where a run of a directed rule ends with a result, each other run of the rule that has as much room, and the units that the first one took,
/// ends with that result, takes as many units, and notes the same uses. What it took is then the difference of its two accounts, where none of the
/// counts of uses stands at its last value (`measured`, `sorts_measured`).
pub fn directed_rules_take_alike()
    ensures weak_head { WhnfTakesAlike }
    ensures comparison { ComparisonTakesAlike }
    ensures guard { GuardTakesAlike }
    ensures inference { InferenceTakesAlike }
    ensures sorts { SortsTakeAlike }
    ensures checks { ChecksTakeAlike }
    ensures measured { InferenceIsMeasured }
    ensures sorts_measured { SortsAreMeasured }
{}

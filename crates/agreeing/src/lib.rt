//! Any two runs of a directed rule agree: what they end with depends neither on the units that are left, nor on the uses that are noted,
//! nor on the room for rules that stand in one another. A run for want of units or of room says nothing; all others say the same.
//!
//! There is no code. `specs/Agreement.antt` says when two ends agree (`Agree`), also where rules follow each other at places of an
//! environment (`AgreeAtPlaces`), and `specs/Laws.antt` has a statement for each rule: `directed_rules_agree` promises them, one clause for
//! each rule. So a term has one inferred type (`unique`), and what one call of the checker found a later one finds again.
//!
//! Below stands `pc_rules` with the directed rules; above stands `erase_rules`, which tests a term and then infers parts of it anew.
#![tactic(auto)]

ghost use Rattle.agreeing.specs.Laws.{
  WhnfAgrees,
  ComparisonAgrees,
  GuardAgrees,
  InferenceAgrees,
  SortsAgree,
  ChecksAgree,
  BlocksAgree,
  ErasabilityAgrees,
  EvaluationAgrees,
  SearchAgrees,
  DeclarationsAgree,
  EnvironmentsAgree,
  InferredTypeIsUnique,
};

/// Any two runs of a directed rule that both end with a result give the same result, any two that are refused give the same refusal, and
/// a result and a refusal never stand together, whatever the units, the uses and the room for nested rules.
pub fn directed_rules_agree()
    ensures weak_head { WhnfAgrees }
    ensures comparison { ComparisonAgrees }
    ensures guard { GuardAgrees }
    ensures inference { InferenceAgrees }
    ensures sorts { SortsAgree }
    ensures checks { ChecksAgree }
    ensures blocks { BlocksAgree }
    ensures erasability { ErasabilityAgrees }
    ensures evaluation { EvaluationAgrees }
    ensures search { SearchAgrees }
    ensures declarations { DeclarationsAgree }
    ensures environments { EnvironmentsAgree }
    ensures unique { InferredTypeIsUnique }
{}

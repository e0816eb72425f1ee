//! Telling reports the facts of a check.
ghost use Rattle.reports.specs.Counting.{numbered};
ghost use Rattle.reports.specs.declared.fact.Fact.TheVariants.{RuleUsed};
ghost use Rattle.module_run.specs.RunFacts.{AreTold};
ghost use Rattle.driver.specs.ReportedFacts.{facts_of};

use crate::reporting::facts::Facts;
use reports::{Fact, Report, tell};

/// Tells each report the uses of the rules, by rising number.
fn tell_uses<R: Report>(reports: &mut Vec<R>, uses: &[u64; 12])
    ensures told { AreTold R.shown (numbered RuleUsed 1 uses.now) reports.old.items reports.new.items }
{
    for rule in 0..12 {
        tell(reports, Fact::RuleUsed(rule + 1), uses[rule as usize]);
    }
}

/// Tells each report the facts of a check.
pub(crate) fn tell_check<R: Report>(reports: &mut Vec<R>, facts: &Facts)
    ensures told { AreTold R.shown (facts_of facts.now) reports.old.items reports.new.items }
{
    tell(reports, Fact::DeclKept, facts.declarations);
    tell(reports, Fact::AxiomKept, facts.axioms);
    tell_uses(reports, &facts.uses);
}

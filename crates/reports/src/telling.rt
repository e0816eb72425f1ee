//! Telling a list of reports a fact.
ghost use Rattle.std.specs.Prelude.{replicate};
ghost use Rattle.std.specs.List.{AllZip};
ghost use Rattle.reports.specs.Shown.{IsTold};

use crate::fact::Fact;
use crate::report::Report;

/// Tells each report a fact so many times, in order. It takes no memory.
pub fn tell<R: Report>(reports: &mut Vec<R>, fact: Fact, times: u64)
    ensures told { AllZip (λ b c. IsTold (replicate times fact) (R.shown b) (R.shown c)) reports.old.items reports.new.items }
{
    for report in reports.iter_mut() {
        report.see_times(fact, times);
    }
}

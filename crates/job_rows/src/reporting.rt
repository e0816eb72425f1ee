//! Reports of rows.
ghost use Rattle.job_rows.specs.Wanting.{is_wanted};

use crate::wanting::Wanted;
use reports::{Fact, Report};

/// A report of a row, with any name, count and choice of facts.
#[derive(Drop)]
pub(crate) struct RowReport {
    pub(crate) name: u8,
    pub(crate) count: u64,
    pub(crate) wanted: Wanted,
}

impl Report for RowReport {
    ghost shown = { λ it. record { wanted = is_wanted it.wanted; counted = it.count; named = it.name } };

    fn wants(&self, f: Fact) -> bool {
        match (self.wanted, f) {
            (Wanted::Everything, _) => true,
            (Wanted::Rule(rule), Fact::RuleUsed(used)) => used == rule,
            _ => false,
        }
    }

    fn see(&mut self, f: Fact) {
        if self.wants(f) {
            self.count = self.count.saturating_add(1);
        }
    }

    fn count(&self) -> u64 {
        self.count
    }

    fn name(&self) -> u8 {
        self.name
    }
}

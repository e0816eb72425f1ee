//! The kinds of reports that the program and its users take.
ghost use Rattle.std.specs.Prelude.{◌≡◌, ◌+◌, ◌≤◌, replicate};
ghost use Rattle.reports.specs.Counting.{after, after_times, is_axiom, is_declaration, is_grow, is_rule, is_step, is_step_of};
ghost use Rattle.reports.specs.Shown.{IsTold, Shown};

use crate::fact::Fact;
use crate::report::Report;

/// A count and so many more, up to the last value of u64, where they are wanted.
fn more(count: u64, wants: bool, times: u64) -> u64
    ensures is { result ≡ after_times wants times count }
{
    if wants {
        count.saturating_add(times)
    } else {
        count
    }
}

/// Counts declarations, axioms among them. Its name is 1.
#[derive(Debug, Drop)]
pub struct DeclReport {
    count: u64,
}

impl DeclReport {
    /// A report that has seen nothing.
    pub fn new() -> DeclReport
        ensures none { (⟦<DeclReport as Report>⟧.shown result).counted ≡ 0 }
    {
        DeclReport { count: 0 }
    }
}

impl Report for DeclReport {
    ghost shown = { λ it. record { wanted = is_declaration; counted = it.count; named = 1 } };

    fn wants(&self, f: Fact) -> bool {
        matches!(f, Fact::DeclKept)
    }

    fn see(&mut self, f: Fact) {
        self.count = more(self.count, self.wants(f), 1);
    }

    fn see_times(&mut self, f: Fact, times: u64) {
        self.count = more(self.count, self.wants(f), times);
    }

    fn count(&self) -> u64 {
        self.count
    }

    fn name(&self) -> u8 {
        1
    }
}

/// Counts constants without a body. Its name is 2.
#[derive(Debug, Drop)]
pub struct AxiomReport {
    count: u64,
}

impl AxiomReport {
    /// A report that has seen nothing.
    pub fn new() -> AxiomReport
        ensures none { (⟦<AxiomReport as Report>⟧.shown result).counted ≡ 0 }
    {
        AxiomReport { count: 0 }
    }
}

impl Report for AxiomReport {
    ghost shown = { λ it. record { wanted = is_axiom; counted = it.count; named = 2 } };

    fn wants(&self, f: Fact) -> bool {
        matches!(f, Fact::AxiomKept)
    }

    fn see(&mut self, f: Fact) {
        self.count = more(self.count, self.wants(f), 1);
    }

    fn see_times(&mut self, f: Fact, times: u64) {
        self.count = more(self.count, self.wants(f), times);
    }

    fn count(&self) -> u64 {
        self.count
    }

    fn name(&self) -> u8 {
        2
    }
}

/// Counts uses of typing rules. Its name is 3.
#[derive(Debug, Drop)]
pub struct RuleReport {
    count: u64,
}

impl RuleReport {
    /// A report that has seen nothing.
    pub fn new() -> RuleReport
        ensures none { (⟦<RuleReport as Report>⟧.shown result).counted ≡ 0 }
    {
        RuleReport { count: 0 }
    }
}

impl Report for RuleReport {
    ghost shown = { λ it. record { wanted = is_rule; counted = it.count; named = 3 } };

    fn wants(&self, f: Fact) -> bool {
        matches!(f, Fact::RuleUsed(_))
    }

    fn see(&mut self, f: Fact) {
        self.count = more(self.count, self.wants(f), 1);
    }

    fn see_times(&mut self, f: Fact, times: u64) {
        self.count = more(self.count, self.wants(f), times);
    }

    fn count(&self) -> u64 {
        self.count
    }

    fn name(&self) -> u8 {
        3
    }
}

/// Counts steps of a run, of whichever class. Its name is 4.
#[derive(Debug, Drop)]
pub struct StepReport {
    count: u64,
}

impl StepReport {
    /// A report that has seen nothing.
    pub fn new() -> StepReport
        ensures none { (⟦<StepReport as Report>⟧.shown result).counted ≡ 0 }
    {
        StepReport { count: 0 }
    }
}

impl Report for StepReport {
    ghost shown = { λ it. record { wanted = is_step; counted = it.count; named = 4 } };

    fn wants(&self, f: Fact) -> bool {
        matches!(f, Fact::StepDone(_))
    }

    fn see(&mut self, f: Fact) {
        self.count = more(self.count, self.wants(f), 1);
    }

    fn see_times(&mut self, f: Fact, times: u64) {
        self.count = more(self.count, self.wants(f), times);
    }

    fn count(&self) -> u64 {
        self.count
    }

    fn name(&self) -> u8 {
        4
    }
}

/// Counts grows of a run's memory that weren't refused. Its name is 5.
#[derive(Debug, Drop)]
pub struct GrowReport {
    count: u64,
}

impl GrowReport {
    /// A report that has seen nothing.
    pub fn new() -> GrowReport
        ensures none { (⟦<GrowReport as Report>⟧.shown result).counted ≡ 0 }
    {
        GrowReport { count: 0 }
    }
}

impl Report for GrowReport {
    ghost shown = { λ it. record { wanted = is_grow; counted = it.count; named = 5 } };

    fn wants(&self, f: Fact) -> bool {
        matches!(f, Fact::Grew)
    }

    fn see(&mut self, f: Fact) {
        self.count = more(self.count, self.wants(f), 1);
    }

    fn see_times(&mut self, f: Fact, times: u64) {
        self.count = more(self.count, self.wants(f), times);
    }

    fn count(&self) -> u64 {
        self.count
    }

    fn name(&self) -> u8 {
        5
    }
}

/// Counts steps of one class. Its name is 10 and the class.
#[derive(Debug, Drop)]
pub struct ClassReport {
    class: u8,
    count: u64,
    ghost in_range: { class ≤ 6 },
}

impl ClassReport {
    /// A report of this class that has seen nothing.
    pub fn new(class: u8) -> ClassReport
        requires class { (1 ≤ class) × (class ≤ 6) }
        ensures is { ⟦<ClassReport as Report>⟧.shown result ≡ record { wanted = is_step_of class; counted = 0; named = 10 + class } }
    {
        ClassReport { class, count: 0 }
    }
}

impl Report for ClassReport {
    ghost shown = { λ it. record { wanted = is_step_of it.class; counted = it.count; named = 10 + it.class } };

    fn wants(&self, f: Fact) -> bool {
        match f {
            Fact::StepDone(class) => class == self.class,
            _ => false,
        }
    }

    fn see(&mut self, f: Fact) {
        self.count = more(self.count, self.wants(f), 1);
    }

    fn see_times(&mut self, f: Fact, times: u64) {
        self.count = more(self.count, self.wants(f), times);
    }

    fn count(&self) -> u64 {
        self.count
    }

    fn name(&self) -> u8 {
        10 + self.class
    }
}

//! A box of a report is a report: a call goes to the report inside.

use crate::fact::Fact;
use crate::report::Report;

impl Report for Box<dyn Report> {
    ghost shown = { λ b. (Report-box b).shown b.value };

    fn wants(&self, f: Fact) -> bool {
        (**self).wants(f)
    }

    fn see(&mut self, f: Fact) {
        (**self).see(f)
    }

    fn see_times(&mut self, f: Fact, times: u64) {
        (**self).see_times(f, times)
    }

    fn count(&self) -> u64 {
        (**self).count()
    }

    fn name(&self) -> u8 {
        (**self).name()
    }
}

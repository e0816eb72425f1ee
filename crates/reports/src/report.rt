//! What a report promises.
ghost use Rattle.std.specs.Prelude.{◌≡◌, replicate};
ghost use Rattle.reports.specs.Counting.{after};
ghost use Rattle.reports.specs.Shown.{IsTold, Shown};

use crate::fact::Fact;

/// An object that is told facts and counts those that it wants.
pub trait Report: Drop {
    /// Which facts it wants; how many of them it has seen, with what it began with, up to the last value of u64; and its name.
    ghost shown: { Self → Shown };

    /// Whether it counts a fact.
    fn wants(&self, f: Fact) -> bool
        ensures is { result ≡ (shown self.now).wanted f };

    /// Tells it a fact: one more in its count where it wants the fact and the count isn't the last value of u64. Nothing else that it shows changes.
    fn see(&mut self, f: Fact)
        ensures counted { (shown self.new).counted ≡ after ((shown self.old).wanted f) (shown self.old).counted }
        ensures wanted { (shown self.new).wanted ≡ (shown self.old).wanted }
        ensures named { (shown self.new).named ≡ (shown self.old).named };

    /// Tells it a fact so many times, as so many calls of `see` do. A kind that can count them at once says how.
    fn see_times(&mut self, f: Fact, times: u64)
        ensures told { IsTold (replicate times f) (shown self.old) (shown self.new) }
    {
        for _ in 0..times {
            self.see(f);
        }
    }

    /// Its count.
    fn count(&self) -> u64
        ensures is { result ≡ (shown self.now).counted };

    /// Its name, a number.
    fn name(&self) -> u8
        ensures is { result ≡ (shown self.now).named };
}

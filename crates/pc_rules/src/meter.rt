//! Units left, uses of rules, and rules that stand in one another.
ghost use Rattle.std.specs.Prelude.{◌≡◌, ◌<◌, ◌≤◌, ◌↔◌, ◌+◌, ◌-◌, ◌^◌, IsTrue, slice_index, replicate};
ghost use Rattle.pc_rules.specs.DirectedRun.{ticked, noted, most_nested};

/// The most rules that stand in one another.
pub const MOST_NESTED: u32 = 2048;

/// The units left, and how often each of the rules 1 to 12 was used.
#[derive(Clone, Copy, Debug, PartialEq, Eq)]
pub struct Account {
    pub left: u64,
    pub uses: [u64; 12],
}

/// What a check may still spend: units, of which each rule and each step takes one, and rules that may stand in one another, of which
/// there are at most 2,048. It counts the uses of rules.
#[derive(Drop)]
pub struct Meter {
    pub account: Account,
    /// How many rules stand in one another now.
    pub nest: u32,
    ghost nested: { nest ≤ most_nested },
}

impl Meter {
    /// A meter of so many units, with no use of a rule, and where no rule stands. Takes no memory.
    pub fn new(units: u64) -> Meter
        ensures left { result.account.left ≡ units }
        ensures uses { result.account.uses ≡ replicate 12 0 }
        ensures nest { result.nest ≡ 0 }
    {
        Meter {
            account: Account {
                left: units,
                uses: [0; 12],
            },
            nest: 0,
        }
    }

    /// The units left. Takes no memory.
    pub fn left(&self) -> u64
        ensures is { result ≡ self.now.account.left }
    {
        self.account.left
    }

    /// How often a rule was used, by its number from 1 to 12; it stands still at u64's last value. Takes no memory.
    pub fn uses(&self, rule: u8) -> u64
        requires low { 1 ≤ rule }
        requires high { rule ≤ 12 }
        ensures is { result ≡ slice_index self.now.account.uses (rule - 1) }
    {
        self.account.uses[(rule - 1) as usize]
    }

    /// Takes a unit; false, and nothing is taken, exactly where none is left. Takes no memory.
    pub fn tick(&mut self) -> bool
        ensures was { IsTrue result ↔ (0 < self.old.account.left) }
        ensures account { self.new.account ≡ ticked self.old.account }
        ensures nest { self.new.nest ≡ self.old.nest }
    {
        if self.account.left == 0 {
            return false;
        }
        self.account.left -= 1;
        true
    }

    /// Notes a use of a rule, by its number from 1 to 12. The count stands still at u64's last value. Takes no memory.
    pub fn note(&mut self, rule: u8)
        requires low { 1 ≤ rule }
        requires high { rule ≤ 12 }
        ensures account { self.new.account ≡ noted rule self.old.account }
        ensures nest { self.new.nest ≡ self.old.nest }
    {
        let at = (rule - 1) as usize;
        self.account.uses[at] = self.account.uses[at].saturating_add(1);
    }

    /// Enters a rule; false, and none is entered, exactly where 2,048 rules stand in one another. Takes no memory.
    pub fn enter(&mut self) -> bool
        ensures may { IsTrue result ↔ (self.old.nest < most_nested) }
        ensures account { self.new.account ≡ self.old.account }
        ensures nest { IsTrue result → self.new.nest ≡ self.old.nest + 1 }
        ensures stays { self.old.nest ≡ most_nested → self.new.nest ≡ self.old.nest }
    {
        if self.nest == MOST_NESTED {
            return false;
        }
        self.nest += 1;
        true
    }

    /// How many rules may still stand in one another. Takes no memory.
    pub fn room(&self) -> u32
        ensures is { result + self.now.nest ≡ most_nested }
    {
        MOST_NESTED - self.nest
    }

    /// Leaves a rule, of which at least one stands. Takes no memory.
    pub fn leave(&mut self)
        requires stands { 0 < self.old.nest }
        ensures account { self.new.account ≡ self.old.account }
        ensures nest { self.new.nest ≡ self.old.nest - 1 }
    {
        self.nest -= 1;
    }
}

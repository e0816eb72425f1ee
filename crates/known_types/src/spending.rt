//! What a run took, taken again.
ghost use Rattle.std.specs.Prelude.{◌≡◌, ◌≤◌, ◌-◌, IsTrue, false, length};
ghost use Rattle.run_costs.specs.Costs.{raised, differences, spent, AreUnder};

use pc_rules::meter::{Account, Meter};

/// Whether no count stands at the last value of 64 bits.
pub(crate) fn all_under(counts: &[u64; 12]) -> bool
    ensures under { IsTrue result → AreUnder counts.now }
{
    for i in 0..12 {
        if counts[i] == u64::MAX {
            return false;
        }
    }
    true
}

/// Counts with the differences of two others, each up to the last value of 64 bits.
fn raised(counts: &[u64; 12], before: &[u64; 12], after: &[u64; 12]) -> [u64; 12]
    ensures is { result ≡ raised (differences after.now before.now) counts.now }
    ensures counts { length before.now ≡ length counts.now }
{
    let mut uses = *counts;
    for i in 0..12 {
        uses[i] = uses[i].saturating_add(after[i].saturating_sub(before[i]));
    }
    uses
}

/// Takes the units by which two accounts differ, and notes the uses, where so many units are left and no count of uses stands at its last value.
pub(crate) fn spend(m: &mut Meter, before: &Account, after: &Account) -> bool
    ensures enough { IsTrue result → before.now.left - after.now.left ≤ m.old.account.left }
    ensures under { IsTrue result → AreUnder m.old.account.uses }
    ensures counts { IsTrue result → length before.now.uses ≡ length m.old.account.uses }
    ensures account { IsTrue result → m.new.account ≡ spent (before.now.left - after.now.left) (differences after.now.uses before.now.uses) m.old.account }
    ensures nest { m.new.nest ≡ m.old.nest }
    ensures still { result ≡ false → m.new ≡ m.old }
{
    let units = before.left.saturating_sub(after.left);
    if m.account.left < units || !all_under(&m.account.uses) {
        return false;
    }
    let uses = raised(&m.account.uses, &before.uses, &after.uses);
    m.account = Account {
        left: m.account.left - units,
        uses,
    };
    true
}

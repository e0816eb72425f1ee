//! What the making of a certificate has come to.
ghost use Rattle.std.specs.Prelude.{◌≡◌, [], ◌∷◌, ◌++◌, IfOk, IfErr};
ghost use Rattle.pc_rules.specs.declared.stop.Stop.TheVariants.{Memory};
ghost use Rattle.pc_rules.specs.declared.stop.Halt.TheVariants as halts;
ghost use Rattle.cert_rules.specs.Writing.{noting};
ghost use Rattle.script_making.specs.Makes.{Makes};

use cert_rules::item::CertItem;
use pc_rules::meter::Meter;
use pc_rules::stop::{Halt, Stop};

/// What the making of a certificate may still spend, and the items that are written so far.
#[derive(Drop)]
pub struct Draft {
    pub meter: Meter,
    pub written: Vec<CertItem>,
}

impl Draft {
    /// Writes an item behind the others. Only `Memory`.
    pub fn put(&mut self, item: CertItem) -> Result<(), Halt>
        ensures makes { Makes (noting item self.old.meter.account) result self.old self.new }
        ensures meter { self.new.meter ≡ self.old.meter }
        ensures only_memory { IfErr result (λ h. h ≡ halts.Stop Memory) }
        ensures written { IfOk result (λ _. self.new.written.items ≡ self.old.written.items ++ item ∷ []) }
    {
        match self.written.push(item) {
            Ok(()) => Ok(()),
            Err(_) => Err(Halt::Stop(Stop::Memory)),
        }
    }
}

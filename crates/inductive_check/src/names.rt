//! Names of constructors.
ghost use Rattle.std.specs.Prelude.{◌≡◌, map, []};
ghost use Rattle.pc_rules.specs.declared.meter.Account.{Account};
ghost use Rattle.pc_rules.specs.Follows.{Answers};
ghost use Rattle.pc_rules.specs.DirectedDeclarations.{has_name, distinct_names};
ghost use Rattle.inductive_check.specs.Given.{ctor_of};

use dump_reader::declaration::RawCtor;
use pc_rules::broken::Broken;
use pc_rules::stop::Halt;
use pc_terms::leaf::Name;

/// Whether one of the constructors has the name.
fn has_name(ctors: &[RawCtor], name: Name) -> bool
    ensures is { result ≡ has_name name (map ctor_of ctors.now) }
{
    for ctor in ctors {
        if ctor.name.0 == name.0 {
            return true;
        }
    }
    false
}

/// Whether no two of the constructors share a name. `DuplicateName` with the first name that an earlier constructor has. Takes no memory.
pub fn are_distinct(ctors: &[RawCtor]) -> Result<(), Halt>
    ensures answers { (u : Account) → Answers (distinct_names [] (map ctor_of ctors.now) u) result u }
{
    for i in 0..ctors.len() {
        let name = ctors[i].name;
        if has_name(&ctors[..i], name) {
            return Err(Halt::Broken(Broken::DuplicateName { name: name.0 }));
        }
    }
    Ok(())
}

//! Lists that are made item by item, and the numbers of their items.
ghost use Rattle.std.specs.Prelude.{◌≡◌, ◌++◌, ◌∷◌, [], IfOk, IfErr};
ghost use Rattle.pc_rules.specs.declared.stop.Stop.TheVariants.{Memory};

use pc_rules::stop::Stop;

/// Puts an item at the end. Only `Memory`.
pub fn push<X: Drop>(items: &mut Vec<X>, item: X) -> Result<(), Stop>
    ensures longer { IfOk result (λ _. items.new.items ≡ items.old.items ++ item ∷ []) }
    ensures only_memory { IfErr result (λ s. s ≡ Memory) }
{
    match items.push(item) {
        Ok(()) => Ok(()),
        Err(_) => Err(Stop::Memory),
    }
}

/// The number of items as a number of 32 bits. `Memory` where it is none.
pub fn number(items: usize) -> Result<u32, Stop>
    ensures is { IfOk result (λ n. n ≡ items) }
    ensures only_memory { IfErr result (λ s. s ≡ Memory) }
{
    match u32::try_from(items) {
        Ok(n) => Ok(n),
        Err(_) => Err(Stop::Memory),
    }
}

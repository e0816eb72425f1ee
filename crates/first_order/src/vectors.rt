//! Items at the end of vectors.
ghost use Rattle.std.specs.Prelude.{◌≡◌, ◌++◌, ◌∷◌, [], IfOk, IfErr, MatchOption};
ghost use Rattle.pc_terms.specs.declared.term.MakeFault.TheVariants.{Memory};

use pc_terms::term::MakeFault;

/// Puts an item at the end. Only `Memory`.
pub(crate) fn put<T: Drop>(items: &mut Vec<T>, item: T) -> Result<(), MakeFault>
    ensures ok { IfOk result (λ _. items.new.items ≡ items.old.items ++ item ∷ []) }
    ensures only_memory { IfErr result (λ e. e ≡ Memory) }
{
    match items.push(item) {
        Ok(()) => Ok(()),
        Err(_) => Err(MakeFault::Memory),
    }
}

/// Takes the last item away; none where there is none. Takes no memory.
pub(crate) fn take_last<T>(items: &mut Vec<T>) -> Option<T>
    ensures last { MatchOption result (items.old.items ≡ []) (λ x. items.old.items ≡ items.new.items ++ x ∷ []) }
{
    items.pop()
}

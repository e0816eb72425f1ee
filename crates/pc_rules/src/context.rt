//! Contexts.
ghost use Rattle.std.specs.Prelude.{◌≡◌, ◌<◌, ◌^◌, [], ◌∷◌, length, slice_get, IfOk, IfErr, MatchOption, Some, None};
ghost use Rattle.pc_rules.specs.declared.stop.Stop.TheVariants.{Memory};

use crate::shared_list::SharedList;
use crate::stop::Stop;
use calculus_rules::entry::Entry;
use std::alloc::Global;
use std::marker::Model;

/// A context: the entries of the variables in scope. Contracts see it as their list, the innermost first, so that the place of an entry
/// in it is the index of its variable.
///
/// A context that is extended shares all its entries with the longer one.
#[derive(Drop)]
pub struct Ctx {
    entries: SharedList<Entry>,
    len: u32,
}

impl Model for Ctx {
    ghost use Rattle.std.specs.Prelude.{◌≡◌, List, length};
    ghost use Rattle.calculus_rules.specs.declared.entry.Entry.{Entry};
    ghost use Rattle.std.specs.Coded.{codes};
    ghost use Rattle.pc_terms.specs.Code.{coded_term};

    ghost Value = { List Entry };

    ghost coded = { Prim.hlevel (codes, coded_term) };

    ghost view = { λ c. c.entries };

    ghost invariant = { λ c. c.len ≡ length c.entries };
}

impl Ctx {
    /// The empty context. Takes no memory.
    pub fn new() -> Ctx
        ensures empty { result ≡ [] }
    {
        Ctx {
            entries: SharedList::new(),
            len: 0,
        }
    }

    /// The number of entries. Takes no memory.
    pub fn len(&self) -> u32
        ensures is { result ≡ length self.now }
    {
        self.len
    }

    /// The entry of variable i, where 0 is the innermost; none exactly where there are not so many. Takes no memory.
    pub fn entry(&self, i: u32) -> Option<&Entry>
        ensures at { MatchOption result (slice_get self.now i ≡ None) (λ e. slice_get self.now i ≡ Some e.now) }
    {
        self.entries.get(i)
    }

    /// The context with one entry more, which is the innermost. Only `Memory`.
    pub fn extended(&self, alloc: Global, e: Entry) -> Result<Ctx, Stop>
        ensures longer { IfOk result (λ c. c ≡ e ∷ self.now) }
        ensures only_memory { IfErr result (λ s. s ≡ Memory) }
    {
        if self.len == u32::MAX {
            return Err(Stop::Memory);
        }
        let entries = self.entries.with(alloc, e)?;
        Ok(Ctx {
            entries,
            len: self.len + 1,
        })
    }

    /// The same context, which shares its entries with this one. Only `Memory`.
    pub fn share(&self) -> Result<Ctx, Stop>
        ensures same { IfOk result (λ c. c ≡ self.now) }
        ensures only_memory { IfErr result (λ s. s ≡ Memory) }
    {
        let entries = self.entries.share()?;
        Ok(Ctx {
            entries,
            len: self.len,
        })
    }
}

//! Declarations, in their order and by their names.
ghost use Rattle.std.specs.Prelude.{◌≡◌, [], ◌∷◌, slice_get, IfOk, IfErr, MatchOption, Some, None};
ghost use Rattle.pc_rules.specs.declared.stop.Stop.TheVariants.{Memory};
ghost use Rattle.calculus_rules.specs.Lookups.{kept_at};

use crate::number_map::NumberMap;
use crate::shared_list::SharedList;
use crate::stop::Stop;
use calculus_rules::declaration::Kept;
use pc_terms::leaf::Name;
use std::alloc::Global;
use std::marker::Model;
use std::rc::Rc;

/// Declarations, which contracts see as their list, the newest first. With one more, they share all others.
///
/// They are kept in their order, and by the numbers of their names.
#[derive(Drop)]
pub struct Declarations {
    kept: SharedList<Rc<Kept>>,
    names: NumberMap<Kept>,
}

impl Model for Declarations {
    ghost use Rattle.std.specs.Prelude.{List, map};
    ghost use Rattle.calculus_rules.specs.declared.declaration.Kept.{Kept};
    ghost use Rattle.std.specs.Coded.{codes};
    ghost use Rattle.pc_terms.specs.Code.{coded_term};

    ghost Value = { List Kept };

    ghost coded = { Prim.hlevel (codes, coded_term) };

    ghost use Rattle.pc_rules.specs.Lookup.{shared, IsIndex};

    ghost view = { λ a. map shared a.kept };

    ghost invariant = { λ a. IsIndex a.names (map shared a.kept) };
}

impl Declarations {
    /// No declarations. Takes no memory.
    pub fn new() -> Declarations
        ensures empty { result ≡ [] }
    {
        Declarations {
            kept: SharedList::new(),
            names: NumberMap::new(),
        }
    }

    /// The newest declaration of a name; none exactly where there is none. Takes no memory.
    pub fn find(&self, n: Name) -> Option<&Kept>
        ensures kept { MatchOption result (kept_at self.now n ≡ None) (λ k. kept_at self.now n ≡ Some k.now) }
    {
        self.names.get(n.0)
    }

    /// The declaration at a place, where the newest is at 0; none exactly where there are not so many. Takes no memory.
    pub fn get(&self, place: u32) -> Option<&Kept>
        ensures at { MatchOption result (slice_get self.now place ≡ None) (λ k. slice_get self.now place ≡ Some k.now) }
    {
        match self.kept.get(place) {
            None => None,
            Some(rc) => Some(&**rc),
        }
    }

    /// These declarations with one more, which is the newest. Only `Memory`.
    pub fn with(&self, alloc: Global, k: Kept) -> Result<Declarations, Stop>
        ensures kept { IfOk result (λ ds. ds ≡ k ∷ self.now) }
        ensures only_memory { IfErr result (λ s. s ≡ Memory) }
    {
        let name = k.name();
        let Ok(rc) = Rc::new(alloc, k) else {
            return Err(Stop::Memory);
        };
        let kept = self.kept.with(alloc, rc.clone()?)?;
        let names = self.names.with(alloc, name.0, rc)?;
        Ok(Declarations { kept, names })
    }

    /// A walk over the declarations, which begins at the newest. Takes no memory.
    pub fn walk(&self) -> Walk<'_>
        ensures whole { result ≡ self.now }
    {
        Walk { rest: &self.kept }
    }
}

/// A walk over declarations. Contracts see it as the declarations that are still to come, the newest first.
#[derive(Drop)]
pub struct Walk<'a> {
    rest: &'a SharedList<Rc<Kept>>,
}

impl<'a> Model for Walk<'a> {
    ghost use Rattle.std.specs.Prelude.{List, map};
    ghost use Rattle.calculus_rules.specs.declared.declaration.Kept.{Kept};
    ghost use Rattle.std.specs.Coded.{codes};
    ghost use Rattle.pc_terms.specs.Code.{coded_term};

    ghost Value = { List Kept };

    ghost coded = { Prim.hlevel (codes, coded_term) };

    ghost use Rattle.pc_rules.specs.Lookup.{shared};

    ghost view = { λ w. map shared w.rest.now };
}

impl<'a> Walk<'a> {
    /// The next declaration; none exactly where the walk is at its end. Takes no memory.
    pub fn next(&mut self) -> Option<&'a Kept>
        ensures next { MatchOption result ((self.old ≡ []) × (self.new ≡ [])) (λ k. self.old ≡ k.now ∷ self.new) }
    {
        match self.rest.parts() {
            None => None,
            Some((kept, rest)) => {
                self.rest = rest;
                Some(&**kept)
            }
        }
    }
}

//! Terms whose variables are bound to terms.
ghost use Rattle.std.specs.Prelude.{◌≡◌, ◌<◌, ◌≤◌, ◌^◌, ◌↔◌, [], ◌∷◌, length, slice_get, IfOk, IfErr, IfSome, IsTrue};
ghost use Rattle.pc_terms.specs.declared.term.MakeFault.TheVariants.{Memory};
ghost use Rattle.pc_terms.specs.Syntax.{substitute};
ghost use Rattle.reduce_machine.specs.Found.{IsFound};
ghost use Rattle.reduce_machine.specs.Memos.{number_of_list};
ghost use Rattle.reduce_machine.specs.Reads.{stands, read};

use crate::memo::{Memo, memo_of};
use pc_terms::term::{MakeFault, Node, Term};
use stamps::Stamp;
use std::alloc::Global;
use std::marker::Model;
use std::rc::Rc;

/// What the innermost variables of a term are bound to, variable 0 first. Bindings with one more share the others with it. Contracts see
/// the terms, and how deep bindings lie in one another.
#[cycle(bindings)]
#[derive(Drop)]
pub struct Bindings {
    first: Option<Rc<Cell>>,
}

/// What one variable is bound to, and the bindings of the variables behind it.
#[cycle(bindings)]
#[derive(Drop)]
struct Link {
    item: Lazy,
    below: Bindings,
}

/// A link in its place. `rank` is above that of all bindings that it leads to, and `stamp` is for what it binds. A binding that is no term
/// as it is has a place for the term that it is read to.
#[cycle(bindings)]
#[derive(Drop)]
struct Cell {
    rank: u32,
    link: Link,
    memo: Option<Memo>,
    stamp: Stamp,
}

/// A term under bindings.
#[cycle(bindings)]
#[derive(Drop)]
pub struct Lazy {
    pub term: Term,
    pub env: Bindings,
}

impl Model for Bindings {
    ghost use Rattle.reduce_machine.specs.Bound.{Bound};
    ghost use Rattle.std.specs.Coded.{codes};
    ghost use Rattle.pc_terms.specs.Code.{coded_term};

    ghost Value = { Bound };

    ghost coded = { Prim.hlevel (codes, coded_term) };

    ghost use Rattle.reduce_machine.specs.Cells.{bound_of, IsRanked};

    ghost view = { λ b. bound_of b.first };

    ghost invariant = { λ b. IsRanked b.first };

    ghost size = { λ v. v.rank };
}

/// What a variable stands for.
#[derive(Drop)]
pub enum Found<'a> {
    /// An item, and the place for the term that it is read to.
    Item(&'a Lazy, &'a Option<Memo>),
    /// The variable of this number behind all items.
    Past(u32),
}

/// A stamp for what a link binds.
fn stamp_of(_link: &Link) -> Stamp
    ensures is { result ≡ number_of_list (read _link.now.item ∷ _link.now.below.items) }
{
    Stamp::new()
}

impl Bindings {
    /// No bindings.
    pub fn new() -> Bindings
        ensures items { result.items ≡ [] }
        ensures rank { result.rank ≡ 0 }
    {
        Bindings { first: None }
    }

    /// How deep bindings lie in one another here.
    pub fn rank(&self) -> u32
        ensures is { result ≡ self.now.rank }
        ensures small { self.now.rank < 2 ^ 32 }
    {
        match &self.first {
            None => 0,
            Some(cell) => cell.rank,
        }
    }

    /// Whether there is no binding.
    pub fn is_empty(&self) -> bool
        ensures is { IsTrue result ↔ (self.now.items ≡ []) }
    {
        match &self.first {
            None => true,
            Some(_) => false,
        }
    }

    /// The same bindings.
    pub fn share(&self) -> Result<Bindings, MakeFault>
        ensures ok { IfOk result (λ b. b ≡ self.now) }
        ensures only_memory { IfErr result (λ e. e ≡ Memory) }
    {
        match &self.first {
            None => Ok(Bindings { first: None }),
            Some(cell) => match cell.clone() {
                Ok(cell) => Ok(Bindings { first: Some(cell) }),
                Err(_) => Err(MakeFault::Memory),
            },
        }
    }

    /// Whether both are seen to be the same cells. It takes no memory, and looks at nothing that is bound.
    pub fn same(&self, other: &Bindings) -> bool
        ensures is { IsTrue result → self.now.items ≡ other.now.items }
    {
        match (&self.first, &other.first) {
            (None, None) => true,
            (Some(cell), Some(other)) => cell.stamp.same(&other.stamp),
            _ => false,
        }
    }

    /// How many hold the first of these bindings; 0 where there is none.
    pub(crate) fn holders(&self) -> usize {
        match &self.first {
            None => 0,
            Some(cell) => Rc::strong_count(cell),
        }
    }

    /// What variable i stands for.
    pub fn find(&self, i: u32) -> Found<'_>
        ensures found { IsFound self.now i result }
    {
        let mut list = self;
        let mut left = i;
        loop {
            match &list.first {
                None => return Found::Past(left),
                Some(cell) => {
                    if left == 0 {
                        return Found::Item(&cell.link.item, &cell.memo);
                    }
                    left -= 1;
                    list = &cell.link.below;
                }
            }
        }
    }

    /// The bindings of variable i and those behind it; none where it is behind all items.
    pub(crate) fn from(&self, i: u32) -> Option<&Bindings>
        ensures items { IfSome result (λ b. slice_get b.now.items 0 ≡ slice_get self.now.items i) }
        ensures rank { IfSome result (λ b. b.now.rank ≤ self.now.rank) }
        ensures some { IfSome result (λ b. i < length self.now.items) }
    {
        let mut list = self;
        let mut left = i;
        loop {
            match &list.first {
                None => return None,
                Some(cell) => {
                    if left == 0 {
                        return Some(list);
                    }
                    left -= 1;
                    list = &cell.link.below;
                }
            }
        }
    }

    /// One more binding, which is that of variable 0.
    pub fn with(self, alloc: Global, item: Lazy) -> Result<Bindings, MakeFault>
        ensures items { IfOk result (λ b. b.items ≡ read item ∷ self.items) }
        ensures only_memory { IfErr result (λ e. e ≡ Memory) }
    {
        let rank = self.rank().max(item.env.rank());
        if rank == u32::MAX {
            return Err(MakeFault::Memory);
        }
        let memo = memo_of(alloc, &item)?;
        let link = Link { item, below: self };
        let stamp = stamp_of(&link);
        let cell = Cell {
            rank: rank + 1,
            link,
            memo,
            stamp,
        };
        match Rc::new(alloc, cell) {
            Ok(cell) => Ok(Bindings { first: Some(cell) }),
            Err(_) => Err(MakeFault::Memory),
        }
    }
}

impl Lazy {
    /// A term as it is.
    pub fn plain(term: Term) -> Lazy
        ensures term { result.term ≡ term }
        ensures items { result.env.items ≡ [] }
        ensures rank { result.env.rank ≡ 0 }
    {
        Lazy {
            term,
            env: Bindings::new(),
        }
    }

    /// The same term under the same bindings.
    pub fn share(&self) -> Result<Lazy, MakeFault>
        ensures ok { IfOk result (λ l. l ≡ self.now) }
        ensures only_memory { IfErr result (λ e. e ≡ Memory) }
    {
        let term = self.term.share()?;
        let env = self.env.share()?;
        Ok(Lazy { term, env })
    }

    /// Whether the term's form tells that it may have a step: a match, a definition, a constant, or an application that is none of a constructor
    /// or a family. A lone variable may have one too, and isn't told. It is asked only to see what is worth a place.
    pub(crate) fn may_step(&self) -> bool {
        let mut head = &self.term;
        let mut applied = false;
        'inward: while let Node::App(function, _) = head.view() {
            head = function;
            applied = true;
        }
        match head.view() {
            Node::Case(_) | Node::LetIn(_, _, _) | Node::Const(_) => true,
            Node::Construct(_, _) | Node::Ind(_) => false,
            _ => applied,
        }
    }

    /// A part of a term under the term's bindings: nothing is kept of them that is seen to be of no use.
    pub fn part(part: &Term, env: &Bindings) -> Result<Lazy, MakeFault>
        ensures ok { IfOk result (λ l. read l ≡ substitute (stands env.now.items) part.now) }
        ensures rank { IfOk result (λ l. l.env.rank ≤ env.now.rank) }
        ensures only_memory { IfErr result (λ e. e ≡ Memory) }
    {
        if part.loose() == 0 {
            let term = part.share()?;
            return Ok(Lazy::plain(term));
        }
        if let Node::Rel(i) = part.view() {
            if let Found::Item(item, _) = env.find(*i) {
                return item.share();
            }
        }
        let term = part.share()?;
        let env = env.share()?;
        Ok(Lazy { term, env })
    }
}

//! What the terms of bindings were reduced to, with the units that this took.
//!
//! A reduction has a table, and a binding whose term may have a step has an entry there once the term was reduced, as the term of its variable, to what
//! can be kept: a head by itself, or a constructor applied to variables that are bound to its arguments; so the arguments are at one place too,
//! and have entries of their own. Nothing is kept of other values, of bindings that nothing else holds, or where there is no memory for it.
//! Where the variable is met again, the units of the entry are taken, and nothing is reduced: the directed rules say how many units a run
//! takes, and not that its work is done again.
//!
//! Memory: a table lives for one reduction, or for those that share it (`setting`). It has at most 65,536 entries (2 MB), each with at most one
//! binding for each argument of its constructor; a full one is emptied. What these bindings lead to was made by the steps of these reductions, and
//! may live longer by the table: till its end, or till the binding whose entry it is has gone and the entry's place is taken by another. Two entries
//! are looked at for that when one is put in, in turn; so where nothing is used twice a table stays small.
ghost use Rattle.std.specs.Prelude.{◌≡◌, ◌<◌, ◌≤◌, ◌-◌, [], IfOk, IfErr, IfSome, IsTrue, Some, length, map};
ghost use Rattle.pc_terms.specs.Syntax.{Term, Rel, apply, put_all, substitute, variables};
ghost use Rattle.pc_terms.specs.Counted.{number_of};
ghost use Rattle.pc_terms.specs.declared.term.MakeFault.TheVariants.{Memory};
ghost use Rattle.calculus_rules.specs.Context.{Values};
ghost use Rattle.calculus_rules.specs.Environment.{Env};
ghost use Rattle.reduce_machine.specs.Reducts.{after, AreReducts, ComesTo, IsItem, IsLooked, IsReady, IsReduct};
ghost use Rattle.reduce_machine.specs.Memos.{IsMemo};
ghost use Rattle.reduce_machine.specs.Reads.{stands, read};
ghost use Rattle.reduce_machine.specs.Values.{term_of, IsValue};

use crate::bindings::{Bindings, Found, Lazy};
use crate::meeting::is_alone;
use crate::memo::Memo;
use crate::spines::Head;
use crate::values::Value;
use pc_terms::term::{MakeFault, Node, Term};
use stamps::Stamp;
use std::alloc::Global;
use std::rc::Rc;

/// So many entries a table has at most: enough that a second walk over a list of so many items finds what the first has kept.
const MOST_KEPT: usize = 65536;

/// What a term was reduced to, and how many units that took. `own` is the stamp of the place for that term.
#[derive(Drop)]
pub(crate) struct Reduct {
    own: Rc<Stamp>,
    units: u64,
    term: Lazy,
}

/// What a term is after so many weak-head steps.
#[derive(Drop)]
pub(crate) struct Known {
    pub(crate) units: u64,
    pub(crate) term: Lazy,
}

/// Whether a binding may be looked up again.
#[derive(Clone, Copy, Drop)]
pub(crate) enum Uses {
    /// It may.
    More,
    /// Nothing holds it any more but what looks at it now.
    Last,
}

/// What is found of a variable that is bound.
#[derive(Drop)]
pub(crate) enum Looked {
    /// What it was reduced to.
    Known(Known),
    /// What it is bound to, which may have a step that is of use later.
    Wanted(Lazy),
    /// What it is bound to.
    Plain(Lazy),
}

/// A head that is applied to so many of the innermost variables, the outermost of them first.
#[derive(Drop)]
pub(crate) struct Made {
    head: Term,
    count: usize,
    whole: Term,
}

/// A table; the units left, as they were told last; variable 0; the head that was applied to variables last; and the place of the entry
/// that is looked at next, to see whether it's still of use.
#[derive(Drop)]
pub(crate) struct Reducts {
    pub(crate) entries: Vec<Reduct>,
    pub(crate) left: u64,
    variable: Term,
    made: Option<Made>,
    next: usize,
}

impl Reducts {
    /// An empty table.
    pub(crate) fn new(alloc: Global, left: u64) -> Result<Reducts, MakeFault>
        ensures empty { IfOk result (λ k. k.entries.items ≡ []) }
        ensures left { IfOk result (λ k. k.left ≡ left) }
        ensures ready { IfOk result (λ k. IsReady k) }
        ensures only_memory { IfErr result (λ e. e ≡ Memory) }
    {
        let variable = Term::make(alloc, Node::Rel(0))?;
        Ok(Reducts {
            entries: Vec::new(alloc),
            left,
            variable,
            made: None,
            next: 0,
        })
    }

    /// A part of a term under the term's bindings. A variable that is bound to a term which may have a step stays one, so that what that is
    /// reduced to is kept at one place.
    pub(crate) fn argument(&self, part: &Term, env: &Bindings) -> Result<Lazy, MakeFault>
        requires ready { IsReady self.now }
        ensures ok { IfOk result (λ l. read l ≡ substitute (stands env.now.items) part.now) }
        ensures rank { IfOk result (λ l. l.env.rank ≤ env.now.rank) }
        ensures only_memory { IfErr result (λ e. e ≡ Memory) }
    {
        if let Node::Rel(i) = part.view() {
            if let Some(behind) = env.from(*i) {
                if is_wanted(behind) {
                    let first = self.first(behind)?;
                    return Ok(first);
                }
            }
        }
        Lazy::part(part, env)
    }

    /// Variable 0 under bindings.
    fn first(&self, bindings: &Bindings) -> Result<Lazy, MakeFault>
        ensures term { IfOk result (λ l. l.term ≡ self.now.variable) }
        ensures env { IfOk result (λ l. l.env ≡ bindings.now) }
        ensures only_memory { IfErr result (λ e. e ≡ Memory) }
    {
        let term = self.variable.share()?;
        let env = bindings.share()?;
        Ok(Lazy { term, env })
    }

    /// What is kept of the term of a place.
    fn find(&self, memo: &Memo) -> Result<Option<Known>, MakeFault>
        ensures is { IfOk result (λ o. IfSome o (λ k. (E : Env) (V : Values) (t : Term) → AreReducts E V self.now.entries.items → memo.now ≡ number_of t → ComesTo E V t k)) }
        ensures only_memory { IfErr result (λ e. e ≡ Memory) }
    {
        let at = memo.hint() as usize;
        let reducts = self.entries.as_slice();
        if at >= reducts.len() {
            return Ok(None);
        }
        let reduct = &reducts[at];
        if memo.is_of(&reduct.own) {
            let term = reduct.term.share()?;
            return Ok(Some(Known {
                units: reduct.units,
                term,
            }));
        }
        Ok(None)
    }

    /// What is known of an item.
    pub(crate) fn look(&self, item: &Lazy, memo: &Option<Memo>) -> Result<Looked, MakeFault>
        requires memo { IsMemo memo.now (read item.now) }
        ensures item { IfOk result (IsItem item.now) }
        ensures known { IfOk result (λ l. (E : Env) (V : Values) → AreReducts E V self.now.entries.items → IsLooked E V (read item.now) l) }
        ensures only_memory { IfErr result (λ e. e ≡ Memory) }
    {
        let Some(memo) = memo else {
            let item = item.share()?;
            return Ok(Looked::Plain(item));
        };
        if let Some(known) = self.find(memo)? {
            return Ok(Looked::Known(known));
        }
        let wanted = item.may_step();
        let item = item.share()?;
        if wanted {
            return Ok(Looked::Wanted(item));
        }
        Ok(Looked::Plain(item))
    }

    /// Empties a full table.
    fn make_room(&mut self, alloc: Global)
        requires ready { IsReady self.old }
        ensures kept { (E : Env) (V : Values) → AreReducts E V self.old.entries.items → AreReducts E V self.new.entries.items }
        ensures room { length self.new.entries.items < 65536 }
        ensures left { self.new.left ≡ self.old.left }
        ensures ready { IsReady self.new }
    {
        if self.entries.len() >= MOST_KEPT {
            self.entries = Vec::new(alloc);
        }
    }

    /// Puts one more entry at the end of the table, if there is memory for that; answers whether it is there.
    fn push(&mut self, entry: Reduct) -> bool
        requires ready { IsReady self.old }
        ensures kept { (E : Env) (V : Values) → AreReducts E V self.old.entries.items → IsReduct E V entry → AreReducts E V self.new.entries.items }
        ensures left { self.new.left ≡ self.old.left }
        ensures ready { IsReady self.new }
    {
        self.entries.push(entry).is_ok()
    }

    /// The place of the next entry, where the binding whose entry it is has gone; the next one after it is looked at then.
    fn unused_next(&mut self) -> Option<usize>
        requires ready { IsReady self.old }
        ensures within { IfSome result (λ at. at < length self.new.entries.items) }
        ensures entries { self.new.entries ≡ self.old.entries }
        ensures left { self.new.left ≡ self.old.left }
        ensures ready { IsReady self.new }
    {
        let at = self.next;
        if at >= self.entries.len() {
            self.next = 0;
            return None;
        }
        self.next = at + 1;
        if Rc::strong_count(&self.entries[at].own) == 1 {
            return Some(at);
        }
        None
    }

    /// The place of an entry that nobody can look up any more; two are looked at.
    fn unused(&mut self) -> Option<usize>
        requires ready { IsReady self.old }
        ensures within { IfSome result (λ at. at < length self.new.entries.items) }
        ensures entries { self.new.entries ≡ self.old.entries }
        ensures left { self.new.left ≡ self.old.left }
        ensures ready { IsReady self.new }
    {
        match self.unused_next() {
            Some(at) => Some(at),
            None => self.unused_next(),
        }
    }

    /// Puts an entry in the place of another.
    fn replace(&mut self, at: usize, entry: Reduct)
        requires within { at < length self.old.entries.items }
        requires ready { IsReady self.old }
        ensures kept { (E : Env) (V : Values) → AreReducts E V self.old.entries.items → IsReduct E V entry → AreReducts E V self.new.entries.items }
        ensures left { self.new.left ≡ self.old.left }
        ensures ready { IsReady self.new }
    {
        self.entries[at] = entry;
    }

    /// Puts one more entry at the end of the table, which is emptied first where it is full; answers its place, if there is memory for it.
    fn add(&mut self, alloc: Global, entry: Reduct) -> Option<u32>
        requires ready { IsReady self.old }
        ensures kept { (E : Env) (V : Values) → AreReducts E V self.old.entries.items → IsReduct E V entry → AreReducts E V self.new.entries.items }
        ensures left { self.new.left ≡ self.old.left }
        ensures ready { IsReady self.new }
    {
        self.make_room(alloc);
        let at = self.entries.len() as u32;
        if self.push(entry) {
            return Some(at);
        }
        None
    }

    /// Puts an entry into the table: in the place of one that is of no use, where one is found, and else at the end. Answers its place, if there is
    /// memory for it.
    fn put_entry(&mut self, alloc: Global, entry: Reduct) -> Option<u32>
        requires ready { IsReady self.old }
        ensures kept { (E : Env) (V : Values) → AreReducts E V self.old.entries.items → IsReduct E V entry → AreReducts E V self.new.entries.items }
        ensures left { self.new.left ≡ self.old.left }
        ensures ready { IsReady self.new }
    {
        match self.unused() {
            Some(at) => {
                self.replace(at, entry);
                number(at)
            }
            None => self.add(alloc, entry),
        }
    }

    /// Puts one more entry into the table, and says its place at the binding.
    fn put(&mut self, alloc: Global, memo: &Memo, units: u64, term: &Lazy)
        requires ready { IsReady self.old }
        requires units { 0 < units }
        ensures kept { (E : Env) (V : Values) → AreReducts E V self.old.entries.items → ((t : Term) → memo.now ≡ number_of t → after E V units t ≡ Some (read term.now)) → AreReducts E V self.new.entries.items }
        ensures left { self.new.left ≡ self.old.left }
        ensures ready { IsReady self.new }
    {
        let Ok(own) = memo.key() else {
            return;
        };
        let Ok(term) = term.share() else {
            return;
        };
        if let Some(at) = self.put_entry(alloc, Reduct { own, units, term }) {
            memo.set_hint(at);
        }
    }

    /// Keeps what the variable `own` was reduced to since so many units were left, where that is a constructor with arguments or stands by itself,
    /// and there may be more uses. Answers it as a term under bindings, where that is at hand.
    pub(crate) fn keep(
        &mut self,
        alloc: Global,
        own: &Lazy,
        began: u64,
        value: &Value,
        known: Option<Lazy>,
        uses: Uses,
    ) -> Option<Lazy>
        requires ready { IsReady self.old }
        requires value { IsValue value.now }
        requires known { IfSome known (λ l. read l ≡ term_of value.now) }
        ensures known { IfSome result (λ l. read l ≡ term_of value.now) }
        ensures kept { (E : Env) (V : Values) → AreReducts E V self.old.entries.items → self.old.left ≤ began → after E V (began - self.old.left) (read own.now) ≡ Some (term_of value.now) → AreReducts E V self.new.entries.items }
        ensures left { self.new.left ≡ self.old.left }
        ensures ready { IsReady self.new }
    {
        if began <= self.left {
            return known;
        }
        let units = began - self.left;
        let closed = self.closed(alloc, value, known)?;
        if let Uses::More = uses {
            self.keep_at(alloc, own, units, &closed);
        }
        Some(closed)
    }

    /// Keeps what a variable is after so many units, at the place of its binding.
    fn keep_at(&mut self, alloc: Global, own: &Lazy, units: u64, term: &Lazy)
        requires ready { IsReady self.old }
        requires units { 0 < units }
        ensures kept { (E : Env) (V : Values) → AreReducts E V self.old.entries.items → after E V units (read own.now) ≡ Some (read term.now) → AreReducts E V self.new.entries.items }
        ensures left { self.new.left ≡ self.old.left }
        ensures ready { IsReady self.new }
    {
        if let Node::Rel(i) = own.term.view() {
            if let Found::Item(_, place) = own.env.find(*i) {
                if let Some(memo) = place {
                    self.put(alloc, memo, units, term);
                }
            }
        }
    }

    /// A value as a term under bindings: as it is known, or else made, if there is memory for that.
    fn closed(&mut self, alloc: Global, value: &Value, known: Option<Lazy>) -> Option<Lazy>
        requires ready { IsReady self.old }
        requires value { IsValue value.now }
        requires known { IfSome known (λ l. read l ≡ term_of value.now) }
        ensures is { IfSome result (λ l. read l ≡ term_of value.now) }
        ensures ready { IsReady self.new }
        ensures entries { self.new.entries ≡ self.old.entries }
        ensures left { self.new.left ≡ self.old.left }
    {
        match known {
            Some(l) => Some(l),
            None => match self.closure(alloc, value) {
                Ok(made) => made,
                Err(_) => None,
            },
        }
    }

    /// A value as a term under bindings: a head by itself as it is, a constructor applied to variables that are bound to its arguments. None for
    /// other values.
    fn closure(&mut self, alloc: Global, value: &Value) -> Result<Option<Lazy>, MakeFault>
        requires ready { IsReady self.old }
        requires value { IsValue value.now }
        ensures ok { IfOk result (λ o. IfSome o (λ l. read l ≡ term_of value.now)) }
        ensures ready { IsReady self.new }
        ensures entries { self.new.entries ≡ self.old.entries }
        ensures left { self.new.left ≡ self.old.left }
    {
        let Head::Open(head) = &value.spine.head else {
            return Ok(None);
        };
        if is_alone(&value.spine.args) {
            let head = head.share()?;
            return Ok(Some(head));
        }
        let Node::Construct(_, _) = head.term.view() else {
            return Ok(None);
        };
        let items = value.spine.args.as_slice();
        let env = all_bound(alloc, items)?;
        let count = items.len();
        let term = self.applied(alloc, &head.term, count)?;
        Ok(Some(Lazy { term, env }))
    }

    /// A head that is applied to the innermost variables, the outermost of them first.
    fn applied(&mut self, alloc: Global, head: &Term, count: usize) -> Result<Term, MakeFault>
        requires ready { IsReady self.old }
        ensures ok { IfOk result (λ t. t ≡ apply head.now (variables count)) }
        ensures ready { IsReady self.new }
        ensures entries { self.new.entries ≡ self.old.entries }
        ensures left { self.new.left ≡ self.old.left }
    {
        let made = self.made_last(head, count)?;
        if let Some(whole) = made {
            return Ok(whole);
        }
        let first = head.share()?;
        let whole = applied_to_variables(alloc, first, count)?;
        let head = head.share()?;
        let again = whole.share()?;
        self.made = Some(Made { head, count, whole });
        Ok(again)
    }

    /// The head that was applied to variables last, where it is this one, and they were so many.
    fn made_last(&self, head: &Term, count: usize) -> Result<Option<Term>, MakeFault>
        requires ready { IsReady self.now }
        ensures ok { IfOk result (λ o. IfSome o (λ t. t ≡ apply head.now (variables count))) }
    {
        match &self.made {
            Some(made) => {
                if is_made(made, head, count) {
                    let whole = made.whole.share()?;
                    return Ok(Some(whole));
                }
                Ok(None)
            }
            None => Ok(None),
        }
    }
}

/// A place as a number of 32 bits, where it is one.
fn number(at: usize) -> Option<u32> {
    match u32::try_from(at) {
        Ok(number) => Some(number),
        Err(_) => None,
    }
}

/// Whether what was made is of this head, and so many variables.
fn is_made(made: &Made, head: &Term, count: usize) -> bool
    ensures is { IsTrue result → (made.now.head ≡ head.now) × (made.now.count ≡ count) }
{
    made.count == count && made.head.same(head)
}

/// Whether the first of bindings has a place for a term that may have a step.
fn is_wanted(bindings: &Bindings) -> bool {
    match bindings.find(0) {
        Found::Item(item, Some(_)) => item.may_step(),
        _ => false,
    }
}

/// Bindings of a list of terms, the last of which is variable 0.
fn all_bound(alloc: Global, items: &[Lazy]) -> Result<Bindings, MakeFault>
    ensures ok { IfOk result (λ b. stands b.items ≡ put_all (map read items.now) Rel) }
{
    let mut env = Bindings::new();
    let mut i = 0;
    'next: while i < items.len() {
        let item = items[i].share()?;
        env = env.with(alloc, item)?;
        i += 1;
    }
    Ok(env)
}

/// A head that is applied to the innermost variables, the outermost of them first.
fn applied_to_variables(alloc: Global, head: Term, count: usize) -> Result<Term, MakeFault>
    ensures ok { IfOk result (λ t. t ≡ apply head (variables count)) }
{
    let mut term = head;
    let mut left = count;
    'next: while left > 0 {
        left -= 1;
        let Ok(number) = u32::try_from(left) else {
            return Err(MakeFault::Memory);
        };
        let variable = Term::make(alloc, Node::Rel(number))?;
        term = Term::make(alloc, Node::App(term, variable))?;
    }
    Ok(term)
}

//! Maps from numbers that share what they have in common.
ghost use Rattle.std.specs.Prelude.{◌≡◌, ℕ, ◌==◌, if◌then◌else◌, IfOk, MatchOption, Some, None};
ghost use Rattle.pc_rules.specs.Trie.{Nil, at, item_of, odd_of, even_of};
ghost use Rattle.pc_rules.specs.TrieNodes.{contents, trie_of_node};

use std::alloc::{AllocError, Global};
use std::marker::Model;
use std::rc::Rc;

/// A map from numbers.
#[cycle(number_map)]
#[derive(Drop)]
pub struct NumberMap<T: Drop> {
    root: Option<Rc<MapNode<T>>>,
}

#[cycle(number_map)]
#[derive(Drop)]
struct MapNode<T: Drop> {
    item: Option<Rc<T>>,
    odd: NumberMap<T>,
    even: NumberMap<T>,
}

impl<T: Drop> Model for NumberMap<T> {
    ghost use Rattle.pc_rules.specs.Trie.{Trie, height, coded_trie};

    ghost Value = { Trie T };

    ghost coded = { coded_trie T.code };

    ghost use Rattle.pc_rules.specs.TrieNodes.{trie_of};

    ghost view = { λ a. trie_of a.root };

    ghost size = { height };
}

impl<T: Drop> NumberMap<T> {
    /// The empty map.
    pub fn new() -> NumberMap<T>
        ensures empty { result ≡ Nil }
    {
        NumberMap { root: None }
    }

    /// The same map.
    pub fn share(&self) -> Result<NumberMap<T>, AllocError>
        ensures same { IfOk result (λ r. r ≡ self.now) }
    {
        match &self.root {
            None => Ok(NumberMap { root: None }),
            Some(rc) => Ok(NumberMap {
                root: Some(rc.clone()?),
            }),
        }
    }

    /// What a number has.
    pub fn get(&self, number: u32) -> Option<&T>
        ensures at { MatchOption result (at self.now number ≡ None) (λ x. at self.now number ≡ Some x.now) }
    {
        let mut map = self;
        let mut rest = number;
        loop {
            match &map.root {
                None => return None,
                Some(rc) => {
                    if rest == 0 {
                        return rc.item_ref();
                    }
                    if rest % 2 == 1 {
                        map = &rc.odd;
                        rest /= 2;
                    } else {
                        map = &rc.even;
                        rest = rest / 2 - 1;
                    }
                }
            }
        }
    }

    // The root, or that of an empty map, to be changed.
    fn opened(&self) -> Result<MapNode<T>, AllocError>
        ensures item { IfOk result (λ n. contents n.item ≡ item_of self.now) }
        ensures odd { IfOk result (λ n. n.odd ≡ odd_of self.now) }
        ensures even { IfOk result (λ n. n.even ≡ even_of self.now) }
    {
        match &self.root {
            None => Ok(MapNode {
                item: None,
                odd: NumberMap::new(),
                even: NumberMap::new(),
            }),
            Some(rc) => {
                let item = match &rc.item {
                    None => None,
                    Some(kept) => Some(kept.clone()?),
                };
                let odd = rc.odd.share()?;
                let even = rc.even.share()?;
                Ok(MapNode { item, odd, even })
            }
        }
    }

    /// The map in which a number has an item.
    #[cycle(with)]
    pub fn with(&self, alloc: Global, number: u32, item: Rc<T>) -> Result<NumberMap<T>, AllocError>
        ensures added { IfOk result (λ r. (n : ℕ) → at r n ≡ (if n == number then Some item.value else at self.now n)) }
    {
        let opened = self.opened()?;
        let node = opened.with_item(alloc, number, item)?;
        match Rc::new(alloc, node) {
            Ok(rc) => Ok(NumberMap { root: Some(rc) }),
            Err(_) => Err(AllocError),
        }
    }
}

impl<T: Drop> MapNode<T> {
    #[cycle(with)]
    fn with_item(self, alloc: Global, number: u32, new: Rc<T>) -> Result<MapNode<T>, AllocError>
        ensures added { IfOk result (λ r. (n : ℕ) → at (trie_of_node r) n ≡ (if n == number then Some new.value else at (trie_of_node self) n)) }
    {
        let MapNode { item, odd, even } = self;
        if number == 0 {
            return Ok(MapNode {
                item: Some(new),
                odd,
                even,
            });
        }
        if number % 2 == 1 {
            let odd = odd.with(alloc, number / 2, new)?;
            return Ok(MapNode { item, odd, even });
        }
        let even = even.with(alloc, number / 2 - 1, new)?;
        Ok(MapNode { item, odd, even })
    }

    fn item_ref(&self) -> Option<&T>
        ensures is { MatchOption result (contents self.now.item ≡ None) (λ x. contents self.now.item ≡ Some x.now) }
    {
        match &self.item {
            None => None,
            Some(rc) => Some(&**rc),
        }
    }
}

//! The table of texts by number.
ghost use Rattle.std.specs.Prelude.{◌≡◌, ◌↔◌, ◌≤◌, ◌<◌, ◌^◌, [], length, IfOk, IfErr, OnOk, OnErr, IfSome, IsNone, IsTrue, bytes_eq, slice_get, option_copied};
ghost use Rattle.dump_grammar.specs.Numbering.{place_of};
ghost use Rattle.dump_grammar.specs.declared.refusal.ReadRefusal.TheVariants.{Memory};
ghost use Rattle.dump_reader.specs.Tables.{with_text};

use dump_grammar::ReadRefusal;
use indexmap::IndexSet;
use std::alloc::Global;
use std::marker::Model;

/// Whether two texts have the same bytes. Each is tested by itself: most names are short.
#[inline(always)]
fn same_bytes(text: &[u8], other: &[u8]) -> bool
    ensures same { result ≡ bytes_eq text.now other.now }
{
    if text.len() != other.len() {
        return false;
    }
    let mut at = 0;
    while at < text.len() {
        if text[at] != other[at] {
            return false;
        }
        at += 1;
    }
    true
}

/// Texts by number: from 0 on, in the order in which they were first seen. Contracts see the list of the texts' bytes, in which no text
/// stands twice.
#[derive(Drop)]
pub struct Names {
    texts: IndexSet<String>,
}

impl Model for Names {
    ghost use Rattle.std.specs.Prelude.{List, ℕ, map};
    ghost use Rattle.std.specs.String.{string_bytes};

    ghost Value = { List (List ℕ) };

    ghost view = { λ a. map string_bytes a.texts.keys };

    ghost use Rattle.std.specs.Prelude.{◌<◌, ◌^◌, length};

    ghost invariant = { λ a. length a.texts.keys < 2 ^ 32 };
}

impl Names {
    /// The empty table, which grows by `alloc`.
    pub fn new(alloc: Global) -> Names
        ensures empty { result ≡ [] }
    {
        Names {
            texts: IndexSet::new(alloc),
        }
    }

    /// The text of a number: none exactly where the number isn't below the length.
    pub fn text(&self, n: u32) -> Option<&str>
        ensures bytes { option_copied result ≡ slice_get self.now n }
        ensures none { IsNone result ↔ (length self.now ≤ n) }
        ensures one { IfSome result (λ text. place_of text.now self.now ≡ n) }
    {
        match self.texts.as_slice().get(n as usize) {
            Some(text) => Some(text.as_str()),
            None => None,
        }
    }

    /// Whether a number is that of a text, by the text's bytes alone.
    pub(crate) fn is_text_of(&self, n: u32, text: &[u8]) -> bool
        ensures place { IsTrue result → place_of text.now self.now ≡ n }
        ensures there { IsTrue result → with_text text.now self.now ≡ self.now }
    {
        match self.text(n) {
            Some(kept) => same_bytes(kept.as_bytes(), text),
            None => false,
        }
    }

    /// How many texts there are. Their numbers are those below.
    pub fn len(&self) -> usize
        ensures is { result ≡ length self.now }
        ensures small { result < 2 ^ 32 }
    {
        self.texts.len()
    }

    /// Whether there is no text.
    pub fn is_empty(&self) -> bool
        ensures is { IsTrue result ↔ (self.now ≡ []) }
    {
        self.texts.is_empty()
    }

    /// The number of a text, which gets the next one where it has none. `Memory`, and the table as it was, where there is no memory for one
    /// more text, or no number of 32 bits.
    pub fn number(&mut self, alloc: Global, text: &str) -> Result<u32, ReadRefusal>
        ensures added { OnOk result (self.new ≡ with_text text.now self.old) }
        ensures number { IfOk result (λ n. n ≡ place_of text.now self.old) }
        ensures same { OnErr result (self.new ≡ self.old) }
        ensures only_memory { IfErr result (λ e. e ≡ Memory) }
    {
        if let Some(place) = self.texts.get_index_of(text) {
            return Ok(place as u32);
        }
        let next = self.texts.len();
        if next >= u32::MAX as usize {
            return Err(ReadRefusal::Memory);
        }
        let owned = String::from_str(alloc, text)?;
        self.texts.insert(owned)?;
        Ok(next as u32)
    }
}

//! The numbers that names had last, by which a name that comes again is mostly found without a search for it.
ghost use Rattle.std.specs.Prelude.{◌<◌};

use std::alloc::Global;

/// How many places there are.
const PLACES: usize = 1024;

/// The place of a text, by its length and three of its bytes.
fn place(text: &[u8]) -> usize
    ensures small { result < 1024 }
{
    if text.is_empty() {
        return 0;
    }
    let first = text[0] as usize;
    let middle = text[text.len() / 2] as usize;
    let last = text[text.len() - 1] as usize;
    (text.len() % 256 + 3 * first + 37 * middle + 5 * last) % PLACES
}

/// Numbers of texts, at each place the one that a text had last. No clause says what is in it.
#[derive(Drop)]
pub(crate) struct Recent {
    numbers: Vec<u32>,
}

impl Recent {
    /// The table in which no text had a number.
    pub(crate) fn new(alloc: Global) -> Recent {
        Recent {
            numbers: Vec::new(alloc),
        }
    }

    /// The number that a text had last at the place of this one, or 0.
    pub(crate) fn last(&self, text: &[u8]) -> u32 {
        match self.numbers.get(place(text)) {
            Some(number) => *number,
            None => 0,
        }
    }

    /// Puts the number of a text into its place, where there is memory for that.
    pub(crate) fn keep(&mut self, text: &[u8], number: u32) {
        let place = place(text);
        for _ in self.numbers.len()..place + 1 {
            if self.numbers.push(0).is_err() {
                return;
            }
        }
        if let Some(kept) = self.numbers.get_mut(place) {
            *kept = number;
        }
    }
}

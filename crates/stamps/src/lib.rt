//! Stamps: marks by which two references are seen to lead to one place.
//!
//! A stamp is made for a number that no code holds, such as the number of the value that it lies beside. Two stamps that are seen to be one
//! have the same number. So two values that each keep a stamp for their own number are the same where their stamps are one, and no walk
//! over them is needed to know it.
ghost use Rattle.std.specs.Prelude.{◌≡◌, ℕ, IsTrue};
ghost use base.Fml.{fex};
ghost use Rattle.stamps.specs.Ownership.{stamp_shares};

use std::marker::{Move, Owns};

/// A mark for a number. In a clause it is that number.
///
/// It may change behind a `&`, so it is of one thread.
#[derive(Drop)]
pub struct Stamp {
    mark: bool,
}

impl Owns for Stamp {
    ghost Value = { ℕ };

    ghost shr_at = { λ n p κ. stamp_shares Fields n p κ };
}

impl Move for Stamp {
    ghost own_val = { λ n vs. fex Inside (λ i. Fields.own_val i vs) };
}

impl Stamp {
    /// A stamp for any number, which the proof of the call names.
    pub fn new() -> Stamp
        ghost n: { ℕ }
        ensures is { result ≡ n }
    {
        Stamp { mark: false }
    }

    /// Whether the two are one: `true` where both references lead to one place, and else `false`.
    ///
    /// It turns the mark of the one and looks whether that of the other has turned with it. No clause speaks of places; where the answer
    /// is `true` the numbers are the same.
    pub fn same(&self, other: &Stamp) -> bool
        ensures is { IsTrue result → self.now ≡ other.now }
    {
        let mine = &raw const self.mark as *mut bool;
        let theirs = &raw const other.mark;
        unsafe {
            let before = theirs.read();
            mine.write(!before);
            before != theirs.read()
        }
    }
}

#[cfg(test)]
mod tests;

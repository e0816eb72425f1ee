//! Certificates: lists of items.
ghost use Rattle.std.specs.Prelude.{◌≡◌, ◌<◌, ◌+◌, ◌^◌, IsTrue, IfSome, Some, length, slice_get};
ghost use Rattle.cert_rules.specs.Packed.{item_of, unpacked};

use crate::item::CertItem;
use crate::packed::PackedItems;
use std::marker::Model;

/// A list of items. Contracts see it as its items.
#[derive(Drop)]
pub struct CertItems {
    items: PackedItems,
}

/// A certificate, as its items in the order in which they are taken.
#[derive(Drop)]
pub struct Cert {
    items: CertItems,
}

impl Model for CertItems {
    ghost use Rattle.std.specs.Prelude.{List};
    ghost use Rattle.cert_rules.specs.declared.item.CertItem.{CertItem};

    ghost Value = { List CertItem };

    ghost use Rattle.cert_rules.specs.Packed.{unpacked};

    ghost view = { λ a. unpacked a.items };
}

impl Model for Cert {
    ghost use Rattle.std.specs.Prelude.{List};
    ghost use Rattle.cert_rules.specs.declared.item.CertItem.{CertItem};

    ghost Value = { List CertItem };

    ghost view = { λ c. c.items };
}

impl CertItems {
    /// The list of packed items. Takes no memory.
    pub fn of(items: PackedItems) -> CertItems
        ensures is { result ≡ unpacked items }
    {
        CertItems { items }
    }

    /// The packed items. Takes no memory.
    pub fn into_packed(self) -> PackedItems
        ensures is { unpacked result ≡ self }
    {
        self.items
    }

    /// The number of items. Takes no memory.
    pub fn len(&self) -> usize
        ensures is { result ≡ length self.now }
    {
        self.items.len()
    }

    /// The item at a number, from 0; none exactly where there are not so many. Takes no memory.
    pub fn get(&self, at: usize) -> Option<CertItem>
        ensures is { result ≡ slice_get self.now at }
        ensures more { IfSome result (λ _. at + 1 < 2 ^ 64) }
    {
        self.items.get(at)
    }

    /// Whether the item at a number, from 0, is seen to be that of a byte (`packed`). Takes no memory.
    pub fn is_own(&self, at: usize, code: u8) -> bool
        requires own { code < 255 }
        ensures there { IsTrue result → slice_get self.now at ≡ Some (item_of code) }
        ensures more { IsTrue result → at + 1 < 2 ^ 64 }
    {
        self.items.is_own(at, code)
    }
}

impl Cert {
    /// The certificate of these items. Takes no memory.
    pub fn of(items: CertItems) -> Cert
        ensures is { result ≡ items }
    {
        Cert { items }
    }

    /// Its items, the first first. Takes no memory.
    pub fn items(&self) -> &CertItems
        ensures is { result.now ≡ self.now }
    {
        &self.items
    }

    /// Its items as a list of their own. Takes no memory.
    pub fn into_items(self) -> CertItems
        ensures is { result ≡ self }
    {
        self.items
    }
}

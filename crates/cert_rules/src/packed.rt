//! Lists of items that take a byte each.
ghost use Rattle.std.specs.Prelude.{◌≡◌, ◌<◌, ◌+◌, ◌^◌, ◌++◌, ◌∷◌, [], length, slice_get, vec_len, vec_capacity, Some, IsTrue, IfSome, OnOk};
ghost use Rattle.std.specs.Ordering.{nat_cmp};
ghost use Rattle.std.specs.BTreeMap.{get, Updates};
ghost use Rattle.cert_rules.specs.Packed.{item_of, wide_item, unpacked};

use crate::item::CertItem;
use std::alloc::{AllocError, Global};
use std::collections::BTreeMap;

/// The byte of `Number(0)`.
pub const NO_STEP: u8 = 0;
/// The byte of `Same`.
pub const SAME: u8 = 248;
/// The byte of `Conv`.
pub const CONV: u8 = 249;
/// The byte of `Parts`.
pub const PARTS: u8 = 250;

/// A list of items, the first first: a byte for each. An item without a byte of its own (a number of steps of 128 or more, of 60 or more on one side) has
/// the byte 255, and stands in a table by its place in the list, from 0.
#[derive(Drop)]
pub struct PackedItems {
    pub codes: Vec<u8>,
    pub wide: BTreeMap<usize, CertItem>,
}

/// The byte of an item; 255 where it has none of its own.
fn code_of(item: CertItem) -> u8
    ensures is { result < 255 → item_of result ≡ item }
{
    match item {
        CertItem::Number(n) if n < 128 => n as u8,
        CertItem::Left(n) if n < 60 => n as u8 + 128,
        CertItem::Right(n) if n < 60 => n as u8 + 188,
        CertItem::Same => SAME,
        CertItem::Conv => CONV,
        CertItem::Parts => PARTS,
        _ => 255,
    }
}

/// The item of a byte.
fn item_of(code: u8) -> CertItem
    ensures is { result ≡ item_of code }
{
    if code < 128 {
        return CertItem::Number(u32::from(code));
    }
    if code < 188 {
        return CertItem::Left(u32::from(code) - 128);
    }
    if code < 248 {
        return CertItem::Right(u32::from(code) - 188);
    }
    match code {
        SAME => CertItem::Same,
        CONV => CertItem::Conv,
        _ => CertItem::Parts,
    }
}

/// Puts a byte behind others.
fn put_code(codes: &mut Vec<u8>, code: u8) -> Result<(), AllocError>
    ensures ok { OnOk result (codes.new.items ≡ codes.old.items ++ code ∷ []) }
{
    match codes.push(code) {
        Ok(()) => Ok(()),
        Err(_) => Err(AllocError),
    }
}

/// Puts an item into a table.
fn put_wide(
    wide: &mut BTreeMap<usize, CertItem>,
    at: usize,
    item: CertItem,
) -> Result<(), AllocError>
    ensures ok { OnOk result (Updates nat_cmp wide.old wide.new at (Some item)) }
{
    match wide.insert(at, item) {
        Ok(_) => Ok(()),
        Err(_) => Err(AllocError),
    }
}

impl PackedItems {
    /// The list without items. Takes no memory.
    pub fn new(alloc: Global) -> PackedItems
        ensures empty { unpacked result ≡ [] }
    {
        PackedItems {
            codes: Vec::new(alloc),
            wide: BTreeMap::new(alloc),
        }
    }

    /// The number of items. Takes no memory.
    pub fn len(&self) -> usize
        ensures is { result ≡ length (unpacked self.now) }
    {
        self.codes.len()
    }

    /// The byte at a place.
    fn code_at(&self, at: usize) -> Option<u8>
        ensures is { result ≡ slice_get self.now.codes.items at }
        ensures more { IfSome result (λ _. at + 1 < 2 ^ 64) }
    {
        match self.codes.get(at) {
            Some(code) => Some(*code),
            None => None,
        }
    }

    /// The item of the table at a place whose byte is 255.
    fn wide_at(&self, at: usize) -> CertItem
        ensures is { result ≡ wide_item (get nat_cmp self.now.wide at) }
    {
        match self.wide.get(&at) {
            Some(item) => *item,
            None => CertItem::Parts,
        }
    }

    /// The item at a number, from 0; none exactly where there are not so many. Takes no memory.
    pub fn get(&self, at: usize) -> Option<CertItem>
        ensures is { result ≡ slice_get (unpacked self.now) at }
        ensures more { IfSome result (λ _. at + 1 < 2 ^ 64) }
    {
        match self.code_at(at) {
            Some(255) => Some(self.wide_at(at)),
            Some(code) => Some(item_of(code)),
            None => None,
        }
    }

    /// Whether the item at a number, from 0, has this byte of its own. Takes no memory.
    pub fn is_own(&self, at: usize, code: u8) -> bool
        requires own { code < 255 }
        ensures there { IsTrue result → slice_get (unpacked self.now) at ≡ Some (item_of code) }
        ensures more { IsTrue result → at + 1 < 2 ^ 64 }
    {
        match self.code_at(at) {
            Some(found) => found == code,
            None => false,
        }
    }

    /// Puts an item that has a byte of its own behind the others.
    fn push_own(&mut self, code: u8) -> Result<(), AllocError>
        requires own { code < 255 }
        ensures ok { OnOk result (unpacked self.new ≡ unpacked self.old ++ item_of code ∷ []) }
    {
        match put_code(&mut self.codes, code) {
            Ok(()) => Ok(()),
            Err(e) => Err(e),
        }
    }

    /// Puts the item of a byte of its own behind the others, where the bytes have room for it. Takes no memory.
    pub fn push_reserved(&mut self, code: u8)
        requires own { code < 255 }
        requires room { vec_len self.old.codes < vec_capacity self.old.codes }
        ensures put { unpacked self.new ≡ unpacked self.old ++ item_of code ∷ [] }
        ensures len { vec_len self.new.codes ≡ vec_len self.old.codes + 1 }
        ensures capacity { vec_capacity self.new.codes ≡ vec_capacity self.old.codes }
    {
        self.codes.push_reserved(code);
    }

    /// Puts an item into the table, behind the others.
    fn push_wide(&mut self, item: CertItem) -> Result<(), AllocError>
        ensures ok { OnOk result (unpacked self.new ≡ unpacked self.old ++ item ∷ []) }
    {
        put_wide(&mut self.wide, self.codes.len(), item)?;
        match put_code(&mut self.codes, 255) {
            Ok(()) => Ok(()),
            Err(e) => Err(e),
        }
    }

    /// Puts an item behind the others. Fails only for want of memory.
    pub fn push(&mut self, item: CertItem) -> Result<(), AllocError>
        ensures ok { OnOk result (unpacked self.new ≡ unpacked self.old ++ item ∷ []) }
    {
        let code = code_of(item);
        if code == 255 {
            return self.push_wide(item);
        }
        self.push_own(code)
    }
}

//! Bytes, numbers and names.
ghost use Rattle.std.specs.Prelude.{◌≡◌, ◌++◌, decimal, OnOk};
ghost use Rattle.box_text.specs.BoxText.{name_text, family_text};

use dump_reader::names::Names;
use itoa::Buffer;
use pc_terms::leaf::{FamilyId, Name};
use std::alloc::AllocError;

/// Puts bytes at the end.
pub(crate) fn put(out: &mut Vec<u8>, bytes: &[u8]) -> Result<(), AllocError>
    ensures ok { OnOk result (out.new.items ≡ out.old.items ++ bytes.now) }
{
    out.extend_from_slice(bytes)
}

/// A number in decimal.
pub(crate) fn put_number(out: &mut Vec<u8>, n: u32) -> Result<(), AllocError>
    ensures ok { OnOk result (out.new.items ≡ out.old.items ++ decimal n) }
{
    let mut buffer = Buffer::new();
    put(out, buffer.format(n).as_bytes())
}

/// The text of a name, or `?` and its number where it has none.
pub(crate) fn put_name(out: &mut Vec<u8>, names: &Names, name: Name) -> Result<(), AllocError>
    ensures ok { OnOk result (out.new.items ≡ out.old.items ++ name_text names.now name) }
{
    match names.text(name.0) {
        Some(text) => put(out, text.as_bytes()),
        None => {
            put(out, b"?")?;
            put_number(out, name.0)
        }
    }
}

/// A family: its block's name and its place in the block.
pub(crate) fn put_family(out: &mut Vec<u8>, names: &Names, id: FamilyId) -> Result<(), AllocError>
    ensures ok { OnOk result (out.new.items ≡ out.old.items ++ family_text names.now id) }
{
    put_name(out, names, id.block)?;
    put(out, b" ")?;
    put_number(out, id.family)
}

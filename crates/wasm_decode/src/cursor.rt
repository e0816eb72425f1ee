//! The bytes left in a part of a file.

ghost use Rattle.std.specs.Prelude.{◌+◌, ◌<◌, ◌^◌, length};

/// The bytes left in a part (the file, a section or a body), and the offset of the first of them, in bytes from the start of the file.
#[derive(Drop)]
pub struct Cursor<'a> {
    pub rest: &'a [u8],
    pub at: usize,
    ghost in_range: { at + length rest.now < 2 ^ 64 },
}

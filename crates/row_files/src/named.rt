//! Texts with names, and what a value of a row stands for.
use crate::fault::Fault;
use crate::row::rows_of;
use std::alloc::{AllocError, Global};

/// A text with a name.
#[derive(Drop)]
struct NamedText {
    name: String,
    bytes: Vec<u8>,
}

/// The texts with names that rows may refer to.
#[derive(Drop)]
pub struct Named {
    texts: Vec<NamedText>,
}

/// Puts the bytes of a piece at the end, so many times.
fn put_times(bytes: &mut Vec<u8>, times: u32, piece: &str) -> Result<(), AllocError> {
    for _ in 0..times {
        bytes.extend_from_slice(piece.as_bytes())?;
    }
    Ok(())
}

impl Named {
    /// The texts of a table: each row has a name and a text, which may refer to those before it.
    pub fn of(alloc: Global, table: &str) -> Result<Named, Fault> {
        let mut named = Named {
            texts: Vec::new(alloc),
        };
        for row in &rows_of(alloc, table)? {
            if row.fields().is_empty() {
                continue;
            }
            let name = String::from_str(alloc, row.given("name")?)?;
            let bytes = named.bytes(alloc, row.given("text")?)?;
            named.texts.push(NamedText { name, bytes })?;
        }
        Ok(named)
    }

    /// The bytes of the text with a name.
    fn find(&self, name: &str) -> Result<&[u8], Fault> {
        for text in self.texts.as_slice() {
            if text.name.as_str() == name {
                return Ok(text.bytes.as_slice());
            }
        }
        Err(Fault::Faulty("no text has this name"))
    }

    /// Puts at the end what the inside of braces stands for: `N|PIECE` for so many pieces, `0xNN` for a byte, and else the text with that name.
    fn put_inside(&self, bytes: &mut Vec<u8>, inside: &str) -> Result<(), Fault> {
        if let Some((times, piece)) = inside.split_once('|') {
            let Ok(times) = times.parse::<u32>() else {
                return Err(Fault::Faulty("no number before the bar"));
            };
            put_times(bytes, times, piece)?;
            return Ok(());
        }
        if let Some(digits) = inside.strip_prefix("0x") {
            let Ok(byte) = u8::from_str_radix(digits, 16) else {
                return Err(Fault::Faulty("no byte"));
            };
            bytes.push(byte)?;
            return Ok(());
        }
        bytes.extend_from_slice(self.find(inside)?)?;
        Ok(())
    }

    /// Puts at the end what a value stands for.
    pub fn put(&self, bytes: &mut Vec<u8>, value: &str) -> Result<(), Fault> {
        let mut is_first = true;
        for part in value.split('{') {
            if is_first {
                bytes.extend_from_slice(part.as_bytes())?;
                is_first = false;
                continue;
            }
            let Some((inside, rest)) = part.split_once('}') else {
                return Err(Fault::Faulty("a brace is not closed"));
            };
            self.put_inside(bytes, inside)?;
            bytes.extend_from_slice(rest.as_bytes())?;
        }
        Ok(())
    }

    /// What a value stands for: its bytes, with what stands in braces put in.
    pub fn bytes(&self, alloc: Global, value: &str) -> Result<Vec<u8>, Fault> {
        let mut bytes = Vec::new(alloc);
        self.put(&mut bytes, value)?;
        Ok(bytes)
    }
}

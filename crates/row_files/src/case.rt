//! A row with what its values stand for.
use crate::fault::Fault;
use crate::named::Named;
use crate::row::Row;
use std::alloc::{AllocError, Global};

/// A row to be run, with the memory and the named texts for it.
#[derive(Clone, Copy)]
pub struct Case<'a> {
    pub alloc: Global,
    pub named: &'a Named,
    pub row: &'a Row<'a>,
}

impl Case<'_> {
    /// Puts at the end what the lines with a key stand for, with blanks between them.
    fn put_lines(&self, bytes: &mut Vec<u8>, key: &str) -> Result<(), Fault> {
        let mut is_first = true;
        for field in self.row.fields() {
            if field.key == key {
                if !is_first {
                    bytes.push(b' ')?;
                }
                is_first = false;
                self.named.put(bytes, field.value)?;
            }
        }
        Ok(())
    }

    /// What the lines with a key stand for: none of them for no byte, several of them with blanks between them.
    pub fn bytes(&self, key: &str) -> Result<Vec<u8>, Fault> {
        let mut bytes = Vec::new(self.alloc);
        self.put_lines(&mut bytes, key)?;
        Ok(bytes)
    }

    /// Puts the front of the environment's text at the end: its levels, constraints and declarations.
    pub fn put_front(&self, text: &mut Vec<u8>) -> Result<(), Fault> {
        text.extend_from_slice(b"(env 1 (levels ")?;
        self.put_lines(text, "levels")?;
        text.extend_from_slice(b") (constraints ")?;
        self.put_lines(text, "constraints")?;
        text.extend_from_slice(b") ")?;
        self.put_lines(text, "declarations")
    }

    /// Puts the term that is main at the end; no line `main` stands for `Prop`.
    fn put_main(&self, text: &mut Vec<u8>) -> Result<(), Fault> {
        if self.row.value("main").is_some() {
            self.put_lines(text, "main")
        } else {
            Ok(text.extend_from_slice(b"(tSort Prop)")?)
        }
    }

    /// The text of the row's environment: its `text`, or one that is put together of its `levels`, `constraints`, `declarations` and `main`
    /// (no main stands for `Prop`).
    pub fn environment(&self) -> Result<Vec<u8>, Fault> {
        if self.row.value("text").is_some() {
            return self.bytes("text");
        }
        let mut text = Vec::new(self.alloc);
        self.put_front(&mut text)?;
        text.extend_from_slice(b" (main ")?;
        self.put_main(&mut text)?;
        text.extend_from_slice(b"))")?;
        Ok(text)
    }

    /// The numbers of the calls that the row says to fail: the number by a key, or none.
    pub fn failing(&self, key: &str) -> Result<Vec<u64>, Fault> {
        let mut calls = Vec::new(self.alloc);
        if self.row.value(key).is_some() {
            calls.push(self.row.number(key, 0)?)?;
        }
        Ok(calls)
    }
}

/// Puts bytes at the end: as text where they are one.
pub fn put_bytes(out: &mut String, bytes: &[u8]) -> Result<(), AllocError> {
    match str::from_utf8(bytes) {
        Ok(text) => write!(out, "{text:?}"),
        Err(_) => write!(out, "{bytes:?}"),
    }
}

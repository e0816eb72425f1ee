//! Bytes written in hexadecimal.
use row_files::{Fault, Row};
use std::alloc::{AllocError, Global};

/// The value of a hexadecimal digit.
fn digit_of(digit: u8) -> Option<u8> {
    match digit {
        b'0'..=b'9' => Some(digit - b'0'),
        b'A'..=b'F' => Some(digit - b'A' + 10),
        b'a'..=b'f' => Some(digit - b'a' + 10),
        _ => None,
    }
}

/// The byte that two hexadecimal digits spell.
fn byte_of(digits: &str) -> Option<u8> {
    let &[high, low] = digits.as_bytes() else {
        return None;
    };
    Some(digit_of(high)?.wrapping_mul(16) | digit_of(low)?)
}

/// The number that decimal digits spell.
fn number_of(digits: &str) -> Result<u32, Fault> {
    match digits.parse::<u32>() {
        Ok(number) => Ok(number),
        Err(_) => Err(Fault::Faulty("no number")),
    }
}

/// Puts bytes at the end so many times.
fn put_repeated(bytes: &mut Vec<u8>, piece: &[u8], times: u32) -> Result<(), AllocError> {
    for _put in 0..times {
        bytes.extend_from_slice(piece)?;
    }
    Ok(())
}

/// Puts the bytes of a text at the end: pairs of digits with blanks between them, where `N*( .. )` stands for N times what is between the brackets.
fn put_bytes(alloc: Global, bytes: &mut Vec<u8>, text: &str) -> Result<(), Fault> {
    let mut piece = Vec::new(alloc);
    let mut times = 1;
    for word in text.split_whitespace() {
        if let Some(count) = word.strip_suffix("*(") {
            put_repeated(bytes, piece.as_slice(), times)?;
            piece.clear();
            times = number_of(count)?;
        } else if word == ")" {
            put_repeated(bytes, piece.as_slice(), times)?;
            piece.clear();
            times = 1;
        } else {
            let Some(byte) = byte_of(word) else {
                return Err(Fault::Faulty("no byte"));
            };
            piece.push(byte)?;
        }
    }
    put_repeated(bytes, piece.as_slice(), times)?;
    Ok(())
}

/// The bytes of the lines `module:` of a row, one line behind the other.
pub fn module_bytes(alloc: Global, row: &Row) -> Result<Vec<u8>, Fault> {
    let mut bytes = Vec::new(alloc);
    for field in row.fields() {
        if field.key == "module" {
            put_bytes(alloc, &mut bytes, field.value)?;
        }
    }
    Ok(bytes)
}

/// Puts bytes at the end of a text, in hexadecimal with blanks between them.
pub fn put_hex(out: &mut String, bytes: &[u8]) -> Result<(), AllocError> {
    let mut is_first = true;
    for byte in bytes {
        if !is_first {
            out.push_str(" ")?;
        }
        is_first = false;
        write!(out, "{byte:02X}")?;
    }
    Ok(())
}

//! Why a text is no certificate.

/// Why no certificate was read. Offsets are bytes from the start of the whole text.
#[derive(Clone, Copy, Debug, PartialEq, Eq)]
pub enum CertText {
    /// The first token, or byte of no token, that continues no text of a certificate; or the text's length where it ends too early.
    Syntax { offset: usize },
    /// A number over 4,294,967,295.
    Number { offset: usize },
    /// There was no memory for the items.
    Memory,
}

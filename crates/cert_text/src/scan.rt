//! Tokens of a text from an offset on. They are those of `sexp_reader`, but that an atom may have any length: a number that is too great is
//! refused as such, however many digits it has.
ghost use Rattle.std.specs.Prelude.{◌≡◌, ℕ, ◌+◌, ◌<◌, ◌≤◌, List, length, drop, false, get_or, nat_eq};
ghost use Rattle.sexp_reader.specs.Lex.{is_blank as blank, is_atom_byte as atom_byte, atom_len, lex, left, single};
ghost use Rattle.cert_text.specs.Scanned.{text_of_kind, IsNext, IsWithin};

/// What a token is: a bracket that opens, one that closes, an atom, or a byte that belongs to no token.
#[derive(Clone, Copy, Debug, PartialEq, Eq)]
pub(crate) enum Kind {
    Open,
    Close,
    Atom,
    Stray,
}

/// A token by its span: the offset of its first byte, and the offset behind its last. Offsets are bytes from the start of the text.
#[derive(Clone, Copy, Debug, PartialEq, Eq)]
pub(crate) struct Token {
    pub(crate) kind: Kind,
    pub(crate) start: usize,
    pub(crate) end: usize,
}

/// Whether a byte is a space, a tab, LF or CR.
fn is_blank(b: u8) -> bool
    ensures blank { result ≡ blank b }
{
    b == b' ' || b == b'\t' || b == b'\n' || b == b'\r'
}

/// Whether a byte is one of an atom: a letter, a digit, `_`, `.`, `'` or `-`.
pub(crate) fn is_atom_byte(b: u8) -> bool
    ensures atom { result ≡ atom_byte b }
{
    b.is_ascii_alphanumeric() || b == b'_' || b == b'.' || b == b'\'' || b == b'-'
}

/// The offset of the first byte from `from` on that is neither blank nor in a comment, or the text's length.
fn skip(bytes: &[u8], from: usize) -> usize
    requires { from ≤ length bytes.now }
    ensures within { result ≤ length bytes.now }
    ensures from { from ≤ result }
    ensures same { lex from false (drop from bytes.now) ≡ lex result false (drop result bytes.now) }
    ensures stops { result < length bytes.now → (blank (get_or bytes.now result 0) ≡ false) × (nat_eq (get_or bytes.now result 0) 59 ≡ false) }
{
    let mut at = from;
    let mut in_comment = false;
    while at < bytes.len() {
        let b = bytes[at];
        if in_comment {
            in_comment = b != b'\n';
        } else if b == b';' {
            in_comment = true;
        } else if !is_blank(b) {
            return at;
        }
        at += 1;
    }
    at
}

/// The offset behind the atom bytes that stand from `from` on.
fn atom_end(bytes: &[u8], from: usize) -> usize
    requires { from ≤ length bytes.now }
    ensures within { result ≤ length bytes.now }
    ensures end { result ≡ from + atom_len (drop from bytes.now) }
{
    let mut at = from;
    while at < bytes.len() {
        if !is_atom_byte(bytes[at]) {
            return at;
        }
        at += 1;
    }
    at
}

/// The kind of a byte that is a token by itself or of none.
fn kind_of(b: u8) -> Kind
    ensures is { (text : List ℕ) → text_of_kind result text ≡ single b }
{
    match b {
        b'(' => Kind::Open,
        b')' => Kind::Close,
        _ => Kind::Stray,
    }
}

/// The token that comes next from an offset on; none where only blanks and comments follow.
pub(crate) fn next(bytes: &[u8], at: usize) -> Option<Token>
    requires { at ≤ length bytes.now }
    ensures next { IsNext bytes.now at result }
    ensures within { IsWithin bytes.now at result }
{
    let start = skip(bytes, at);
    if start == bytes.len() {
        return None;
    }
    let b = bytes[start];
    if is_atom_byte(b) {
        let end = atom_end(bytes, start);
        return Some(Token {
            kind: Kind::Atom,
            start,
            end,
        });
    }
    let kind = kind_of(b);
    Some(Token {
        kind,
        start,
        end: start + 1,
    })
}
